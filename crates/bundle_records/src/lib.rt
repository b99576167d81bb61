// The body of a bundle's offer: records of an address (4), a length (1) and data, one after the other.
#![tactic(auto)]

use wire::address::RegionAddress;
use wire::codes::DATA_SIZE;

pub mod walk; // walk.rt: a walker that steps from record to record, and the number of records

// The most data in a record.
pub const DATA_LIMIT: u8 = DATA_SIZE as u8;

// What stands at the start of some bytes.
#[derive(Clone, Copy)]
pub enum Head {
    // Nothing.
    Empty,
    // A cut record, or a length of 0 or over 52.
    Cut,
    Whole { address: RegionAddress, size: u8 },
}

// What stands at a place of a body.
#[derive(Clone, Copy)]
pub enum Next {
    End,
    Bad,
    // A record: its data is `size` bytes from `start`, and `next` is past them.
    Record {
        address: RegionAddress,
        start: usize,
        size: u8,
        next: usize,
    },
}
