// Row N1: a record that does not fit the bundle, decided in constant time by how many offers the bundle has and how many records the body in hand has. And
// whether a block is the last of its body.
ghost use Rattle.std.specs.Prelude.{◌≡◌, ◌^◌, leb};
ghost use Rattle.host_record.specs.Fits.{turn_breaks, place_breaks, stage_breaks, record_breaks, is_last_of, last_of, entry_body, body_on, in_hand};

use crate::record::{Host, HostStage, PACKET_LIMIT, Place, Turn};
use bundle_layout::Entry;
use bundle_layout::limits::OFFER_LIMIT;

// The most BUSY replies to one offer in one pass that do not end the host.
pub const BUSY_LIMIT: u32 = 8;

// The body of an entry: where it starts and ends, and how many records it has.
#[derive(Clone, Copy)]
pub struct Body {
    pub start: usize,
    pub end: u64,
    pub records: u32,
}

pub fn body_of(e: Entry) -> Body
    ensures { result ≡ entry_body e }
{
    Body {
        start: e.offset as usize,
        end: (e.offset as u64) + (e.length as u64),
        records: e.records,
    }
}

// The body of entry i; past the table it is empty.
pub fn body_at(table: [Entry; OFFER_LIMIT], i: u32) -> Body
    ensures { result ≡ body_on table i }
{
    if i < OFFER_LIMIT as u32 {
        body_of(table[i as usize])
    } else {
        Body {
            start: 0,
            end: 0,
            records: 0,
        }
    }
}

// N1: points at an entry that the bundle lacks, or counts over 8 BUSY.
fn turn_breaks(n: u8, t: Turn) -> bool
    ensures { result ≡ turn_breaks n t }
{
    (n as u32 <= t.entry) | (BUSY_LIMIT < t.busy)
}

// N1: points at an entry or a body record that the bundle lacks; no bundle has an entry past the limit.
fn place_breaks(n: u8, k: u32, p: Place) -> bool
    ensures { result ≡ place_breaks n k p }
{
    (n as u32 <= p.entry) | ((OFFER_LIMIT as u32 <= p.entry) | (k <= p.block))
}

fn stage_breaks(n: u8, k: u32, stage: HostStage) -> bool
    ensures { result ≡ stage_breaks n k stage }
{
    match stage {
        HostStage::Offering(t) | HostStage::Waiting(t) => turn_breaks(n, t),
        HostStage::Sending(a) => place_breaks(n, k, a.place),
        _ => false,
    }
}

// A mask bit past n offers.
fn mask_breaks(n: u8, mask: u32) -> bool
    ensures { result ≡ leb (2 ^ n) mask }
{
    (n < 32) && (1 << n as u32) <= mask
}

// N1: .. more passes than offers, 2^31 or more packets, or a mask bit past its offers.
pub fn breaks(n: u8, k: u32, h: Host) -> bool
    ensures { result ≡ record_breaks n k h }
{
    stage_breaks(n, k, h.stage)
        | (((n as u32) < h.passes) | ((PACKET_LIMIT <= h.packets) | mask_breaks(n, h.mask)))
}

// The block in hand is the last of its body, which has k records.
pub fn is_last(k: u32, p: Place) -> bool
    ensures { result ≡ is_last_of k p }
{
    (p.block as u64) + 1 == k as u64
}

pub fn last_in(k: u32, stage: HostStage) -> bool
    ensures { result ≡ last_of k stage }
{
    match stage {
        HostStage::Sending(a) => is_last(k, a.place),
        _ => false,
    }
}

// The entry in hand, and 0 where there is none.
pub fn in_hand(stage: HostStage) -> u32
    ensures { result ≡ in_hand stage }
{
    match stage {
        HostStage::Offering(t) | HostStage::Waiting(t) => t.entry,
        HostStage::Sending(a) => a.place.entry,
        _ => 0,
    }
}
