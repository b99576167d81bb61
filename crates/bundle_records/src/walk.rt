// A walker over the records of a body, and how many there are.
ghost use Rattle.std.specs.Prelude.{◌≡◌};
ghost use Rattle.bundle_records.specs.Record.{is_sound, head_in};
ghost use Rattle.bundle_records.specs.Walk.{next_of, tally_of};

use crate::{DATA_LIMIT, Head, Next};
use wire::address::RegionAddress;
use wire::words;

// A length from 1 to 52 with as many bytes in the rest.
fn is_sound(size: u8, rest: usize) -> bool
    ensures { result ≡ is_sound size rest }
{
    (1 <= size) & (size <= DATA_LIMIT) & (size as usize <= rest)
}

// What stands at the start of s.
fn first(s: &[u8]) -> Head
    ensures { result ≡ head_in s.now }
{
    let n = s.len();
    if n == 0 {
        return Head::Empty;
    }
    if n < 5 {
        return Head::Cut;
    }
    let size = s[4];
    if is_sound(size, n - 5) {
        let address = RegionAddress::new(words::word32(s[0], s[1], s[2], s[3]));
        Head::Whole { address, size }
    } else {
        Head::Cut
    }
}

// What stands at place `at` of a body that ends at `end`; places that the bytes do not have are bad.
pub fn next_record(bytes: &[u8], at: usize, end: u64) -> Next
    ensures { result ≡ next_of bytes.now at end }
{
    if end < at as u64 {
        return Next::Bad;
    }
    if (bytes.len() as u64) < end {
        return Next::Bad;
    }
    let to = end as usize;
    match first(&bytes[at..to]) {
        Head::Empty => Next::End,
        Head::Cut => Next::Bad,
        Head::Whole { address, size } => {
            let start = at + 5;
            Next::Record {
                address,
                start,
                size,
                next: start + size as usize,
            }
        }
    }
}

// How many records stand from place `at` to place `end`, in one walk; none where the body is broken. It stays a loop: whether the body is broken
// shows at its end, so an iterator of the records would have to carry that beside its items.
pub fn tally(bytes: &[u8], at: usize, end: usize) -> Option<usize>
    ensures { result ≡ tally_of bytes.now at end }
{
    let mut n: usize = 0;
    let mut i = at;
    loop {
        match next_record(bytes, i, end as u64) {
            Next::End => return Some(n),
            Next::Bad => return None,
            Next::Record { next, .. } => {
                n += 1;
                i = next;
            }
        }
    }
}
