// Rows B1 to B4: what is wrong with the length and the first eight bytes.
ghost use Rattle.std.specs.Prelude.{◌≡◌};
ghost use Rattle.bundle_layout.specs.Layout.{table_end};
ghost use Rattle.bundle_layout.specs.Rows.{bad_length, bad_head, bad_count, cut_table};

use crate::limits::{BUNDLE_LIMIT, ENTRY, HEAD, OFFER_LIMIT};
use wire::words::byte_at;

// B1: under 8 or over 65,536 bytes.
pub fn bad_length(b: &[u8]) -> bool
    ensures { result ≡ bad_length b.now }
{
    (b.len() < HEAD) | (BUNDLE_LIMIT < b.len())
}

// B2: byte 1 not 1, or bytes 2-7 not zero.
pub fn bad_head(b: &[u8]) -> bool
    ensures { result ≡ bad_head b.now }
{
    (byte_at(b, 1) != 1)
        | (byte_at(b, 2) != 0)
        | (byte_at(b, 3) != 0)
        | (byte_at(b, 4) != 0)
        | (byte_at(b, 5) != 0)
        | (byte_at(b, 6) != 0)
        | (byte_at(b, 7) != 0)
}

// B3: count not 1 to the limit.
pub fn bad_count(b: &[u8]) -> bool
    ensures { result ≡ bad_count b.now }
{
    let count = byte_at(b, 0);
    (count < 1) | (OFFER_LIMIT < count as usize)
}

// Where the table of n offers ends.
pub fn table_end(n: u8) -> usize
    ensures { result ≡ table_end n }
{
    HEAD + ENTRY * (n as usize)
}

// B4: table past the end.
pub fn cut_table(b: &[u8]) -> bool
    ensures { result ≡ cut_table b.now }
{
    b.len() < table_end(byte_at(b, 0))
}
