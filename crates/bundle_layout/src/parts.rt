// The parts of an entry of the table, and row B5 of an entry.
ghost use Rattle.std.specs.Prelude.{◌≡◌};
ghost use Rattle.bundle_layout.specs.Layout.{id_in, offset_in, length_in};
ghost use Rattle.bundle_layout.specs.Rows.{bad_offer};

use wire::codes::{ID_LIMIT, PROTOCOL};
use wire::words::{byte_at, word32_at};

// Of an entry: its offer's id, its body's offset and length.
pub fn id_in(e: &[u8]) -> u8
    ensures { result ≡ id_in e.now }
{
    byte_at(e, 2)
}

pub fn offset_in(e: &[u8]) -> u32
    ensures { result ≡ offset_in e.now }
{
    word32_at(e, 16)
}

pub fn length_in(e: &[u8]) -> u32
    ensures { result ≡ length_in e.now }
{
    word32_at(e, 20)
}

// B5 of an entry: bytes 0, 1, 3 or 13 not zero, byte 12 not 2, or id outside 1-0xDF.
pub fn bad_offer(e: &[u8]) -> bool
    ensures { result ≡ bad_offer e.now }
{
    (byte_at(e, 0) != 0)
        | (byte_at(e, 1) != 0)
        | (byte_at(e, 3) != 0)
        | (byte_at(e, 13) != 0)
        | (byte_at(e, 12) != PROTOCOL)
        | (byte_at(e, 2) < 1)
        | (ID_LIMIT < byte_at(e, 2))
}
