// What a call is refused by for its lent buffers (rows C1 to C3), and what it leaves in one: what comes out, and a record.
ghost use Rattle.std.specs.Prelude.{◌≡◌, cond, eqb, length};
ghost use Rattle.wire.specs.Bytes.{copy_of};
ghost use Rattle.c_types.specs.Numbers.{wrong_output, sized, lent_number};
ghost use Rattle.c_types.specs.Lent.{leaves};

use crate::numbers::{SERVED, WRONG_OUTPUT, WRONG_RECORD};
use wire::words;

// C1 where the record does not fit, the row of another buffer where that does not, or 0.
pub fn lent_number(fits: bool, other: bool, row: u32) -> u32
    ensures { result ≡ lent_number fits other row }
{
    if fits {
        if other { SERVED } else { row }
    } else {
        WRONG_RECORD
    }
}

// C3, or the bytes and their number.
pub fn leave(buffer: &mut [u8], number: u32, bytes: &[u8]) -> u32
    ensures { leaves result buffer.new ≡ sized buffer.old (length bytes.now) (leaves wrong_output buffer.old) (leaves number bytes.now) }
{
    if buffer.len() == bytes.len() {
        buffer.copy_from_slice(bytes);
        number
    } else {
        WRONG_OUTPUT
    }
}

// The record is stored where no row refuses, and stays as it is otherwise.
pub fn store(lent: &mut [u8], number: u32, bytes: &[u8]) -> u32
    ensures { leaves result lent.new ≡ leaves number (cond (eqb number 0) (copy_of lent.old bytes.now) lent.old) }
{
    if number == SERVED {
        words::copy(lent, bytes);
    }
    number
}
