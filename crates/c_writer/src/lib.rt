// The writer's call from C (document 02, A3, rows W).
#![tactic(auto)]

ghost use Rattle.std.specs.Prelude.{◌≡◌};
ghost use Rattle.c_writer.specs.Write.{told_write, write_call};

use bundle_writer::write;
use c_types::numbers::{ROW_W, SERVED, lettered};
use c_types::types::CWritten;

// The bundle of a list of offers and images goes to the start of the lent output; a refusal leaves the output as it was.
pub fn cfu_bundle_write(list: &[u8], images: &[u8], out: &mut [u8]) -> CWritten
    ensures { told_write result out.new ≡ write_call list.now images.now out.old }
{
    match write(out, list, images) {
        Ok(length) => CWritten {
            number: SERVED,
            entry: 0,
            length,
        },
        Err(r) => CWritten {
            number: lettered(ROW_W, r.row.number()),
            entry: r.place as u32,
            length: 0,
        },
    }
}
