// The list that set-up takes, a component at a place.
ghost use Rattle.std.specs.Prelude.{◌≡◌};
ghost use Rattle.device_bytes.specs.Layout.{with_listed_bytes};

use crate::LIST_SIZE;
use device_component::record::Listed;
use device_component_bytes::{LISTED_SIZE, listed_bytes};
use wire::codes::COMPONENT_LIMIT;
use wire::words;

// Another component at a place, where there is one; bytes of another length than a list has stay as they are.
pub fn store_listed(b: &mut [u8], place: u32, listed: Listed)
    ensures { b.new ≡ with_listed_bytes place listed b.old }
{
    if (b.len() == LIST_SIZE) & ((place as usize) < COMPONENT_LIMIT) {
        let p = listed_bytes(listed);
        let at = place as usize * LISTED_SIZE;
        words::copy(&mut b[at..at + LISTED_SIZE], &p);
    }
}
