// Rows D1 to D3 over the bytes of a record (document 01, "Numbered refusals"): what every entry judges first. Bytes that are no record are D1's too.
ghost use Rattle.std.specs.Prelude.{◌≡◌, length, take, drop};
ghost use Rattle.wire.specs.Checks.{any};
ghost use Rattle.device_component.specs.Rules.{clash as clash_of, unsound};
ghost use Rattle.device_session.specs.Sound.{breaks_d1};
ghost use Rattle.device.specs.Refusals.{row_in, refusal_of};
ghost use Rattle.device_bytes.specs.Layout.{device_size, count_in, session_in, device_in, read_device};

use crate::fields::component_at;
use device::answer::Refusal;
use device_bytes::session::session_in;
use device_bytes::{count_in, is_record, staging_len_in};
use device_component::list::within_slots;
use device_component::record::Component;
use device_component::rule::{clash, flawed};
use device_component::setup::{bad_count, staging_too_long};
use device_session::sound::{owes_on, wrong_previous, wrong_slot};

// A later component clashes with this one.
fn clashes(b: &[u8], c: Component, from: u8, count: u8) -> bool
    requires { length b.now ≡ device_size }
    ensures { result ≡ any (clash_of c) (drop from (take count (device_in b.now).components)) }
{
    (from..within_slots(count)).any(|slot| clash(c, component_at(b, slot)))
}

// Some component is flawed, or two clash.
fn some_unsound(b: &[u8], n: usize, count: u8) -> bool
    requires { length b.now ≡ device_size }
    ensures { result ≡ unsound n (take count (device_in b.now).components) }
{
    (0..within_slots(count)).any(|slot| {
        let c = component_at(b, slot);
        flawed(n, c) | clashes(b, c, slot + 1, count)
    })
}

// D1, for a record with a staging buffer of n bytes.
fn breaks(b: &[u8], n: usize) -> bool
    requires { length b.now ≡ device_size }
    ensures { result ≡ breaks_d1 n (count_in b.now) (device_in b.now).components (session_in b.now) }
{
    let count = count_in(b);
    let session = session_in(b);
    let stage = session.stage;
    let owed = session.owed;
    let previous = session.previous;
    let slot = stage.open_slot();
    let component = component_at(b, slot.unwrap_or(0));
    (staging_too_long(n) | bad_count(count))
        | (wrong_slot(count, component, slot)
            | (wrong_previous(stage, previous) | (owes_on(slot, owed) | some_unsound(b, n, count))))
}

// D1, D2 and D3, in this order, for a staging buffer of n bytes, a report of m bytes, and reports that are `size` bytes long.
pub fn refusal_in(b: &[u8], size: usize, n: usize, m: usize) -> Result<(), Refusal>
    ensures { row_in result ≡ refusal_of size (read_device b.now) n m }
{
    if !is_record(b) {
        return Err(Refusal::D1);
    }
    let len = staging_len_in(b) as usize;
    if breaks(b, len) {
        return Err(Refusal::D1);
    }
    if n != len {
        return Err(Refusal::D2);
    }
    if m != size {
        return Err(Refusal::D3);
    }
    Ok(())
}
