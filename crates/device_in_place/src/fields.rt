// The components of a record's bytes, by slot and by id.
ghost use Rattle.std.specs.Prelude.{◌≡◌, length};
ghost use Rattle.device_component.specs.Lists.{component_at, find};
ghost use Rattle.device_slots.specs.Standing.{standing_of};
ghost use Rattle.device_bytes.specs.Layout.{device_size, device_in};

use device_bytes::component::component_of;
use device_bytes::count_in;
use device_component::list::within_slots;
use device_component::record::Component;
use device_slots::standing::Standing;

// The component in a slot; past the last slot there is none.
pub(crate) fn component_at(b: &[u8], slot: u8) -> Component
    requires { length b.now ≡ device_size }
    ensures { result ≡ component_at (device_in b.now).components slot }
{
    component_of(b, slot)
}

// The slot of the component with this id.
fn find_in(b: &[u8], count: u8, id: u8) -> Option<u8>
    requires { length b.now ≡ device_size }
    ensures { result ≡ find id count (device_in b.now).components }
{
    (0..within_slots(count)).find(|slot| id == component_at(b, *slot).fixed.id)
}

// A component by its id.
pub(crate) fn standing_in(b: &[u8], id: u8) -> Standing
    requires { length b.now ≡ device_size }
    ensures { result ≡ standing_of id (device_in b.now).count (device_in b.now).components }
{
    let at = find_in(b, count_in(b), id);
    let component = component_at(b, at.unwrap_or(0));
    Standing { at, component }
}
