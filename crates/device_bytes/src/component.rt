// The components of a device's record, each in the bytes of its slot.
ghost use Rattle.std.specs.Prelude.{◌≡◌};
ghost use Rattle.device_bytes.specs.Layout.{component_start, has_slot, component_of, with_component_bytes};

use crate::{COMPONENTS_START, DEVICE_SIZE};
use device_component::record::{Component, blank_component};
use device_component_bytes::{COMPONENT_SIZE, component_bytes, component_in};
use wire::codes::COMPONENT_LIMIT;
use wire::words;

// The bytes of the component in a slot stand from here on.
pub(crate) fn component_start(slot: u8) -> usize
    ensures { result ≡ component_start slot }
{
    COMPONENTS_START + (slot as usize) * COMPONENT_SIZE
}

// There is a component in this slot; past the last slot there is none, and none in bytes of another length.
fn has_slot(b: &[u8], slot: u8) -> bool
    ensures { result ≡ has_slot slot b.now }
{
    (b.len() == DEVICE_SIZE) & ((slot as usize) < COMPONENT_LIMIT)
}

// The component in a slot of a record's bytes, unjudged.
pub fn component_of(b: &[u8], slot: u8) -> Component
    ensures { result ≡ component_of slot b.now }
{
    if has_slot(b, slot) {
        component_in(&b[component_start(slot)..])
    } else {
        blank_component()
    }
}

// Another component in a slot, where there is one.
pub fn store_component(b: &mut [u8], slot: u8, component: Component)
    ensures { b.new ≡ with_component_bytes slot component b.old }
{
    if has_slot(b, slot) {
        let p = component_bytes(component);
        let at = component_start(slot);
        let end = at + COMPONENT_SIZE;
        words::copy(&mut b[at..end], &p);
    }
}
