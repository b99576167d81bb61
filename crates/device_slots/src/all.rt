// The components of all slots (document 01, "The device"): as they are listed, after a reset, and in the version reply.
ghost use Rattle.std.specs.Prelude.{◌≡◌, map};
ghost use Rattle.device_component.specs.Record.{listed};
ghost use Rattle.device_slots.specs.Slots.{reset_components, running_of};

use device_component::list::within_slots;
use device_component::record::{Component, Listed};
use wire::codes::COMPONENT_LIMIT;
use wire_version::Running;

// The components of a list, nothing staged.
pub fn components_of(list: [Listed; COMPONENT_LIMIT]) -> [Component; COMPONENT_LIMIT]
    ensures { result ≡ map listed list }
{
    list.map(Component::listed)
}

// The first `count` after a reset; the others stay.
pub fn reset_components(
    mut components: [Component; COMPONENT_LIMIT],
    count: u8,
) -> [Component; COMPONENT_LIMIT]
    ensures { result ≡ reset_components count components }
{
    for i in 0..within_slots(count) as usize {
        components[i] = components[i].after_reset();
    }
    components
}

// A component in the version reply: its running version, with the device's platform.
fn running(platform: u16, component: Component) -> Running
    ensures { result ≡ running_of platform component }
{
    let version = component.running;
    Running {
        version,
        id: component.fixed.id,
        platform,
    }
}

pub fn all_running(
    platform: u16,
    components: [Component; COMPONENT_LIMIT],
) -> [Running; COMPONENT_LIMIT]
    ensures { result ≡ map (running_of platform) components }
{
    components.map(|component| running(platform, component))
}
