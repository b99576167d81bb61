// The component in a slot (document 01, "The device").
ghost use Rattle.std.specs.Prelude.{◌≡◌, set};
ghost use Rattle.device_component.specs.Lists.{component_at};

use device_component::record::{Component, blank_component};
use wire::codes::COMPONENT_LIMIT;

// The component in a slot; past the last slot there is none.
pub fn component_at(components: [Component; COMPONENT_LIMIT], slot: u8) -> Component
    ensures { result ≡ component_at components slot }
{
    let at = components.get(slot as usize).copied();
    at.unwrap_or(blank_component())
}

// The components with another one in a slot; past the last slot nothing changes. Not by `get_mut`: tried, and the goal after its loan has only names that no
// answer may cite.
pub fn with_component(
    mut components: [Component; COMPONENT_LIMIT],
    slot: u8,
    component: Component,
) -> [Component; COMPONENT_LIMIT]
    ensures { result ≡ set components slot component }
{
    let k = slot as usize;
    if k < COMPONENT_LIMIT {
        components[k] = component;
    }
    components
}
