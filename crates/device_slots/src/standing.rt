// A component by its id: where it stands among those in use, and what it is.
ghost use Rattle.std.specs.Prelude.{◌≡◌};
ghost use Rattle.device_slots.specs.Standing.{standing_of};

use crate::slot::component_at;
use device_component::list::find;
use device_component::record::Component;
use wire::codes::COMPONENT_LIMIT;

#[derive(Clone, Copy)]
pub struct Standing {
    pub at: Option<u8>,
    // Of an id that none has, the component in slot 0.
    pub component: Component,
}

pub fn standing_of(components: [Component; COMPONENT_LIMIT], count: u8, id: u8) -> Standing
    ensures { result ≡ standing_of id count components }
{
    let at = find(components, count, id);
    let component = component_at(components, at.unwrap_or(0));
    Standing { at, component }
}
