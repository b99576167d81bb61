// The components in use, and the walks over them. The array and the count stay two parameters: the definitions that theorems name take them apart (`find`,
// `setup_verdict`, `standing_of`, `breaks_d1`).
ghost use Rattle.std.specs.Prelude.{◌≡◌, Bool, min, take};
ghost use Rattle.wire.specs.Codes.{component_limit};
ghost use Rattle.wire.specs.Checks.{pairs};
ghost use Rattle.device_component.specs.Lists.{find as find_in};
ghost use Rattle.device_component.specs.Rules.{unsound};
ghost use Rattle.device_component.specs.declared.record.Component.{Component};

use crate::record::Component;
use crate::rule::{clash, flawed};
use wire::codes::COMPONENT_LIMIT;
use wire::words::least;

// A count as far as there are slots.
pub fn within_slots(count: u8) -> u8
    ensures { result ≡ min count component_limit }
{
    least(count as usize, COMPONENT_LIMIT) as u8
}

// The components in use.
pub(crate) fn in_use(components: &[Component; COMPONENT_LIMIT], count: u8) -> &[Component]
    ensures { result.now ≡ take count components.now }
{
    &components[..within_slots(count) as usize]
}

// Does the test hold of some component and a later one?
pub(crate) fn some_two<F: Fn(Component, Component) -> bool>(listed: &[Component], test: F) -> bool
    ghost holds: { Component → Component → Bool }
    requires callable { F.IsAlwaysCallable test }
    requires answers { (c d : Component) (r : Bool) → F.post test c d r → r ≡ holds c d }
    ensures { result ≡ pairs holds listed.now }
{
    let mut rest = listed;
    while let Some((c, later)) = rest.split_first() {
        if later.iter().any(|d| test(*c, *d)) {
            return true;
        }
        rest = later;
    }
    false
}

// The slot of the component with this id.
pub fn find(components: [Component; COMPONENT_LIMIT], count: u8, id: u8) -> Option<u8>
    ensures { result ≡ find_in id count components }
{
    let listed = in_use(&components, count);
    listed
        .iter()
        .position(|c| id == c.fixed.id)
        .map(|k| k as u8)
}

// D1: some component is flawed, or two clash. One walk, up to the first of these.
pub fn some_unsound(n: usize, components: [Component; COMPONENT_LIMIT], count: u8) -> bool
    ensures { result ≡ unsound n (take count components) }
{
    let mut rest = in_use(&components, count);
    while let Some((c, later)) = rest.split_first() {
        if flawed(n, *c) || later.iter().any(|d| clash(*c, *d)) {
            return true;
        }
        rest = later;
    }
    false
}
