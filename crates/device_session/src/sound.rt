// Row D1 (document 01, "Numbered refusals"): what every entry of the device judges first.
ghost use Rattle.std.specs.Prelude.{◌≡◌};
ghost use Rattle.device_session.specs.Sound.{wrong_slot, wrong_previous, owes_on, breaks_d1};

use crate::effect::Session;
use crate::stage::Stage;
use device_component::list::some_unsound;
use device_component::record::Component;
use device_component::setup::{bad_count, staging_too_long};
use device_slots::slot::component_at;
use wire::codes::{COMPONENT_LIMIT, LONG_SIZE};
use wire_content::head::read_head;

// A ready-reply is owed while the session is idle.
pub fn owes_on(at: Option<u8>, owed: Option<u8>) -> bool
    ensures { result ≡ owes_on at owed }
{
    at.is_none() & owed.is_some()
}

// The slot that the session is open on is unlisted, or its component, which is this one, is pending.
pub fn wrong_slot(count: u8, component: Component, at: Option<u8>) -> bool
    ensures { result ≡ wrong_slot count component at }
{
    at.is_some_and(|k| (count <= k) | component.is_pending())
}

// Receiving, and the sequence of the previous packet is not just before the next one.
pub fn wrong_previous(stage: Stage, previous: [u8; LONG_SIZE]) -> bool
    ensures { result ≡ wrong_previous stage previous }
{
    match stage {
        Stage::Receiving(r) => read_head(&previous).sequence.wrapping_add(1) != r.next,
        _ => false,
    }
}

// D1: no entry serves a device with these components, a staging buffer of n bytes and this session.
pub fn breaks_d1(
    n: usize,
    count: u8,
    components: [Component; COMPONENT_LIMIT],
    session: Session,
) -> bool
    ensures { result ≡ breaks_d1 n count components session }
{
    let stage = session.stage;
    let owed = session.owed;
    let previous = session.previous;
    let slot = stage.open_slot();
    let component = component_at(components, slot.unwrap_or(0));
    (staging_too_long(n) | bad_count(count))
        | (wrong_slot(count, component, slot)
            | (wrong_previous(stage, previous)
                | (owes_on(slot, owed) | some_unsound(n, components, count))))
}
