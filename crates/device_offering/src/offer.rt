// The answer to an offer (document 01, "The device"): the reply of its verdict, and the session afterwards.
ghost use Rattle.std.specs.Prelude.{◌≡◌};
ghost use Rattle.device_offering.specs.Offer.{after_offer, on_offer_at};

use crate::checks::judge_offer;
use crate::verdict::OfferVerdict;
use device_session::effect::{Effect, Session};
use device_session::stage::{Offered, Stage};
use device_slots::standing::Standing;
use wire::codes::LONG_SIZE;
use wire_offer::offer::OfferFields;
use wire_offer::reply::{OfferReply, build_offer_reply};

// ACCEPT makes the session offered; any other verdict changes nothing.
fn after_offer(session: Session, token: u8, verdict: OfferVerdict) -> Session
    ensures { result ≡ after_offer session token verdict }
{
    match verdict {
        OfferVerdict::Accept(slot) => {
            session.in_stage(Stage::Offered(Offered { slot, token }), [0u8; LONG_SIZE])
        }
        _ => session,
    }
}

// An offer to a device of this platform, with the component that it is for and the one that it needs.
pub fn on_offer(
    platform: u16,
    session: Session,
    target: Standing,
    needed: Standing,
    o: OfferFields,
) -> Effect
    ensures { result ≡ on_offer_at platform session target needed o }
{
    let stage = session.stage;
    let verdict = judge_offer(platform, stage, target, needed, o);
    let reply = build_offer_reply(OfferReply {
        token: o.token,
        reason: verdict.reason(),
        status: verdict.status(),
    });
    let next = after_offer(session, o.token, verdict);
    next.answered(reply, None)
}
