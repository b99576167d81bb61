// The answers to information and extended packets (document 01, "The device").
ghost use Rattle.std.specs.Prelude.{◌≡◌};
ghost use Rattle.device_session.specs.Stage.{is_open};
ghost use Rattle.device_offering.specs.Signal.{plain_reply, on_information, on_notify, on_extended};

use device_session::effect::{Effect, Session};
use wire::codes;
use wire_offer::reply::{OfferReply, build_offer_reply};
use wire_offer::signal::Signal;

// One reply with this status, and no reason.
fn plain_reply(session: Session, token: u8, status: u8) -> Effect
    ensures { result ≡ plain_reply token status session }
{
    let reply = build_offer_reply(OfferReply {
        token,
        reason: 0,
        status,
    });
    session.answered(reply, None)
}

// Code 0 makes the session idle and drops an owed reply; codes 1 and 2 change nothing; others are unsupported.
pub fn on_information(session: Session, s: Signal) -> Effect
    ensures { result ≡ on_information session s }
{
    if s.code == codes::INFO_START_ENTIRE_TRANSACTION {
        let next = Session::idle();
        return plain_reply(next, s.token, codes::OFFER_ACCEPT);
    }
    if s.code <= codes::INFO_END_OFFER_LIST {
        return plain_reply(session, s.token, codes::OFFER_ACCEPT);
    }
    plain_reply(session, s.token, codes::OFFER_UNSUPPORTED)
}

// READY when idle; else it is owed, with no reply now; BUSY if one is owed already.
fn on_notify(session: Session, token: u8) -> Effect
    ensures { result ≡ on_notify session token (is_open session.stage) session.owed }
{
    let stage = session.stage;
    let owed = session.owed;
    if stage.is_open() {
        match owed {
            None => {
                let next = session.owing(Some(token));
                next.silent()
            }
            Some(_) => plain_reply(session, token, codes::OFFER_BUSY),
        }
    } else {
        plain_reply(session, token, codes::OFFER_READY)
    }
}

// Code 1 is notify on ready; others are unsupported.
pub fn on_extended(session: Session, s: Signal) -> Effect
    ensures { result ≡ on_extended session s }
{
    if s.code == codes::NOTIFY_ON_READY {
        on_notify(session, s.token)
    } else {
        plain_reply(session, s.token, codes::OFFER_UNSUPPORTED)
    }
}
