// What an entry of the device answers.
ghost use Rattle.std.specs.Prelude.{◌≡◌};
ghost use Rattle.device.specs.Refusals.{number_of, number_told, ready_bytes, answered, told, served_with};

use crate::record::Device;
use device_component::record::Component;
use device_session::effect::{Effect, Replies};
use wire::codes;
use wire::codes::{COMPONENT_LIMIT, SHORT_SIZE};
use wire_offer::reply::{OfferReply, build_offer_reply};

// The rows that refuse a call.
#[derive(Clone, Copy, PartialEq, Eq)]
pub enum Refusal {
    D1 = 1,
    D2 = 2,
    D3 = 3,
}

// Of an offer or a content packet that no row refuses: what is sent, and the record afterwards.
#[derive(Clone, Copy)]
pub struct Answer {
    pub replies: Replies,
    pub device: Device,
}

// The READY that was owed, with its own token.
pub fn ready_reply(token: u8) -> [u8; SHORT_SIZE]
    ensures { result ≡ ready_bytes token }
{
    build_offer_reply(OfferReply {
        token,
        reason: 0,
        status: codes::OFFER_READY,
    })
}

// Which entry a packet is for.
#[derive(Clone, Copy)]
pub enum Channel {
    Offer,
    Content,
}

impl Refusal {
    // The number of the row.
    pub fn number(self) -> u8
        ensures { result ≡ number_of self }
    {
        self as u8
    }

    // The number of the row that an answer refuses by, or 0 where none does.
    pub fn number_told<T: Copy>(answer: Result<T, Refusal>) -> u8
        ensures { result ≡ number_told answer }
    {
        match answer {
            Ok(_) => 0,
            Err(refusal) => refusal.number(),
        }
    }
}

impl Device {
    // A served call: what the packet does, and the components afterwards.
    pub(crate) fn served(self, components: [Component; COMPONENT_LIMIT], effect: Effect) -> Answer
        ensures { answered result ≡ served_with self components effect }
    {
        let replies = effect.replies;
        let session = effect.session;
        let device = self.with_session(components, session);
        Answer { replies, device }
    }

    // The record after an offer or a content packet: as it was where a row refuses.
    pub fn after(self, answer: Result<Answer, Refusal>) -> Device
        ensures { result ≡ (told self answer).device }
    {
        answer.map_or(self, |a| a.device)
    }

    // What is sent after it: nothing, and a zeroed reply, where a row refuses.
    pub fn replies_of(self, answer: Result<Answer, Refusal>) -> Replies
        ensures { result ≡ (told self answer).replies }
    {
        answer.map_or(Replies::none(), |a| a.replies)
    }
}
