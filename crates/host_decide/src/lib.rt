// What the host decides on a reply (document 01, "The host"): N1, or what to send and the next record.
#![tactic(auto)]

ghost use Rattle.std.specs.Prelude.{◌≡◌};
ghost use Rattle.host_decide.specs.Decide.{decision_of};

use crate::decide::decide;
use host_record::fits::{breaks, last_in};
use host_record::record::{Host, Place};

pub mod decide; // decide.rt: what the host does on a reply

// What to send; no bundle bytes are needed to decide it.
#[derive(Clone, Copy)]
pub enum Action {
    Nothing,
    // With its code.
    Information(u8),
    Notify,
    // The offer of this entry.
    Offer(u32),
    Block(Place),
}

#[derive(Clone, Copy)]
pub struct Move {
    pub action: Action,
    pub host: Host,
}

// Over a bundle of n offers, where the body in hand has k records: the move; none where N1 refuses the record.
pub fn decision(n: u8, k: u32, h: Host, reply: &[u8]) -> Option<Move>
    ensures { result ≡ decision_of n k h reply.now }
{
    if breaks(n, k, h) {
        return None;
    }
    let last = last_in(k, h.stage);
    Some(decide(h, n as u32, last, reply))
}
