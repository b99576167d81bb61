// The packets of the offer channel, 16 bytes each: offer, information, extended, and the reply to all three.
#![tactic(auto)]

pub mod offer; // offer.rt: an offer (CFU 5.2)
pub mod signal; // signal.rt: information (CFU 5.3) and extended (CFU 5.4)
pub mod kind; // kind.rt: the one reader, by byte 2
pub mod reply; // reply.rt: the reply
