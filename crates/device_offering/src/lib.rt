// Offers, information and extended packets: what a device answers, and its session afterwards.
#![tactic(auto)]

pub mod verdict; // verdict.rt: the verdict of the checks of an offer
pub mod checks; // checks.rt: checks 1 to 9
pub mod offer; // offer.rt: the answer to an offer
pub mod signal; // signal.rt: the answers to information and extended packets
pub mod packet; // packet.rt: the answer by kind
