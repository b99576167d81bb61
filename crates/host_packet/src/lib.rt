// The packets that the host sends (document 01, "The host"), made of what it decided.
#![tactic(auto)]

pub mod answer; // answer.rt: what a step answers
pub mod packet; // packet.rt: the bytes of each packet
pub mod action; // action.rt: what an action sends
