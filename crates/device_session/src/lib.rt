// The session of a device: its stage, what is owed, what a packet does to it, and row D1.
#![tactic(auto)]

pub mod stage; // stage.rt: idle, offered or receiving
pub mod effect; // effect.rt: the session, and what a packet does
pub mod sound; // sound.rt: row D1
