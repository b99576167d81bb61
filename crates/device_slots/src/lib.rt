// The slots for components: one of them, one by its id, and all of them.
#![tactic(auto)]

pub mod slot; // slot.rt: the component in a slot
pub mod standing; // standing.rt: a component by its id
pub mod all; // all.rt: the components as they are listed, reset, and in the version reply
