// A component of the device, the rules on its versions, and the rules over the list of components.
#![tactic(auto)]

pub mod record; // record.rt: the component's record
pub mod rule; // rule.rt: the rules on one component and on two
pub mod list; // list.rt: the loops over the list, and a place in it
pub mod setup; // setup.rt: the verdict of set-up on a list
