// What is printed of a device by the programs that run scripts, and the cases of a whole run.
#![tactic(auto)]

pub mod tell; // tell.rt: what is printed of an answer and of a record
pub mod case; // case.rt: a case of a whole run
