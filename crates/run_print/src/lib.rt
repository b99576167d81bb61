// What the programs read scripts with, and how they print bytes and versions. Nothing here decides anything.
#![tactic(auto)]

pub mod script; // script.rt: the frames of a script
pub mod fields; // fields.rt: the fields of a payload
pub mod show; // show.rt: values as they are printed
