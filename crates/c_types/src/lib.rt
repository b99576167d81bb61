// What every call from C has in common: the structs and the numbers that cross, and what is left in a lent buffer (rows of documents 01 and 02, and rows C1 to C4).
#![tactic(auto)]

pub mod types; // types.rt: the structs of numbers that cross by value
pub mod numbers; // numbers.rt: the numbers of the rows
pub mod version; // version.rt: a version by its parts, and back
pub mod lent; // lent.rt: lent buffers that do not fit, and what is left in one
