// The host end: its step over a bundle, and the inner step over what the check answered for a bundle.
#![tactic(auto)]

pub mod inner; // inner.rt: the step over what the check answered for a bundle, and a cursor
pub mod step; // step.rt: the step over a bundle, and the cursor of a record
