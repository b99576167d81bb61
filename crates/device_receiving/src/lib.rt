// Content packets: what a device answers, its session, its components and its staging buffer afterwards.
#![tactic(auto)]

pub mod checks; // checks.rt: checks 1 to 5
pub mod block; // block.rt: erase and write
pub mod finish; // finish.rt: the end of a last block
pub mod content; // content.rt: the answer to a content packet
