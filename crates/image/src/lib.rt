// A component's region in the staging buffer: its erase, a block written to it, and the image that it holds.
#![tactic(auto)]

pub mod region; // region.rt: where a region lies, erase and write
pub mod judge; // judge.rt: CRC, id and version of an image
