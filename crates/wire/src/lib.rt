// What every packet is made of: words in bytes, versions, region addresses, CFU's codes, and why a build or a read is refused.
#![tactic(auto)]

pub mod words; // words.rt: numbers in bytes, a copy, a fill, a comparison
pub mod version; // version.rt: a version and its three parts
pub mod address; // address.rt: an address inside a region
pub mod codes; // codes.rt: every code, status and reason, by CFU's names
pub mod verdict; // verdict.rt: the rows that refuse a packet
