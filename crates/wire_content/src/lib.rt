// The packets of the content channel: content, 60 bytes, and its reply, 16 bytes.
#![tactic(auto)]

pub mod content; // content.rt: a block of an image (CFU 5.5)
pub mod head; // head.rt: all of it but the data
pub mod reply; // reply.rt: the reply
