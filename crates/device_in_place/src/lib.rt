// The device's entries for packets over the bytes of its record: judged where they stand, and changed where a packet changes them.
// The record's length is a `requires` of the private functions, and no array type: tried, and the proof did not close, since after
// `<&mut [u8; N]>::try_from(bytes)` nothing is known of what a write through the array leaves in `bytes`; with the type only where bytes are read, those that
// write would test the length again.
#![tactic(auto)]

pub mod sound; // sound.rt: rows D1 to D3, over the bytes
mod fields; // fields.rt: the components by slot and by id
pub mod content; // content.rt: the content entry
pub mod offer; // offer.rt: the offer entry
