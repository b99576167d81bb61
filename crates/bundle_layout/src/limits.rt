// The limits of a bundle, and the lengths of its parts.

// The largest bundle, in bytes.
pub const BUNDLE_LIMIT: usize = 65536;

// The most offers.
pub const OFFER_LIMIT: usize = 7;

// The head, and an entry of the table.
pub const HEAD: usize = 8;

pub const ENTRY: usize = 24;
