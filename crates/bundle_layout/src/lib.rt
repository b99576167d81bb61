// The bundle's layout: its limits, its parts and their rows, and what the check answers (document 01, "The bundle" and "Numbered refusals").
#![tactic(auto)]

ghost use Rattle.std.specs.Prelude.{◌≡◌};
ghost use Rattle.bundle_layout.specs.Rows.{number_of, number_told, verdict_of};

use crate::limits::OFFER_LIMIT;
use wire_offer::offer::OfferFields;

pub mod limits; // limits.rt: the largest bundle, the most offers, the lengths of its parts
pub mod head; // head.rt: rows B1 to B4
pub mod parts; // parts.rt: the parts of an entry, row B5 of an entry
pub mod table; // table.rt: the entries of a table, and the first that repeats an id
pub mod blank; // blank.rt: no entry, and a refusal

// The row that refuses a bundle (document 01, "Numbered refusals").
#[derive(Clone, Copy)]
pub enum BundleRow {
    B1 = 1,
    B2,
    B3,
    B4,
    B5,
    B6,
    B7,
    B8,
}

// The number of the last row.
pub const LAST_ROW: u8 = 8;

// An offer of the bundle with its body.
#[derive(Clone, Copy)]
pub struct Entry {
    pub offer: OfferFields,
    // Where the body starts, and how long it is.
    pub offset: u32,
    pub length: u32,
    // How many records the body has.
    pub records: u32,
}

// What the check answers of a bundle that a row refuses: the row, with the entry that it names (from 1, or 0).
#[derive(Clone, Copy)]
pub struct BundleRefusal {
    pub row: BundleRow,
    pub place: u8,
}

// What the check answers of an accepted bundle: its contents.
#[derive(Clone, Copy)]
pub struct Checked {
    pub count: u8,
    pub table: [Entry; OFFER_LIMIT],
}

impl BundleRow {
    // The row's number.
    pub fn number(self) -> u8
        ensures { result ≡ number_of self }
    {
        self as u8
    }

    // The number of the row that an answer refuses by, or 0 where none does.
    pub fn number_told<T: Copy>(answer: Result<T, BundleRefusal>) -> u8
        ensures { result ≡ number_told answer }
    {
        match answer {
            Ok(_) => 0,
            Err(refusal) => refusal.row.number(),
        }
    }
}

// The row of a number: none for 0, and from the last row's on B8. A `From<u8>` would hide that, and a `TryFrom` would refuse what this function must answer.
pub fn verdict_of(number: u8) -> Option<BundleRow>
    ensures { result ≡ verdict_of number }
{
    match number {
        0 => None,
        1 => Some(BundleRow::B1),
        2 => Some(BundleRow::B2),
        3 => Some(BundleRow::B3),
        4 => Some(BundleRow::B4),
        5 => Some(BundleRow::B5),
        6 => Some(BundleRow::B6),
        7 => Some(BundleRow::B7),
        _ => Some(BundleRow::B8),
    }
}
