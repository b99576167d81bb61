// No offer, no entry, no contents.
ghost use Rattle.std.specs.Prelude.{◌≡◌, replicate};
ghost use Rattle.wire_offer.specs.Offer.{blank_offer};
ghost use Rattle.bundle_layout.specs.Layout.{offer_limit, blank_entry};

use crate::limits::OFFER_LIMIT;
use crate::{BundleRefusal, BundleRow, Checked, Entry};
use wire::version::Version;
use wire_offer::offer::OfferFields;

pub fn no_offer() -> OfferFields
    ensures { result ≡ blank_offer }
{
    OfferFields {
        segment: 0,
        force_immediate_reset: false,
        force_ignore_version: false,
        id: 0,
        token: 0,
        version: Version::new(0, 0, 0),
        need: 0,
        least: 0,
        protocol: 0,
        platform: 0,
    }
}

fn no_entry() -> Entry
    ensures { result ≡ blank_entry }
{
    let offer = no_offer();
    Entry {
        offer,
        offset: 0,
        length: 0,
        records: 0,
    }
}

pub fn no_entries() -> [Entry; OFFER_LIMIT]
    ensures { result ≡ replicate offer_limit blank_entry }
{
    let none = no_entry();
    [none; OFFER_LIMIT]
}

// A refusal: its row and entry.
pub fn refused(row: BundleRow, place: u8) -> Result<Checked, BundleRefusal>
    ensures { result ≡ Err (record { row = row; place = place }) }
{
    Err(BundleRefusal { row, place })
}
