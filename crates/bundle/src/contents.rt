// Row B8, and the contents table: one walk over each body.
ghost use Rattle.std.specs.Prelude.{IfOk, IfErr, ◌<◌, ◌≡◌, false, map, ◌++◌, ◌+◌, ◌-◌, ◌≤◌, length, take, drop, replicate};
ghost use Rattle.wire.specs.Codes.{id_limit, short_size};
ghost use Rattle.wire_offer.specs.Offer.{fields_in};
ghost use Rattle.bundle_records.specs.Parse.{records_of, blocks_of};
ghost use Rattle.bundle_layout.specs.Layout.{bundle_limit, offer_limit, entry_size, blank_entry, count_in, table_end, entries_in, offer_in, id_in, offset_in, length_in};
ghost use Rattle.bundle_layout.specs.Rows.{row_b5, row_b7, row_b8, bad_offer};
ghost use Rattle.bundle.specs.Contents.{entry_in};

use crate::table::entry_at;
use bundle_layout::Entry;
use bundle_layout::blank::{no_entries, no_offer};
use bundle_layout::limits::OFFER_LIMIT;
use bundle_layout::parts::{length_in, offset_in};
use bundle_records::walk::tally;
use wire::codes::SHORT_SIZE;
use wire_offer::kind::{OfferPacket, read_offer_packet};
use wire_offer::offer::OfferFields;

// The fields of an offer that row B5 allows, by the one reader of the offer channel.
fn offer_in(p: &[u8]) -> OfferFields
    requires { (length p.now ≡ short_size) × (id_in p.now ≤ id_limit) }
    ensures { result ≡ fields_in p.now }
{
    match read_offer_packet(p) {
        Err(_) => no_offer(),
        Ok(OfferPacket::Offer(o)) => o,
        Ok(OfferPacket::Information(_)) => no_offer(),
        Ok(OfferPacket::Extended(_)) => no_offer(),
    }
}

// How many records the body of `size` bytes at `offset` has, 0 where it is broken.
fn records_in(b: &[u8], offset: u32, size: u32) -> u32
    requires { (offset + size ≤ length b.now) × (length b.now ≤ bundle_limit) }
    ensures { result ≡ length (blocks_of (records_of (take size (drop offset b.now)))) }
{
    let at = offset as usize;
    let end = at + size as usize;
    match tally(b, at, end) {
        None => 0,
        Some(n) => n as u32,
    }
}

// An entry of the contents table, of an entry that rows B5 and B7 allow.
fn contents_in(b: &[u8], e: &[u8]) -> Entry
    requires e_len { (length e.now ≡ entry_size) × (bad_offer e.now ≡ false) }
    requires e_in_bounds { (offset_in e.now + length_in e.now ≤ length b.now) × (length b.now ≤ bundle_limit) }
    ensures { result ≡ entry_in b.now e.now }
{
    let offer = offer_in(&e[0..SHORT_SIZE]);
    let offset = offset_in(e);
    let size = length_in(e);
    let records = records_in(b, offset, size);
    Entry {
        offer,
        offset,
        length: size,
        records,
    }
}

// The contents table; or, by row B8, the first entry whose body is empty or broken, counted from 1.
pub(crate) fn contents_of(b: &[u8]) -> Result<[Entry; OFFER_LIMIT], u8>
    requires b_bound { (count_in b.now ≤ offer_limit) × (table_end (count_in b.now) ≤ length b.now) × (length b.now ≤ bundle_limit) }
    requires b_value { (row_b5 b.now ≡ 0) × (row_b7 b.now ≡ 0) }
    ensures place_value { IfErr result (λ place. (place ≡ row_b8 b.now) × (0 < place)) }
    ensures table_value { IfOk result (λ t. (row_b8 b.now ≡ 0) × (t ≡ map (entry_in b.now) (entries_in b.now) ++ replicate (offer_limit - count_in b.now) blank_entry)) }
{
    let count = b[0];
    let mut table = no_entries();
    for i in 0..count {
        let e = entry_at(b, i);
        let x = contents_in(b, e);
        if x.records == 0 {
            return Err(i + 1);
        }
        table[i as usize] = x;
    }
    Ok(table)
}
