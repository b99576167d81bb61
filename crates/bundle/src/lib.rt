// The bundle: its check, and what an accepted bundle contains.
#![tactic(auto)]

ghost use Rattle.std.specs.Prelude.{◌≡◌};
ghost use Rattle.bundle.specs.Contents.{told_checked, check_of};

use bundle_layout::blank::{no_entries, refused};
use bundle_layout::{BundleRefusal, BundleRow, Checked, head};

mod table; // table.rt: an entry of the table, rows B5 and B6
mod chain; // chain.rt: row B7, the bodies one after the other
mod contents; // contents.rt: row B8, and the contents table

// Rows B1 to B8, each over the whole bundle before the next.
#[tactic(auto, unfolding(crate::specs::Contents::check_of, bundle_layout::specs::Rows::bundle_row, wire::specs::Checks::first_of))]
pub fn check(b: &[u8]) -> Result<Checked, BundleRefusal>
    ensures { told_checked result ≡ check_of b.now }
{
    if head::bad_length(b) {
        return refused(BundleRow::B1, 0);
    }
    if head::bad_head(b) {
        return refused(BundleRow::B2, 0);
    }
    if head::bad_count(b) {
        return refused(BundleRow::B3, 0);
    }
    if head::cut_table(b) {
        return refused(BundleRow::B4, 0);
    }
    if let Some(offer) = table::bad_offer_place(b) {
        return refused(BundleRow::B5, offer);
    }
    if let Some(repeated) = table::repeated_place(b) {
        return refused(BundleRow::B6, repeated);
    }
    if let Some(gap) = chain::gap_place(b) {
        return refused(BundleRow::B7, gap);
    }
    let table = match contents::contents_of(b) {
        Ok(table) => table,
        Err(place) => return refused(BundleRow::B8, place),
    };
    Ok(Checked { count: b[0], table })
}

// The contents that an answer of the check stands for: of no offers where a row refuses.
pub fn contents_told(answer: Result<Checked, BundleRefusal>) -> Checked
    ensures count { result.count ≡ (told_checked answer).count }
    ensures table { result.table ≡ (told_checked answer).table }
{
    match answer {
        Ok(checked) => checked,
        Err(_) => Checked {
            count: 0,
            table: no_entries(),
        },
    }
}
