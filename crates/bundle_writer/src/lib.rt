// The bundle's writer (document 02, A3): from up to seven offers and the images of their whole regions, a bundle that the check accepts, or the row that refuses
// it.
#![tactic(auto)]

ghost use Rattle.std.specs.Prelude.{◌≡◌};
ghost use Rattle.bundle_writer.specs.Answer.{told, make_of};

use crate::rows::WriteRow;
use bundle_given::{EntryRule, bad_list};
use bundle_layout::limits::BUNDLE_LIMIT;

pub mod rows; // rows.rt: the row that refuses, and its number
mod list; // list.rt: the entries of the list, and the first that a row names
mod out; // out.rt: bytes go into the output
mod body; // body.rt: the body of an image, its length and its bytes
mod made; // made.rt: the bundle, its length and its bytes

// What the writer answers where a row refuses: the row, with the entry that it names (from 1, or 0).
#[derive(Clone, Copy)]
pub struct WriteRefusal {
    pub row: WriteRow,
    pub place: u8,
}

// A refusal: its row and entry.
fn refused(row: WriteRow, place: u8) -> Result<u32, WriteRefusal>
    ensures { result ≡ Err (record { row = row; place = place }) }
{
    Err(WriteRefusal { row, place })
}

// Rows W1 to W8, each over the whole list before the next; or the bundle at the start of `out`, and its length. Nothing is written before the last row is known.
pub fn write(out: &mut [u8], list: &[u8], images: &[u8]) -> Result<u32, WriteRefusal>
    ensures { told result out.new ≡ make_of list.now images.now out.old }
{
    if bad_list(list) {
        return refused(WriteRow::W1, 0);
    }
    if let Some(offer) = list::first_breaking(EntryRule::Offer, list, images) {
        return refused(WriteRow::W2, offer);
    }
    if let Some(repeated) = list::repeated_place(list) {
        return refused(WriteRow::W3, repeated);
    }
    if let Some(lent) = list::first_breaking(EntryRule::Lent, list, images) {
        return refused(WriteRow::W4, lent);
    }
    if let Some(crc) = list::first_breaking(EntryRule::Crc, list, images) {
        return refused(WriteRow::W5, crc);
    }
    if let Some(bears) = list::first_breaking(EntryRule::Bears, list, images) {
        return refused(WriteRow::W6, bears);
    }
    let size = made::bundle_length(list, images);
    if BUNDLE_LIMIT < size {
        return refused(WriteRow::W7, 0);
    }
    if out.len() < size {
        return refused(WriteRow::W8, 0);
    }
    made::put_bundle(out, list, images);
    Ok(size as u32)
}
