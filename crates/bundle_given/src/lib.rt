// What the writer is given (document 02, A3): a list of offers, each with where its image stands, in the layout of a bundle's table; and what refuses the list, an
// entry or its image: rows W1, W2, W4, W5 and W6.
#![tactic(auto)]

ghost use Rattle.std.specs.Prelude.{◌≡◌};
ghost use Rattle.image.specs.Judge.{is_right};
ghost use Rattle.bundle_given.specs.Given.{image_at};
ghost use Rattle.bundle_given.specs.Entry.{bad_list, bad_lent, bears_offer, breaks};

use bundle_layout::limits::{ENTRY, OFFER_LIMIT};
use bundle_layout::parts::{bad_offer, id_in, length_in, offset_in};
use device_component::setup::{REGION_LEAST, STAGING_LIMIT};
use image::judge::{ImageFault, examine};
use wire::version::Version;
use wire::words::{byte_at, least};

// What refuses one entry or its image: rows W2, W4, W5 and W6.
#[derive(Clone, Copy)]
pub enum EntryRule {
    Offer,
    Lent,
    Crc,
    Bears,
}

// W1: the list is not 1 to 7 whole entries.
pub fn bad_list(list: &[u8]) -> bool
    ensures { result ≡ bad_list list.now }
{
    let count = list.len() / ENTRY;
    (list.len() % ENTRY != 0) | (count < 1) | (OFFER_LIMIT < count)
}

// The image of an entry; of one that is not wholly lent, the bytes that are.
pub fn image_at<'a>(images: &'a [u8], e: &[u8]) -> &'a [u8]
    ensures { result.now ≡ image_at images.now e.now }
{
    let start = least(offset_in(e) as usize, images.len());
    let end = start + least(length_in(e) as usize, images.len() - start);
    &images[start..end]
}

// W4 of an entry: image under 8 bytes, over S1's limit or not wholly lent.
fn bad_lent(size: usize, e: &[u8]) -> bool
    ensures { result ≡ bad_lent size e.now }
{
    let length = length_in(e);
    (length < REGION_LEAST)
        | (STAGING_LIMIT < length)
        | ((size as u64) < (offset_in(e) as u64) + (length as u64))
}

// The CRC of an image is right.
fn is_right(m: &[u8]) -> bool
    ensures { result ≡ is_right m.now }
{
    let i = examine(m, 0);
    match i {
        Err(ImageFault::Damaged) => false,
        Err(ImageFault::Foreign) => true,
        Ok(_) => true,
    }
}

// What W6 asks of an image and its entry: the image bears the offer's version and id.
fn bears_offer(m: &[u8], e: &[u8]) -> bool
    ensures { result ≡ bears_offer m.now e.now }
{
    let borne = Version::read_at(m, 0);
    let offered = Version::read_at(e, 4);
    (borne.number() == offered.number()) & (byte_at(m, 4) == id_in(e))
}

// An entry breaks a rule.
pub fn breaks_rule(rule: EntryRule, images: &[u8], e: &[u8]) -> bool
    ensures { result ≡ breaks rule images.now e.now }
{
    match rule {
        EntryRule::Offer => bad_offer(e),
        EntryRule::Lent => bad_lent(images.len(), e),
        EntryRule::Crc => !is_right(image_at(images, e)),
        EntryRule::Bears => !bears_offer(image_at(images, e), e),
    }
}
