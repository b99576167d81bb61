// The bundle of a list: its length and its bytes.
ghost use Rattle.std.specs.Prelude.{◌≡◌, false, ◌∷◌, ◌++◌, ◌+◌, ◌≤◌, length, replicate};
ghost use Rattle.wire.specs.Bytes.{bytes_of};
ghost use Rattle.image.specs.Region.{put};
ghost use Rattle.bundle_layout.specs.Layout.{bundle_limit, head_size, entry_size, offer_in};
ghost use Rattle.bundle_given.specs.declared.EntryRule.TheVariants.{Lent};
ghost use Rattle.bundle_given.specs.Entry.{bad_list};
ghost use Rattle.bundle_writer.specs.Bundle.{made_bundle};
ghost use Rattle.bundle_writer.specs.Rows.{first_breaking};
ghost use Rattle.bundle_writer.specs.Answer.{over};

use crate::body::{body_length, put_body};
use crate::list::{count_of, entry_of};
use crate::out::put_at;
use bundle_given::image_at;
use bundle_layout::head::table_end;
use wire::codes::SHORT_SIZE;
use wire::words::bytes32;

// How long the bundle of a list is: one walk over each image.
pub(crate) fn bundle_length(list: &[u8], images: &[u8]) -> usize
    requires { (bad_list list.now ≡ false) × (first_breaking Lent list.now images.now ≡ 0) }
    ensures { result ≡ length (made_bundle list.now images.now) }
{
    let count = count_of(list);
    let mut size = table_end(count);
    for i in 0..count {
        let e = entry_of(list, i);
        size += body_length(image_at(images, e));
    }
    size
}

// The head of a bundle goes to the start of the output.
fn put_head(out: &mut [u8], count: u8)
    requires { head_size ≤ length out.old }
    ensures { out.new ≡ put 0 (count ∷ 1 ∷ replicate 6 0) out.old }
{
    put_at(out, 0, &[count, 1, 0, 0, 0, 0, 0, 0]);
}

// An entry of the table goes into the output: the offer of an entry of the list, and where its body stands.
fn put_entry(out: &mut [u8], at: usize, e: &[u8], offset: u32, size: u32)
    requires { (length e.now ≡ entry_size) × (at + entry_size ≤ length out.old) }
    ensures { out.new ≡ put at (offer_in e.now ++ (bytes_of 4 offset ++ bytes_of 4 size)) out.old }
{
    put_at(out, at, &e[..SHORT_SIZE]);
    put_at(out, at + SHORT_SIZE, &bytes32(offset));
    put_at(out, at + 20, &bytes32(size));
}

// The bundle of a list goes to the start of the output: a second walk over each image.
pub(crate) fn put_bundle(out: &mut [u8], list: &[u8], images: &[u8])
    requires list_value { (bad_list list.now ≡ false) × (first_breaking Lent list.now images.now ≡ 0) }
    requires images_len_bound { (length (made_bundle list.now images.now) ≤ bundle_limit) × (length (made_bundle list.now images.now) ≤ length out.old) }
    ensures { out.new ≡ over (made_bundle list.now images.now) out.old }
{
    let count = count_of(list);
    put_head(out, count);
    let mut end = table_end(count);
    for i in 0..count {
        let e = entry_of(list, i);
        let next = put_body(out, end, image_at(images, e));
        put_entry(out, table_end(i), e, end as u32, (next - end) as u32);
        end = next;
    }
}
