// The list that the writer is given: its entries, and the first that a row names.
ghost use Rattle.std.specs.Prelude.{◌≡◌, false, ◌+◌, ◌*◌, ◌≤◌, length, take, drop};
ghost use Rattle.bundle_layout.specs.Layout.{entry_size};
ghost use Rattle.bundle_layout.specs.Rows.{placed};
ghost use Rattle.bundle_given.specs.Given.{count_of};
ghost use Rattle.bundle_given.specs.Entry.{bad_list};
ghost use Rattle.bundle_writer.specs.Rows.{first_breaking, row_w3};

use bundle_given::{EntryRule, breaks_rule};
use bundle_layout::limits::ENTRY;
use bundle_layout::table;

// How many entries a list has that W1 allows.
pub(crate) fn count_of(list: &[u8]) -> u8
    requires { bad_list list.now ≡ false }
    ensures { result ≡ count_of list.now }
{
    (list.len() / ENTRY) as u8
}

// The bytes of entry i, counted from 0.
pub(crate) fn entry_of(list: &[u8], i: u8) -> &[u8]
    requires { entry_size * (i + 1) ≤ length list.now }
    ensures { (result.now ≡ take entry_size (drop (entry_size * i) list.now)) × (length result.now ≡ entry_size) }
{
    let at = ENTRY * (i as usize);
    let end = at + ENTRY;
    &list[at..end]
}

// The first entry that breaks a rule, counted from 1.
pub(crate) fn first_breaking(rule: EntryRule, list: &[u8], images: &[u8]) -> Option<u8>
    requires { bad_list list.now ≡ false }
    ensures { result ≡ placed (first_breaking rule list.now images.now) }
{
    let count = count_of(list);
    for i in 0..count {
        let e = entry_of(list, i);
        if breaks_rule(rule, images, e) {
            return Some(i + 1);
        }
    }
    None
}

// W3: the first entry whose id an earlier one has, counted from 1.
pub(crate) fn repeated_place(list: &[u8]) -> Option<u8>
    requires { bad_list list.now ≡ false }
    ensures { result ≡ placed (row_w3 list.now) }
{
    table::repeated_place(list, count_of(list))
}
