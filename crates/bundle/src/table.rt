// The table behind the head: its entries, and rows B5 and B6.
ghost use Rattle.std.specs.Prelude.{◌≡◌, ◌+◌, ◌≤◌, length, take, drop};
ghost use Rattle.bundle_layout.specs.Layout.{offer_limit, entry_size, count_in, table_end};
ghost use Rattle.bundle_layout.specs.Rows.{placed, row_b5, row_b6};

use bundle_layout::head::table_end;
use bundle_layout::limits::{ENTRY, HEAD};
use bundle_layout::parts::bad_offer;
use bundle_layout::table;

// The bytes of entry i, counted from 0.
pub(crate) fn entry_at(b: &[u8], i: u8) -> &[u8]
    requires { table_end (i + 1) ≤ length b.now }
    ensures { (result.now ≡ take entry_size (drop (table_end i) b.now)) × (length result.now ≡ entry_size) }
{
    let at = table_end(i);
    let end = at + ENTRY;
    &b[at..end]
}

// B5: the first entry with a bad offer, counted from 1.
pub(crate) fn bad_offer_place(b: &[u8]) -> Option<u8>
    requires { (count_in b.now ≤ offer_limit) × (table_end (count_in b.now) ≤ length b.now) }
    ensures { result ≡ placed (row_b5 b.now) }
{
    let count = b[0];
    for i in 0..count {
        let e = entry_at(b, i);
        if bad_offer(e) {
            return Some(i + 1);
        }
    }
    None
}

// B6: the first entry whose id an earlier one has, counted from 1.
pub(crate) fn repeated_place(b: &[u8]) -> Option<u8>
    requires { (count_in b.now ≤ offer_limit) × (table_end (count_in b.now) ≤ length b.now) }
    ensures { result ≡ placed (row_b6 b.now) }
{
    table::repeated_place(&b[HEAD..], b[0])
}
