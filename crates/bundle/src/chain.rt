// Row B7: the bodies follow one another from the table's end to the file's end.
ghost use Rattle.std.specs.Prelude.{◌≡◌, ◌≤◌, length};
ghost use Rattle.bundle_layout.specs.Layout.{offer_limit, count_in, table_end};
ghost use Rattle.bundle_layout.specs.Rows.{placed, row_b7};

use crate::table::entry_at;
use bundle_layout::head::table_end;
use bundle_layout::parts::{length_in, offset_in};

// B7: the first entry whose body does not start where the table or the previous body ends; the last entry where the last end is not the file's.
pub(crate) fn gap_place(b: &[u8]) -> Option<u8>
    requires { (1 ≤ count_in b.now) × (count_in b.now ≤ offer_limit) × (table_end (count_in b.now) ≤ length b.now) }
    ensures { result ≡ placed (row_b7 b.now) }
{
    let count = b[0];
    let mut at = table_end(count) as u64;
    for i in 0..count {
        let e = entry_at(b, i);
        let offset = offset_in(e) as u64;
        if offset != at {
            return Some(i + 1);
        }
        at = offset + length_in(e) as u64;
    }
    if at == b.len() as u64 {
        None
    } else {
        Some(count)
    }
}
