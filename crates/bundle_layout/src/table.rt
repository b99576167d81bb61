// A table: whole entries, one after the other. It stands behind the head of a bundle, or alone in the list that a writer is given.
ghost use Rattle.std.specs.Prelude.{◌≡◌, [], ◌*◌, eqb, take, drop};
ghost use Rattle.wire.specs.Checks.{any};
ghost use Rattle.bundle_layout.specs.Layout.{entry_size, entries_from, id_in};
ghost use Rattle.bundle_layout.specs.Rows.{repeated, placed};

use crate::limits::ENTRY;
use wire::words::{byte_at, least};

// Where an entry has its offer's id.
const ID_AT: usize = 2;

// The bytes of entry i, counted from 0; of one that the table cuts off, the bytes that it has.
pub fn entry_at(table: &[u8], i: u8) -> &[u8]
    ensures { result.now ≡ take entry_size (drop (entry_size * i) table.now) }
{
    let at = least(ENTRY * (i as usize), table.len());
    let end = at + least(ENTRY, table.len() - at);
    &table[at..end]
}

// The id of entry i; 0 where the table ends before it.
fn id_at(table: &[u8], i: u8) -> u8
    ensures { result ≡ id_in (take entry_size (drop (entry_size * i) table.now)) }
{
    byte_at(table, ENTRY * (i as usize) + ID_AT)
}

// Has one of the first n entries this id?
fn is_used(table: &[u8], n: u8, id: u8) -> bool
    ensures { result ≡ any (λ e. eqb id (id_in e)) (entries_from n table.now) }
{
    for i in 0..n {
        if id == id_at(table, i) {
            return true;
        }
    }
    false
}

// The first of `count` entries whose id an earlier one has, counted from 1.
pub fn repeated_place(table: &[u8], count: u8) -> Option<u8>
    ensures { result ≡ placed (repeated [] 1 (entries_from count table.now)) }
{
    for i in 0..count {
        if is_used(table, i, id_at(table, i)) {
            return Some(i + 1);
        }
    }
    None
}
