// The host's record as bytes of a fixed length; and what the check of a bundle answers, with the cursor and the block that it is kept for, as bytes.
#![tactic(auto)]

ghost use Rattle.std.specs.Prelude.{◌≡◌, cond, [], ◌∷◌, ◌++◌, eqb, length, get_or, take, ◌+◌, ◌≤◌};
ghost use Rattle.wire.specs.Bytes.{number, bytes_at};
ghost use Rattle.bundle_layout.specs.Rows.{row_of};
ghost use Rattle.bundle.specs.Contents.{told_checked};
ghost use Rattle.host_bytes.specs.Layout.{row_offset, entry_offset, count_at, length_offset, records_offset, body_part_size, bodies_start, hand_start, contents_size, flag_byte, host_bytes, are_flags, read_host, bodies_bytes, hand_bytes, no_place, contents_bytes, body_read, cursor_in, checked_by, checked_in, are_contents, is_kept, kept_in, refused_host};

use crate::put::{WORD_SIZE, put_words};
use crate::stage::{SENDING, passed_in, stage_in, stage_words};
use bundle_layout::blank::no_entries;
use bundle_layout::limits::OFFER_LIMIT;
use bundle_layout::{BundleRefusal, BundleRow, Checked, Entry, LAST_ROW, verdict_of};
use host_record::fits::Body;
use host_record::record::{Host, HostStage};
use wire::words;

mod put; // put.rt: words are stored from a place on
pub mod stage; // stage.rt: what the host awaits, and how a session ends

// Where the fields of a record stand, and its length.
pub const TOKEN_AT: usize = 0;

pub const STAGE_START: usize = TOKEN_AT + 1;

pub const FIRST_AT: u16 = STAGE_START as u16 + 1;

pub const SECOND_AT: u16 = FIRST_AT + WORD_SIZE;

pub const MASK_AT: u16 = SECOND_AT + WORD_SIZE;

pub const PACKETS_AT: u16 = MASK_AT + WORD_SIZE;

pub const PASSES_AT: u16 = PACKETS_AT + WORD_SIZE;

pub const SKIPPED_AT: usize = PASSES_AT as usize + WORD_SIZE as usize;

pub const LANDED_AT: usize = SKIPPED_AT + 1;

pub const PASSED_AT: usize = LANDED_AT + 1;

pub const HOST_SIZE: usize = PASSED_AT + 1;

// Where the parts of the contents stand: the number of the row that refuses the bundle, the entry that it names, the count, the bodies, the block that the
// cursor is kept for, the cursor; and their length.
const ROW_AT: usize = 0;

const ENTRY_AT: usize = ROW_AT + 1;

const COUNT_AT: usize = ENTRY_AT + 1;

const BODIES_START: u16 = COUNT_AT as u16 + 1;

const HAND_START: u16 = BODIES_START + OFFER_LIMIT as u16 * BODY_SIZE;

const BLOCK_AT: u16 = HAND_START + WORD_SIZE;

const CURSOR_START: u16 = BLOCK_AT + WORD_SIZE;

const CURSOR_HIGH_AT: u16 = CURSOR_START + WORD_SIZE;

pub const CONTENTS_SIZE: usize = CURSOR_HIGH_AT as usize + WORD_SIZE as usize;

// Where the length and the number of records of a body stand in its part, and the length of that part.
const LENGTH_IN: u16 = WORD_SIZE;

const RECORDS_IN: u16 = LENGTH_IN + WORD_SIZE;

const BODY_SIZE: u16 = RECORDS_IN + WORD_SIZE;

fn flag_byte(holds: bool) -> u8
    ensures { result ≡ flag_byte holds }
{
    holds as u8
}

pub fn host_bytes(h: Host) -> [u8; HOST_SIZE]
    ensures { result ≡ host_bytes h }
{
    let stage = h.stage;
    let s = stage_words(stage);
    let fields = [s.first, s.second, h.mask, h.packets, h.passes];
    let mut out = [0u8; HOST_SIZE];
    out[TOKEN_AT] = h.token;
    out[STAGE_START] = s.number;
    put_words(&mut out, FIRST_AT, &fields);
    out[SKIPPED_AT] = flag_byte(h.skipped);
    out[LANDED_AT] = flag_byte(h.landed);
    out[PASSED_AT] = flag_byte(passed_in(stage));
    out
}

// A record that N1 refuses over every bundle.
fn refused_host() -> Host
    ensures { result ≡ refused_host }
{
    Host {
        token: 0,
        stage: HostStage::Fresh,
        mask: 0,
        packets: 0xFFFFFFFF,
        passes: 0,
        skipped: false,
        landed: false,
    }
}

// Each flag is one that a record has: the stage, the number of an end, and the three booleans.
fn are_flags(stage: u8, end: u32, skipped: u8, landed: u8, passed: u8) -> bool
    ensures { result ≡ are_flags stage end skipped landed passed }
{
    (stage <= 7)
        & (((stage != 7) | (end <= 4)) & ((skipped <= 1) & ((landed <= 1) & (passed <= 1))))
}

// Bytes of another length, or with a flag that no record has, are read as a record that N1 refuses. What the stage has no use for is not looked at.
pub fn read_host(b: &[u8]) -> Host
    ensures { result ≡ read_host b.now }
{
    let number = words::byte_at(b, STAGE_START);
    let first = words::word32_at(b, FIRST_AT);
    let skipped = words::byte_at(b, SKIPPED_AT);
    let landed = words::byte_at(b, LANDED_AT);
    let passed = words::byte_at(b, PASSED_AT);
    if (b.len() == HOST_SIZE) & are_flags(number, first, skipped, landed, passed) {
        let stage = stage_in(number, first, words::word32_at(b, SECOND_AT), passed == 1);
        Host {
            token: words::byte_at(b, TOKEN_AT),
            stage,
            mask: words::word32_at(b, MASK_AT),
            packets: words::word32_at(b, PACKETS_AT),
            passes: words::word32_at(b, PASSES_AT),
            skipped: skipped == 1,
            landed: landed == 1,
        }
    } else {
        refused_host()
    }
}

// The bodies, one after the other, after the first three bytes.
fn with_bodies(mut out: [u8; CONTENTS_SIZE], table: [Entry; OFFER_LIMIT]) -> [u8; CONTENTS_SIZE]
    ensures { take hand_start result ≡ take bodies_start out ++ bodies_bytes table }
{
    for (i, entry) in table.iter().enumerate() {
        let body = [entry.offset, entry.length, entry.records];
        put_words(&mut out, BODIES_START + i as u16 * BODY_SIZE, &body);
    }
    out
}

// The number of a row, the entry that it names, the count and the bodies, with no block in hand and the cursor at 0.
fn laid(row: u8, place: u8, count: u8, table: [Entry; OFFER_LIMIT]) -> [u8; CONTENTS_SIZE]
    ensures { result ≡ row ∷ place ∷ [] ++ (count ∷ bodies_bytes table ++ hand_bytes no_place 0) }
{
    let mut out = [0u8; CONTENTS_SIZE];
    out[ROW_AT] = row;
    out[ENTRY_AT] = place;
    out[COUNT_AT] = count;
    let mut filled = with_bodies(out, table);
    store_hand(&mut filled, 0xFFFFFFFF, 0xFFFFFFFF, 0);
    filled
}

// What the check answers, with no block in hand and the cursor at 0.
pub fn contents_bytes(told: Result<Checked, BundleRefusal>) -> [u8; CONTENTS_SIZE]
    ensures { result ≡ contents_bytes (told_checked told) no_place 0 }
{
    match told {
        Ok(c) => laid(0, 0, c.count, c.table),
        Err(r) => laid(r.row.number(), r.place, 0, no_entries()),
    }
}

// The same with any row or none, any entry, count and bodies, as a check may not have left them. Where no row refuses, no entry is kept.
pub fn contents_laid(
    row: Option<BundleRow>,
    place: u8,
    count: u8,
    table: [Entry; OFFER_LIMIT],
) -> [u8; CONTENTS_SIZE]
    ensures { result ≡ contents_bytes (record { row = row_of row place; place = place; count = count; table = table }) no_place 0 }
{
    match row {
        None => laid(0, 0, count, table),
        Some(row) => laid(row.number(), place, count, table),
    }
}

// The row that the contents keep, the entry that it names, and the count of offers.
pub fn row_in(q: &[u8]) -> u8
    ensures { result ≡ get_or q.now row_offset 0 }
{
    words::byte_at(q, ROW_AT)
}

pub fn entry_in(q: &[u8]) -> u8
    ensures { result ≡ get_or q.now entry_offset 0 }
{
    words::byte_at(q, ENTRY_AT)
}

pub fn count_in(q: &[u8]) -> u8
    ensures { result ≡ get_or q.now count_at 0 }
{
    words::byte_at(q, COUNT_AT)
}

// What a row, an entry and a count say of the check of a bundle: how many offers it has, or its refusal. The entry counts only where a row refuses, and the count
// only where none does.
pub fn checked_by(row: Option<BundleRow>, place: u8, count: u8) -> Result<u8, BundleRefusal>
    ensures { result ≡ checked_by row place count }
{
    match row {
        None => Ok(count),
        Some(row) => Err(BundleRefusal { row, place }),
    }
}

// What contents keep of the check of a bundle; a number past the last row's is that of B8.
pub fn checked_in(q: &[u8]) -> Result<u8, BundleRefusal>
    ensures { result ≡ checked_in q.now }
{
    checked_by(verdict_of(row_in(q)), entry_in(q), count_in(q))
}

// Bytes that a check may have left.
pub fn are_contents(q: &[u8]) -> bool
    ensures { result ≡ are_contents q.now }
{
    let row = row_in(q);
    let count = count_in(q);
    (q.len() == CONTENTS_SIZE)
        & ((row <= LAST_ROW) & ((row != 0) | ((1 <= count) & (count as usize <= OFFER_LIMIT))))
}

// Where a body stands, and how many records it has, from its bytes.
fn body_from(q: &[u8], at: u16) -> Body
    requires { at + body_part_size ≤ contents_size }
    ensures { result ≡ record { start = number (bytes_at 4 at q.now); end = number (bytes_at 4 at q.now) + number (bytes_at 4 (at + length_offset) q.now); records = number (bytes_at 4 (at + records_offset) q.now) } }
{
    let offset = words::word32_at(q, at);
    let length = words::word32_at(q, at + LENGTH_IN);
    Body {
        start: offset as usize,
        end: (offset as u64) + (length as u64),
        records: words::word32_at(q, at + RECORDS_IN),
    }
}

// The body of an entry of the contents; past the most offers it is empty, and so in bytes of another length than contents have.
pub fn read_body(q: &[u8], i: u32) -> Body
    ensures { result ≡ body_read q.now i }
{
    if (q.len() == CONTENTS_SIZE) & ((i as usize) < OFFER_LIMIT) {
        body_from(q, BODIES_START + i as u16 * BODY_SIZE)
    } else {
        Body {
            start: 0,
            end: 0,
            records: 0,
        }
    }
}

// The cursor is kept for the block whose reply is awaited.
pub fn is_kept(q: &[u8], stage: HostStage) -> bool
    ensures { result ≡ is_kept q.now stage }
{
    let s = stage_words(stage);
    let entry = words::word32_at(q, HAND_START);
    let block = words::word32_at(q, BLOCK_AT);
    (s.number == SENDING) & ((entry == s.first) & (block == s.second))
}

// A cursor that was stored is a place in a bundle, so a usize of 32 bits holds it too.
pub fn read_cursor(q: &[u8]) -> usize
    ensures { result ≡ cursor_in q.now }
{
    let low = words::word32_at(q, CURSOR_START);
    let high = words::word32_at(q, CURSOR_HIGH_AT);
    ((low as u64) + 4294967296 * (high as u64)) as usize
}

// A block, and the cursor behind its record, are stored; bytes of another length than contents stay as they are.
fn store_hand(q: &mut [u8], entry: u32, block: u32, cursor: usize)
    ensures { q.new ≡ cond (eqb (length q.old) contents_size) (take hand_start q.old ++ hand_bytes (record { entry = entry; block = block }) cursor) q.old }
{
    if q.len() == CONTENTS_SIZE {
        let hand = [entry, block];
        put_words(q, HAND_START, &hand);
        let behind = words::bytes64(cursor);
        words::copy(&mut q[CURSOR_START as usize..CONTENTS_SIZE], &behind);
    }
}

// The block and the cursor are kept where that block's reply is awaited.
pub fn keep(q: &mut [u8], stage: HostStage, cursor: usize)
    ensures { q.new ≡ kept_in q.old stage cursor }
{
    let s = stage_words(stage);
    if s.number == SENDING {
        store_hand(q, s.first, s.second, cursor);
    }
}
