// Checks 1 to 5 of a content packet (document 01, "The device"; document 02, A4), over the session's stage and the region of its component.
ghost use Rattle.std.specs.Prelude.{◌≡◌};
ghost use Rattle.wire_content.specs.Head.{head_in};
ghost use Rattle.device_receiving.specs.Content.{is_first, is_last, is_copy, no_offer, bad_shape, bad_first, sent_again, bad_sequence, bad_address, content_verdict};

use device_session::stage::{SequenceVerdict, Stage};
use image::region::Region;
use wire::codes::LONG_SIZE;
use wire::{codes, words};
use wire_content::content::DATA_LIMIT;
use wire_content::head::ContentHead;

// The first check that applies.
#[derive(Clone, Copy)]
pub enum ContentVerdict {
    // With this status: nothing changes.
    Answer(u8),
    // A block for the component in this slot.
    Take(u8),
}

pub(crate) fn is_first(c: ContentHead) -> bool
    ensures { result ≡ is_first c }
{
    codes::FLAG_FIRST_BLOCK <= c.flags
}

pub(crate) fn is_last(c: ContentHead) -> bool
    ensures { result ≡ is_last c }
{
    c.flags / codes::FLAG_LAST_BLOCK % 2 == 1
}

// Check 1: idle.
fn no_offer(stage: Stage) -> bool
    ensures { result ≡ no_offer stage }
{
    !stage.is_open()
}

// Check 2: length 0 or over the limit, or a flag bit other than the two.
fn bad_shape(c: ContentHead) -> bool
    ensures { result ≡ bad_shape c }
{
    (c.length == 0) | (DATA_LIMIT < c.length) | (c.flags % codes::FLAG_LAST_BLOCK != 0)
}

// Check 3: offered without first, or receiving with first.
fn bad_first(stage: Stage, c: ContentHead) -> bool
    ensures { result ≡ bad_first stage c }
{
    let receiving = stage.is_receiving();
    let first = is_first(c);
    (!receiving & !first) | (receiving & first)
}

// A copy of the previous packet: the same 60 bytes, of a block that was neither first nor last. The comparison ends at the first byte that differs, for the
// next block at its sequence.
pub(crate) fn is_copy(previous: [u8; LONG_SIZE], report: &[u8], c: ContentHead) -> bool
    requires { c ≡ head_in report.now }
    ensures { result ≡ is_copy previous report.now }
{
    words::same(&previous, report) & !(is_first(c) | is_last(c))
}

// Check 4: receiving, and the block just taken is sent again.
fn sent_again(stage: Stage, copy: bool, c: ContentHead) -> bool
    ensures { result ≡ sent_again stage copy c }
{
    stage.sequence_verdict(copy, c.sequence) == SequenceVerdict::Again
}

// Check 4: receiving, and the sequence is wrong.
fn bad_sequence(stage: Stage, copy: bool, c: ContentHead) -> bool
    ensures { result ≡ bad_sequence stage copy c }
{
    stage.sequence_verdict(copy, c.sequence) == SequenceVerdict::Wrong
}

// Check 5: address and length past the region of the session's component.
fn bad_address(region: Region, c: ContentHead) -> bool
    ensures { result ≡ bad_address region c }
{
    let address = c.address;
    !region.holds(address, c.length as usize)
}

// Checks 1 to 5, and 6 where none applies, for a device whose session may write to this region; a copy is one of the session's previous packet.
pub fn judge_content(region: Region, stage: Stage, copy: bool, c: ContentHead) -> ContentVerdict
    ensures { result ≡ content_verdict region stage copy c }
{
    if no_offer(stage) {
        return ContentVerdict::Answer(codes::ERROR_NO_OFFER);
    }
    if bad_shape(c) {
        return ContentVerdict::Answer(codes::ERROR_INVALID);
    }
    if bad_first(stage, c) {
        return ContentVerdict::Answer(codes::ERROR_INVALID);
    }
    if sent_again(stage, copy, c) {
        return ContentVerdict::Answer(codes::SUCCESS);
    }
    if bad_sequence(stage, copy, c) {
        return ContentVerdict::Answer(codes::ERROR_INVALID);
    }
    if bad_address(region, c) {
        return ContentVerdict::Answer(codes::ERROR_INVALID_ADDR);
    }
    ContentVerdict::Take(stage.slot())
}
