// The host's steps from C (document 01, "The host", rows B, N and C). The record is lent bytes; where a row refuses, it stays as it is.
#![tactic(auto)]

ghost use Rattle.std.specs.Prelude.{◌≡◌, true, cond, length};
ghost use Rattle.wire.specs.Codes.{long_size};
ghost use Rattle.host_packet.specs.Answer.{row_of};
ghost use Rattle.host_packet.specs.Made.{told_inner};
ghost use Rattle.host.specs.Inner.{cursor_at};
ghost use Rattle.host_bytes.specs.Layout.{host_size, host_bytes, read_host, cursor_in, cursor_for, are_contents, is_kept};
ghost use Rattle.c_host.specs.Numbers.{step_number};
ghost use Rattle.c_host_step.specs.Step.{refused_by, answered_by, told_by, host_after, kept_after, told_step, step_call, inner_over, step_checked_call, step_checked_contents};

use c_types::lent::lent_number;
use c_types::numbers::{ROW_B, ROW_N, SERVED, WRONG_OUTPUT};
use c_types::types::CStep;
use host::inner::inner_step;
use host::step::{cursor_for, step};
use host_bytes::{
    HOST_SIZE, are_contents, checked_in, host_bytes, is_kept, keep, read_body, read_cursor,
    read_host,
};
use host_packet::answer::{Sent, StepRefusal, Stepped};
use host_record::fits::{Body, in_hand};
use host_record::record::{Host, HostStage};
use wire::codes::LONG_SIZE;
use wire::words;

// The number of the row that refuses a step.
fn step_number(refusal: StepRefusal) -> u32
    ensures { result ≡ step_number (row_of refusal) }
{
    let number = refusal.number() as u32;
    match refusal {
        StepRefusal::Bundle(_) => ROW_B as u32 + number,
        StepRefusal::N1 => ROW_N as u32 + number,
    }
}

// A call that a row of C refuses.
fn refused(number: u32) -> CStep
    ensures { result ≡ refused_by number }
{
    CStep {
        number,
        entry: 0,
        length: 0,
    }
}

// A step that a row refuses. The entry that a bundle's row names is told beside its number.
fn refused_step(refusal: StepRefusal) -> CStep
    ensures { result ≡ answered_by (Err refusal) }
{
    CStep {
        number: step_number(refusal),
        entry: refusal.entry() as u32,
        length: 0,
    }
}

// A step that is served: the next record is stored.
fn served_step(host: &mut [u8], sent: Sent, next: Host) -> CStep
    requires { length host.old ≡ host_size }
    ensures { (result ≡ answered_by (Ok sent)) × (host.new ≡ host_bytes next) }
{
    let b = host_bytes(next);
    words::copy(host, &b);
    CStep {
        number: SERVED,
        entry: 0,
        length: sent.size() as u32,
    }
}

pub fn cfu_host_step(host: &mut [u8], bundle: &[u8], reply: &[u8], packet: &mut [u8]) -> CStep
    ensures { told_step result host.new packet.new ≡ step_call host.old bundle.now reply.now packet.old }
{
    let number = lent_number(
        host.len() == HOST_SIZE,
        packet.len() == LONG_SIZE,
        WRONG_OUTPUT,
    );
    if number != SERVED {
        return refused(number);
    }
    let h = read_host(host);
    match step(h, bundle, reply) {
        Ok(a) => {
            words::copy(packet, &a.packet);
            served_step(host, a.sent, a.host)
        }
        Err(r) => {
            words::fill(packet, 0);
            refused_step(r)
        }
    }
}

// The cursor of a record: the one that is kept for it, or the one that a walk over the body in hand finds.
fn cursor_over(contents: &[u8], bundle: &[u8], hand: Body, stage: HostStage) -> usize
    ensures { result ≡ cond (is_kept contents.now stage) (cursor_in contents.now) (cursor_at bundle.now hand stage) }
{
    if is_kept(contents, stage) {
        read_cursor(contents)
    } else {
        cursor_for(bundle, hand, stage)
    }
}

// The inner step over the contents.
fn inner_over(
    host: &[u8],
    contents: &[u8],
    bundle: &[u8],
    reply: &[u8],
    packet: &mut [u8],
) -> Result<Stepped, StepRefusal>
    requires { (are_contents contents.now ≡ true) × (length packet.old ≡ long_size) }
    ensures { told_inner (read_host host.now) (cursor_for bundle.now contents.now (read_host host.now).stage) result packet.new ≡ inner_over host.now contents.now bundle.now reply.now }
{
    let h = read_host(host);
    let stage = h.stage;
    let hand = read_body(contents, in_hand(stage));
    let cursor = cursor_over(contents, bundle, hand, stage);
    let checked = checked_in(contents);
    inner_step(packet, checked, hand, cursor, h, bundle, reply)
}

// What the inner step answers; the next record, and the block with the cursor behind it, are stored where no row refuses.
fn kept(stepped: Result<Stepped, StepRefusal>, host: &mut [u8], contents: &mut [u8]) -> CStep
    requires { length host.old ≡ host_size }
    ensures { (result ≡ told_by stepped) × (host.new ≡ host_after stepped host.old) × (contents.new ≡ kept_after stepped contents.old) }
{
    match stepped {
        Ok(s) => {
            keep(contents, s.host.stage, s.cursor);
            served_step(host, s.sent, s.host)
        }
        Err(r) => refused_step(r),
    }
}

// The step over contents that the check left: the bundle is not checked again.
pub fn cfu_host_step_checked(
    host: &mut [u8],
    contents: &mut [u8],
    bundle: &[u8],
    reply: &[u8],
    packet: &mut [u8],
) -> CStep
    ensures { (told_step result host.new packet.new ≡ step_checked_call host.old contents.old bundle.now reply.now packet.old)
        × (contents.new ≡ step_checked_contents host.old contents.old bundle.now reply.now packet.old) }
{
    let fits = (host.len() == HOST_SIZE) & are_contents(contents);
    let number = lent_number(fits, packet.len() == LONG_SIZE, WRONG_OUTPUT);
    if number != SERVED {
        return refused(number);
    }
    let stepped = inner_over(host, contents, bundle, reply, packet);
    kept(stepped, host, contents)
}
