// What the host decides on a reply (document 01, "The host"; document 02, A4): the table of rows by stage and reply, the ends H1 to H4, the replay rule, and
// the copy of a reply that is passed over. No byte of a bundle is looked at.
ghost use Rattle.std.specs.Prelude.{◌≡◌, ◌<◌};
ghost use Rattle.host_record.specs.Record.{with_bit};
ghost use Rattle.host_decide.specs.Decide as decided;
ghost use Rattle.host_table.specs.Table.{code_of, number_of};
ghost use Rattle.host_record.specs.Spare.{Spare, SpareIn, SpareCounts};

use crate::{Action, Move};
use host_record::fits::BUSY_LIMIT;
use host_record::record::{Awaited, End, Host, HostStage, Place, Turn, sequence};
use host_table::{Row, Step, code_for};
use wire::codes;
use wire_content::reply::{ContentReply, read_content_reply};
use wire_offer::reply::read_offer_reply;

// A packet is sent, and its reply awaited.
fn sends(h: Host, stage: HostStage, action: Action) -> Move
    requires { Spare h.packets }
    ensures { result ≡ decided.sends h stage action }
{
    Move {
        action,
        host: Host {
            stage,
            packets: h.packets + 1,
            ..h
        },
    }
}

// An end sends nothing.
fn ends(h: Host, e: End) -> Move
    ensures { result ≡ decided.ends h e }
{
    Move {
        action: Action::Nothing,
        host: Host {
            stage: HostStage::Ended(e),
            ..h
        },
    }
}

// Code 1 opens a pass.
fn list(h: Host) -> Move
    requires { SpareCounts h }
    ensures { result ≡ decided.list h }
{
    let opened = Host {
        passes: h.passes + 1,
        skipped: false,
        landed: false,
        ..h
    };
    sends(
        opened,
        HostStage::Listing,
        Action::Information(codes::INFO_START_OFFER_LIST),
    )
}

// The offer of an entry, or code 2 after the last.
fn offer_from(n: u32, entry: u32, h: Host) -> Move
    requires { Spare h.packets }
    ensures { result ≡ decided.offer_from n entry h }
{
    if entry < n {
        sends(
            h,
            HostStage::Offering(Turn { entry, busy: 0 }),
            Action::Offer(entry),
        )
    } else {
        sends(
            h,
            HostStage::Closing,
            Action::Information(codes::INFO_END_OFFER_LIST),
        )
    }
}

// A block is sent, and its reply awaited.
fn send_block(p: Place, h: Host) -> Move
    requires { Spare h.packets }
    ensures { result ≡ decided.send_block p h }
{
    let sent = Awaited {
        place: p,
        passed: false,
    };
    sends(h, HostStage::Sending(sent), Action::Block(p))
}

// A reply is passed over: nothing is sent, and nothing changes but the note that one was passed over.
fn pass_over(p: Place, h: Host) -> Move
    ensures { result ≡ decided.pass_over p h }
{
    let passed = Awaited {
        place: p,
        passed: true,
    };
    Move {
        action: Action::Nothing,
        host: Host {
            stage: HostStage::Sending(passed),
            ..h
        },
    }
}

// Whether this pass had a SKIP, this status included.
fn noted(h: Host, status: u8) -> Host
    ensures { result ≡ decided.noted h status }
{
    Host {
        skipped: h.skipped | (status == codes::OFFER_SKIP),
        ..h
    }
}

// The mask with bit i set.
fn with_bit(mask: u32, i: u32) -> u32
    requires { i < 32 }
    ensures { result ≡ with_bit mask i }
{
    mask | (1 << i)
}

// This pass had a completed image, and the entry's bit is set.
fn completes(h: Host, entry: u32) -> Host
    requires { entry < 32 }
    ensures { result ≡ decided.completes h entry }
{
    Host {
        mask: with_bit(h.mask, entry),
        landed: true,
        ..h
    }
}

// After code 2: another pass exactly when this one had a SKIP and a completed image and fewer passes than offers have run.
fn replays(n: u32, h: Host) -> bool
    ensures { result ≡ decided.replays n h }
{
    h.skipped & h.landed & (h.passes < n)
}

// What a step does, with the offer in hand and the status of its reply; where there is none, H3.
fn act(step: Option<Step>, n: u32, t: Turn, status: u8, h: Host) -> Move
    requires { SpareCounts h × Spare t.entry }
    ensures { result ≡ decided.act (code_of step) n t status h }
{
    match step {
        Some(Step::List) => list(h),
        Some(Step::Offer) => offer_from(n, 0, h),
        Some(Step::Send) => send_block(
            Place {
                entry: t.entry,
                block: 0,
            },
            h,
        ),
        Some(Step::NextOffer) => offer_from(n, t.entry + 1, noted(h, status)),
        Some(Step::Wait) => {
            if t.busy < BUSY_LIMIT {
                sends(
                    h,
                    HostStage::Waiting(Turn {
                        entry: t.entry,
                        busy: t.busy + 1,
                    }),
                    Action::Notify,
                )
            } else {
                ends(h, End::Busy)
            }
        }
        Some(Step::Same) => sends(h, HostStage::Offering(t), Action::Offer(t.entry)),
        Some(Step::Decide) => {
            if replays(n, h) {
                list(h)
            } else {
                ends(h, End::Done)
            }
        }
        None => ends(h, End::Unexpected),
    }
}

// On a reply of the offer kinds: H2 first, then the table.
#[tactic(auto, unfolding(crate::specs::Decide::hears, wire_offer::specs::Reply::read_reply_of))]
fn hears(row: Row, n: u32, t: Turn, h: Host, reply: &[u8]) -> Move
    requires { SpareCounts h × Spare t.entry }
    ensures { result ≡ decided.hears (number_of row) n t h reply.now }
{
    let Ok(answer) = read_offer_reply(reply) else {
        return ends(h, End::Foreign);
    };
    if answer.token != h.token {
        return ends(h, End::Foreign);
    }
    act(
        code_for(row.number(), answer.status),
        n,
        t,
        answer.status,
        h,
    )
}

// After a block is taken: the next one, or the offer is completed and the next offer is due.
fn goes_on(n: u32, last: bool, p: Place, h: Host) -> Move
    requires { SpareCounts h × (p.entry < 32) × Spare p.block }
    ensures { result ≡ decided.goes_on n last p h }
{
    if last {
        offer_from(n, p.entry + 1, completes(h, p.entry))
    } else {
        send_block(
            Place {
                entry: p.entry,
                block: p.block + 1,
            },
            h,
        )
    }
}

// The reply just taken, once more: the first such while the next block's is awaited.
fn repeats_taken(a: Awaited, r: ContentReply) -> bool
    ensures { result ≡ decided.repeats_taken a r }
{
    let block = a.place.block;
    if block == 0 {
        return false;
    }
    !a.passed & ((r.sequence == sequence(block - 1)) & (r.status == codes::SUCCESS))
}

// On a 16-byte reply to a block: the reply just taken once more, H2 by its sequence, H1.
fn hears_reply(n: u32, last: bool, a: Awaited, h: Host, r: ContentReply) -> Move
    requires { SpareCounts h × (a.place.entry < 32) × Spare a.place.block }
    ensures { result ≡ decided.hears_reply n last a h r }
{
    let p = a.place;
    if repeats_taken(a, r) {
        return pass_over(p, h);
    }
    if r.sequence != sequence(p.block) {
        return ends(h, End::Foreign);
    }
    if r.status == codes::SUCCESS {
        return goes_on(n, last, p, h);
    }
    ends(h, End::Status(r.status))
}

// On a reply to a block: H2 by its length first.
#[tactic(auto, unfolding(crate::specs::Decide::hears_block, wire_content::specs::Reply::read_reply_of))]
fn hears_block(n: u32, last: bool, a: Awaited, h: Host, reply: &[u8]) -> Move
    requires { SpareCounts h × (a.place.entry < 32) × Spare a.place.block }
    ensures { result ≡ decided.hears_block n last a h reply.now }
{
    let Ok(answer) = read_content_reply(reply) else {
        return ends(h, End::Foreign);
    };
    hears_reply(n, last, a, h, answer)
}

// What the host does, by its stage; a fresh host and an ended one await no reply.
pub(crate) fn decide(h: Host, n: u32, last: bool, reply: &[u8]) -> Move
    requires { SpareCounts h × SpareIn h.stage }
    ensures { result ≡ decided.decide_of n last h reply.now }
{
    let none = Turn { entry: 0, busy: 0 };
    match h.stage {
        HostStage::Fresh => sends(
            h,
            HostStage::Opening,
            Action::Information(codes::INFO_START_ENTIRE_TRANSACTION),
        ),
        HostStage::Opening => hears(Row::Opening, n, none, h, reply),
        HostStage::Listing => hears(Row::Listing, n, none, h, reply),
        HostStage::Offering(t) => hears(Row::Offering, n, t, h, reply),
        HostStage::Waiting(t) => hears(Row::Waiting, n, t, h, reply),
        HostStage::Sending(a) => hears_block(n, last, a, h, reply),
        HostStage::Closing => hears(Row::Closing, n, none, h, reply),
        HostStage::Ended(_) => Move {
            action: Action::Nothing,
            host: h,
        },
    }
}
