// The answer to a content packet (document 01, "The device"; document 02, A4): checks 1 to 6, and then the READY that was owed.
ghost use Rattle.std.specs.Prelude.{◌≡◌};
ghost use Rattle.wire_content.specs.Head.{head_in};
ghost use Rattle.device_receiving.specs.Receive.{block_reply, packet_held, goes_on, on_block, written, on_content, staging_after};

use crate::block::take_block;
use crate::checks::{ContentVerdict, is_copy, is_last, judge_content};
use crate::finish::finish;
use device_component::record::Component;
use device_session::effect::{Effect, Session};
use device_session::stage::{Receiving, Stage};
use image::region::Region;
use wire::codes::{DATA_AT, LONG_SIZE};
use wire::{codes, words};
use wire_content::head::{ContentHead, read_head};
use wire_content::reply::{ContentReply, build_content_reply};

// What a content packet does, and the session's component afterwards.
#[derive(Clone, Copy)]
pub struct Taken {
    pub effect: Effect,
    pub component: Component,
}

// The reply to a block, and then the READY that was owed.
fn block_reply(session: Session, sequence: u16, status: u8, ready: Option<u8>) -> Effect
    ensures { result ≡ block_reply sequence status ready session }
{
    let reply = build_content_reply(ContentReply { sequence, status });
    session.answered(reply, ready)
}

// The packet that the session holds after a block: its 60 bytes.
fn packet_held(report: &[u8]) -> [u8; LONG_SIZE]
    ensures { result ≡ packet_held report.now }
{
    let mut packet = [0u8; LONG_SIZE];
    words::copy(&mut packet, report);
    packet
}

// After a block that is not the last: receiving, one sequence on, and the packet is held.
fn goes_on(session: Session, slot: u8, c: ContentHead, report: &[u8]) -> Session
    requires { c ≡ head_in report.now }
    ensures { result ≡ goes_on session slot report.now }
{
    let stage = session.stage;
    let token = stage.token();
    let next = std::num::wrapping_add_u16(c.sequence, 1);
    let packet = packet_held(report);
    session.in_stage(Stage::Receiving(Receiving { slot, token, next }), packet)
}

// A taken block, with the staging buffer after its write.
fn on_block(
    component: Component,
    session: Session,
    slot: u8,
    c: ContentHead,
    report: &[u8],
    staging: &[u8],
) -> Taken
    requires { c ≡ head_in report.now }
    ensures { result ≡ on_block component session slot report.now staging.now }
{
    if is_last(c) {
        let owed = session.owed;
        let finished = finish(component, staging);
        let next = finished.component;
        let idle = Session::idle();
        let effect = block_reply(idle, c.sequence, finished.status, owed);
        Taken {
            effect,
            component: next,
        }
    } else {
        let on = goes_on(session, slot, c, report);
        let effect = block_reply(on, c.sequence, codes::SUCCESS, None);
        Taken { effect, component }
    }
}

// The data of a taken block stand behind its head.
fn write_block(region: Region, c: ContentHead, report: &[u8], staging: &mut [u8])
    requires { c ≡ head_in report.now }
    ensures { staging.new ≡ written region report.now staging.old }
{
    let at = words::least(DATA_AT, report.len());
    take_block(region, c, &report[at..], staging);
}

// A content packet as it came, for a device whose session is on this component: by the verdict; an answer of checks 1 to 5 changes nothing. The staging buffer
// changes only where a block is taken.
pub fn on_report(component: Component, session: Session, report: &[u8], staging: &mut [u8]) -> Taken
    ensures { (result ≡ on_content component session report.now staging.old)
        × (staging.new ≡ staging_after component.fixed.region session report.now staging.old) }
{
    let c = read_head(report);
    let stage = session.stage;
    let previous = session.previous;
    let region = component.fixed.region;
    let copy = is_copy(previous, report, c);
    let verdict = judge_content(region, stage, copy, c);
    match verdict {
        ContentVerdict::Answer(status) => {
            let effect = block_reply(session, c.sequence, status, None);
            Taken { effect, component }
        }
        ContentVerdict::Take(slot) => {
            write_block(region, c, report, staging);
            on_block(component, session, slot, c, report, staging)
        }
    }
}
