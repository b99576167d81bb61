// A fresh host and a device in turn, over the contents of a bundle that was checked once, so that the work is linear in the packets.
ghost use Rattle.std.specs.Prelude.{◌≡◌, cond, []};
ghost use Rattle.std.specs.Result.{result_unwrap_or};
ghost use Rattle.wire.specs.Codes.{short_size};
ghost use Rattle.bundle_layout.specs.Rows as rows;
ghost use Rattle.bundle.specs.Contents.{told_checked, check_of};
ghost use Rattle.device_session.specs.Effect.{no_replies};
ghost use Rattle.host_record.specs.Record.{has_ended};
ghost use Rattle.host_packet.specs.Answer.{sent_by};
ghost use Rattle.update.specs.Run.{once, last_of};
ghost use Rattle.update.specs.Turn.{Comes, Delivered, Turned};

use bundle_layout::Checked;
use device::answer::{Answer, Refusal};
use device::record::Device;
use device_session::effect::Replies;
use host::inner::inner_step;
use host_packet::answer::{Sent, Stepped};
use host_packet::packet::PACKET_SIZE;
use host_record::fits::{Body, body_of, in_hand};
use host_record::record::{Host, HostStage};
use wire::codes::SHORT_SIZE;

// Both ends between two turns.
#[derive(Clone, Copy)]
pub struct BothEnds {
    pub host: Host,
    pub device: Device,
    // What the device sent last, on its way to the host.
    pub replies: Replies,
    // The place of the record after the one that the host has in hand.
    pub cursor: usize,
}

// The host has ended.
fn has_ended(stage: HostStage) -> bool
    ensures { result ≡ has_ended stage }
{
    matches!(stage, HostStage::Ended(_))
}

// How many bytes of the last reply the host receives: all where one was due, otherwise none.
fn heard(due: bool) -> usize
    ensures { result ≡ cond due short_size 0 }
{
    if due { SHORT_SIZE } else { 0 }
}

// Nothing is answered: the device stays, and no reply is on its way.
fn still(device: Device) -> Answer
    ensures { result ≡ record { replies = no_replies; device = device } }
{
    let replies = Replies::none();
    Answer { replies, device }
}

// What the device answers; where a row refuses, it stays, and no reply is on its way.
fn answered(device: Device, answer: Result<Answer, Refusal>) -> Answer
    ensures { result ≡ result_unwrap_or answer (record { replies = no_replies; device = device }) }
{
    match answer {
        Ok(answer) => answer,
        Err(_) => still(device),
    }
}

// What the host sent is answered; where it sent nothing, or a row refuses it, the device stays, and no reply is on its way.
fn deliver(sent: Sent, packet: &[u8; PACKET_SIZE], e: BothEnds, staging: &mut [u8]) -> Answer
    ensures { Delivered (sent_by sent packet.now) e staging.old result staging.new }
{
    let device = e.device;
    match sent {
        Sent::Nothing => still(device),
        Sent::Offer => answered(device, device.offer(staging, &packet[..SHORT_SIZE])),
        Sent::Content => answered(device, device.content(staging, packet)),
    }
}

// One turn: the host's step on the reply on its way, over an accepted bundle of `count` offers, and what it sends is answered. A refused step sends nothing, and
// leaves the record and the cursor.
fn turn(count: u8, hand: Body, bundle: &[u8], e: BothEnds, staging: &mut [u8]) -> BothEnds
    ensures { Turned bundle.now count hand e staging.old result staging.new }
{
    let reply = e.replies.reply;
    let n = heard(e.replies.due);
    let mut packet = [0u8; PACKET_SIZE];
    let s = inner_step(
        &mut packet,
        Ok(count),
        hand,
        e.cursor,
        e.host,
        bundle,
        &reply[..n],
    )
    .unwrap_or(Stepped {
        sent: Sent::Nothing,
        host: e.host,
        cursor: e.cursor,
    });
    let a = deliver(s.sent, &packet, e, staging);
    BothEnds {
        host: s.host,
        device: a.device,
        replies: a.replies,
        cursor: s.cursor,
    }
}

// Over an accepted bundle: turn by turn, until the host has ended.
pub(crate) fn run_to_end(
    checked: Checked,
    bundle: &[u8],
    token: u8,
    device: Device,
    staging: &mut [u8],
) -> BothEnds
    requires { (told_checked (Ok checked) ≡ check_of bundle.now) × (rows.bundle_row bundle.now ≡ rows.served) }
    ensures { Comes (last_of bundle.now once token device staging.old []) result staging.new }
{
    let host = Host::fresh(token);
    let replies = Replies::none();
    let table = checked.table;
    let mut e = BothEnds {
        host,
        device,
        replies,
        cursor: 0,
    };
    while !has_ended(e.host.stage) {
        let entry = table[in_hand(e.host.stage) as usize];
        e = turn(checked.count, body_of(entry), bundle, e, staging);
    }
    e
}
