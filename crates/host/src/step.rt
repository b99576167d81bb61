// A step of the host over a bundle (document 01, "The host" and rows B, N1): the bundle is judged, then the record, then the reply. It is the inner step,
// with the check made and the cursor found anew.
ghost use Rattle.std.specs.Prelude.{◌≡◌};
ghost use Rattle.host_packet.specs.Answer.{told};
ghost use Rattle.host.specs.Step.{step_of};
ghost use Rattle.host.specs.Inner.{place_after, cursor_at};

use crate::inner::inner_step;
use bundle::check;
use bundle_records::Next;
use bundle_records::walk::next_record;
use host_packet::answer::{StepAnswer, StepRefusal};
use host_packet::packet::PACKET_SIZE;
use host_record::fits::{Body, body_at, in_hand};
use host_record::record::{Host, HostStage};

// The place after the first `count` records that stand from `at` on; where there are fewer, the place after the last.
#[tactic(auto, using(crate::proofs::step::Laws::past_one), unfolding(crate::specs::Inner::place_after))]
fn place_after(b: &[u8], at: usize, end: u64, count: u64) -> usize
    ensures { result ≡ place_after b.now at end count }
{
    let mut place = at;
    for _passed in 0..count {
        let Next::Record { next, .. } = next_record(b, place, end) else {
            return place;
        };
        place = next;
    }
    place
}

// The cursor of a record, found by a walk over the body in hand.
pub fn cursor_for(b: &[u8], body: Body, stage: HostStage) -> usize
    ensures { result ≡ cursor_at b.now body stage }
{
    match stage {
        HostStage::Sending(a) => place_after(b, body.start, body.end, a.place.block as u64 + 1),
        _ => 0,
    }
}

// The bundle's rows, N1, the end, the reply.
pub fn step(host: Host, bundle: &[u8], reply: &[u8]) -> Result<StepAnswer, StepRefusal>
    ensures { told host result ≡ step_of bundle.now host reply.now }
{
    let c = check(bundle)?;
    let hand = body_at(c.table, in_hand(host.stage));
    let cursor = cursor_for(bundle, hand, host.stage);
    let mut packet = [0u8; PACKET_SIZE];
    let s = inner_step(&mut packet, Ok(c.count), hand, cursor, host, bundle, reply)?;
    Ok(StepAnswer {
        sent: s.sent,
        packet,
        host: s.host,
    })
}
