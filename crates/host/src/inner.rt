// The inner step: over what the check answered for a bundle, the body in hand, and a cursor, the place of the record after the one in hand. Its packet is
// written into lent bytes.
ghost use Rattle.std.specs.Prelude.{◌≡◌, ℕ};
ghost use Rattle.host_record.specs.declared.record.Host as records;
ghost use Rattle.host_packet.specs.Answer.{row_of, refused_by};
ghost use Rattle.host_packet.specs.Made.{made_of, told_inner};
ghost use Rattle.host.specs.Inner.{inner_of, row_given, count_given, lent};

use bundle_layout::BundleRefusal;
use host_decide::{Move, decision};
use host_packet::action::written;
use host_packet::answer::{Sent, StepRefusal, Stepped};
use host_packet::packet::PACKET_SIZE;
use host_record::fits::Body;
use host_record::record::Host;

// A row refuses the step: the packet becomes zero.
fn refused(packet: &mut [u8; PACKET_SIZE], refusal: StepRefusal) -> Result<Stepped, StepRefusal>
    ensures { (h : records.Host) (cursor : ℕ) → told_inner h cursor result packet.new ≡ record { step = refused_by (row_of refusal) h; cursor = cursor } }
{
    *packet = [0; PACKET_SIZE];
    Err(refusal)
}

// What a move sends, and the next record; N1 where the bundle lacks what is to be sent.
fn moved(
    packet: &mut [u8; PACKET_SIZE],
    b: &[u8],
    hand: Body,
    cursor: usize,
    m: Move,
) -> Result<Stepped, StepRefusal>
    ensures { (h : records.Host) → told_inner h cursor result packet.new ≡ made_of b.now hand cursor h m.host m.action }
{
    let w = written(packet, b, hand, cursor, m.action, m.host.token).ok_or(StepRefusal::N1)?;
    Ok(Stepped {
        sent: w.sent,
        host: m.host,
        cursor: w.cursor,
    })
}

// The bundle's row, N1, or the move, in PACKET_SIZE bytes.
#[tactic(auto, unfolding(crate::specs::Inner::inner_of))]
fn inner_in(
    packet: &mut [u8; PACKET_SIZE],
    checked: Result<u8, BundleRefusal>,
    hand: Body,
    cursor: usize,
    h: Host,
    bundle: &[u8],
    reply: &[u8],
) -> Result<Stepped, StepRefusal>
    ensures { told_inner h cursor result packet.new ≡ inner_of bundle.now (row_given checked) (count_given checked) hand cursor h reply.now }
{
    let count = match checked {
        Ok(count) => count,
        Err(r) => return refused(packet, StepRefusal::Bundle(r)),
    };
    match decision(count, hand.records, h, reply) {
        None => refused(packet, StepRefusal::N1),
        Some(m) => moved(packet, bundle, hand, cursor, m),
    }
}

// The bundle's row, N1, or the move, over how many offers the bundle has, or its refusal; its packet is written into PACKET_SIZE lent bytes. Where another number
// is lent the row is the same, but nothing is written and nothing sent, and the record is kept.
pub fn inner_step(
    packet: &mut [u8],
    checked: Result<u8, BundleRefusal>,
    hand: Body,
    cursor: usize,
    h: Host,
    bundle: &[u8],
    reply: &[u8],
) -> Result<Stepped, StepRefusal>
    ensures { told_inner h cursor result packet.new ≡ lent packet.old h cursor (inner_of bundle.now (row_given checked) (count_given checked) hand cursor h reply.now) }
{
    if let Some(packet) = packet.as_mut_array() {
        return inner_in(packet, checked, hand, cursor, h, bundle, reply);
    }
    let mut own = [0u8; PACKET_SIZE];
    inner_in(&mut own, checked, hand, cursor, h, bundle, reply)?;
    Ok(Stepped {
        sent: Sent::Nothing,
        host: h,
        cursor,
    })
}
