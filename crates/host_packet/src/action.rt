// What an action sends, over the body in hand of a bundle that was checked once, and a cursor, the place of the record after the one in hand.
ghost use Rattle.std.specs.Prelude.{◌≡◌, ℕ};
ghost use Rattle.host_packet.specs.Made.{silent, lacking, record_start, laid_offer, laid_block, laid_of, written_of, laid_by};

use crate::answer::{Sent, Written};
use crate::packet;
use crate::packet::PACKET_SIZE;
use bundle_layout::limits::{ENTRY, HEAD};
use bundle_records::Next;
use bundle_records::walk::next_record;
use host_decide::Action;
use host_record::fits;
use host_record::fits::Body;
use host_record::record::Place;

// Nothing is sent.
fn silent(packet: &mut [u8; PACKET_SIZE], cursor: usize) -> Written
    ensures { laid_by cursor (Some result) packet.new ≡ silent cursor }
{
    *packet = [0; PACKET_SIZE];
    let sent = Sent::Nothing;
    Written { sent, cursor }
}

// The bundle lacks what is to be sent.
fn lacking(packet: &mut [u8; PACKET_SIZE]) -> Option<Written>
    ensures { (cursor : ℕ) → laid_by cursor result packet.new ≡ lacking cursor }
{
    *packet = [0; PACKET_SIZE];
    None
}

// The offer of an entry; none where the bytes do not have it.
fn written_offer(
    packet: &mut [u8; PACKET_SIZE],
    b: &[u8],
    cursor: usize,
    entry: u32,
    token: u8,
) -> Option<Written>
    ensures { laid_by cursor result packet.new ≡ laid_offer b.now cursor token entry }
{
    if (HEAD as u64) + (ENTRY as u64) * (entry as u64 + 1) <= b.len() as u64 {
        packet::offer(packet, b, entry, token);
        let sent = Sent::Offer;
        Some(Written { sent, cursor })
    } else {
        lacking(packet)
    }
}

// Where the record of block k starts: at the body's start, or at the cursor.
fn start_of(body: Body, cursor: usize, k: u32) -> usize
    ensures { result ≡ record_start body cursor k }
{
    if k == 0 { body.start } else { cursor }
}

// The block of the record that stands at its start; none where none stands there.
fn written_block(
    packet: &mut [u8; PACKET_SIZE],
    b: &[u8],
    body: Body,
    cursor: usize,
    p: Place,
) -> Option<Written>
    ensures { laid_by cursor result packet.new ≡ laid_block b.now body cursor p }
{
    let at = start_of(body, cursor, p.block);
    match next_record(b, at, body.end) {
        Next::End | Next::Bad => lacking(packet),
        Next::Record {
            address,
            start,
            size,
            next,
        } => {
            let last = fits::is_last(body.records, p);
            packet::block(packet, b, p.block, last, address, start, size);
            Some(Written {
                sent: Sent::Content,
                cursor: next,
            })
        }
    }
}

// What an action sends, in PACKET_SIZE bytes; none where the bundle lacks it.
fn written_in(
    packet: &mut [u8; PACKET_SIZE],
    b: &[u8],
    body: Body,
    cursor: usize,
    action: Action,
    token: u8,
) -> Option<Written>
    ensures { laid_by cursor result packet.new ≡ laid_of b.now body cursor token action }
{
    let sent = Sent::Offer;
    match action {
        Action::Nothing => Some(silent(packet, cursor)),
        Action::Information(code) => {
            packet::information(packet, code, token);
            Some(Written { sent, cursor })
        }
        Action::Notify => {
            packet::notify(packet, token);
            Some(Written { sent, cursor })
        }
        Action::Offer(entry) => written_offer(packet, b, cursor, entry, token),
        Action::Block(p) => written_block(packet, b, body, cursor, p),
    }
}

// What an action sends, written into lent bytes; none where the bundle lacks it. Where the bytes are not PACKET_SIZE, nothing is written and nothing sent.
#[tactic(auto, unfolding(crate::specs::Made::written_of))]
pub fn written(
    packet: &mut [u8],
    b: &[u8],
    body: Body,
    cursor: usize,
    action: Action,
    token: u8,
) -> Option<Written>
    ensures { laid_by cursor result packet.new ≡ written_of packet.old b.now body cursor token action }
{
    let packet = packet.as_mut_array()?;
    written_in(packet, b, body, cursor, action, token)
}
