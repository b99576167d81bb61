// The packets that are sent, each written into PACKET_SIZE lent bytes, zero past its end.
ghost use Rattle.std.specs.Prelude.{◌≡◌, ◌++◌, ◌+◌, ◌-◌, ◌≤◌, length, set, take, drop, replicate};
ghost use Rattle.wire.specs.Codes.{notify_on_ready, short_size, packet_data_size};
ghost use Rattle.wire_offer.specs.Signal.{information_bytes, extended_bytes};
ghost use Rattle.bundle_layout.specs.Layout.{table_end};
ghost use Rattle.host_packet.specs.Packet.{packet_size, flags_of, block_bytes};

use bundle_layout::limits::{ENTRY, HEAD};
use host_record::record::sequence;
use wire::address::RegionAddress;
use wire::codes::{DATA_AT, LONG_SIZE, SHORT_SIZE};
use wire::{codes, words};
use wire_content::content::head;
use wire_offer::signal::{Signal, build_extended, build_information};

// The bytes that are lent for a packet.
pub const PACKET_SIZE: usize = LONG_SIZE;

// A short packet at the start, and zeros after it.
fn lay(packet: &mut [u8; PACKET_SIZE], p: [u8; SHORT_SIZE])
    ensures { packet.new ≡ p ++ replicate (packet_size - short_size) 0 }
{
    words::copy(&mut packet[0..SHORT_SIZE], &p);
    words::fill(&mut packet[SHORT_SIZE..PACKET_SIZE], 0);
}

pub(crate) fn information(packet: &mut [u8; PACKET_SIZE], code: u8, token: u8)
    ensures { packet.new ≡ information_bytes (record { code = code; token = token }) ++ replicate (packet_size - short_size) 0 }
{
    let p = build_information(Signal { code, token });
    lay(packet, p);
}

pub(crate) fn notify(packet: &mut [u8; PACKET_SIZE], token: u8)
    ensures { packet.new ≡ extended_bytes (record { code = notify_on_ready; token = token }) ++ replicate (packet_size - short_size) 0 }
{
    let p = build_extended(Signal {
        code: codes::NOTIFY_ON_READY,
        token,
    });
    lay(packet, p);
}

// The offer of an entry: the table's with our token in byte 3.
pub(crate) fn offer(packet: &mut [u8; PACKET_SIZE], b: &[u8], entry: u32, token: u8)
    requires { table_end (entry + 1) ≤ length b.now }
    ensures { packet.new ≡ set (take short_size (drop (table_end entry) b.now)) 3 token ++ replicate (packet_size - short_size) 0 }
{
    let at = HEAD + ENTRY * (entry as usize);
    let end = at + SHORT_SIZE;
    let mut p = [0u8; SHORT_SIZE];
    words::copy(&mut p, &b[at..end]);
    p[3] = token;
    lay(packet, p);
}

// First and last flags as fit.
fn flags(first: bool, last: bool) -> u8
    ensures { result ≡ flags_of first last }
{
    if first {
        if last {
            codes::FLAG_FIRST_BLOCK + codes::FLAG_LAST_BLOCK
        } else {
            codes::FLAG_FIRST_BLOCK
        }
    } else {
        if last { codes::FLAG_LAST_BLOCK } else { 0 }
    }
}

// Block k of a body as content: the record's data, unused data as zero.
pub(crate) fn block(
    packet: &mut [u8; PACKET_SIZE],
    b: &[u8],
    k: u32,
    last: bool,
    address: RegionAddress,
    start: usize,
    size: u8,
)
    requires { (1 ≤ size) × (size ≤ packet_data_size) × (start + size ≤ length b.now) }
    ensures { packet.new ≡ block_bytes k last (record { address = address; bytes = take size (drop start b.now) }) }
{
    let n = size as usize;
    let end = start + n;
    let past = DATA_AT + n;
    let f = flags(k == 0, last);
    let s = sequence(k);
    let h = head(f, size, s, address);
    words::copy(&mut packet[0..DATA_AT], &h);
    words::copy(&mut packet[DATA_AT..past], &b[start..end]);
    words::fill(&mut packet[past..PACKET_SIZE], 0);
}
