// Runs a script of frames (tests/packets/cases.py): every kind of packet, built and read, and the CRC.
// A line for each case says what was asked and what came, or the refusal with its zeroed packet or fields. Bytes, ids, tokens, codes and
// addresses are hexadecimal; counts, lengths, protocols and the parts of a version are decimal.
#![tactic(auto)]

use run_print::script::{Frame, run_script};
use run_print::show::SpacedHex;
use std::io;
use std::io::Write;
use wire_offer::signal::{build_extended, build_information};

mod line; // line.rt: what stands behind what was asked
mod version_frames; // version_frames.rt: the version reply
mod offer_frames; // offer_frames.rt: the offer channel
mod content_frames; // content_frames.rt: the content channel

fn crc(out: &mut impl Write, p: &[u8]) -> io::Result<()> {
    write!(out, "{} -> {:04x}", SpacedHex(p), crc16::crc16(p))
}

// A capital letter builds, from the packet's fields in wire order, numbers little-endian; a small one reads the packet's bytes.
fn run_frame(out: &mut impl Write, frame: Frame<'_>) -> io::Result<()> {
    let p = frame.payload;
    match frame.kind {
        b'V' => version_frames::build(out, p)?,
        b'v' => version_frames::read(out, p)?,
        b'O' => offer_frames::build(out, p)?,
        b'I' => offer_frames::build_signal(out, p, build_information)?,
        b'E' => offer_frames::build_signal(out, p, build_extended)?,
        b'o' => offer_frames::read(out, p)?,
        b'R' => offer_frames::build_reply(out, p)?,
        b'r' => offer_frames::read_reply(out, p)?,
        b'C' => content_frames::build(out, p)?,
        b'c' => content_frames::read(out, p)?,
        b'S' => content_frames::build_reply(out, p)?,
        b's' => content_frames::read_reply(out, p)?,
        b'x' => crc(out, p)?,
        _ => return Ok(()),
    }
    writeln!(out)
}

fn main(rt: HostRuntime) -> io::Result<()> {
    run_script(&rt, |out, frame| run_frame(out, frame))
}
