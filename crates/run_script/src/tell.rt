// What is printed of an answer and of a record.
use device::answer::{Answer, Refusal, ready_reply};
use device::record::Device;
use device::version_reply::packet_of;
use device_bytes::{DEVICE_SIZE, SESSION_START, fields_in};
use device_component::record::{Component, Fixed};
use device_component::setup::SetupRow;
use device_session::effect::Replies;
use device_session_bytes::{NEXT_AT, OWED_AT, OWED_TOKEN_AT, SLOT_AT, TOKEN_AT};
use host_record::record::End;
use host_record::report::Report;
use run_print::show::{Dotted, Hex};
use std::io;
use std::io::Write;
use wire::codes;
use wire::codes::{LONG_SIZE, SHORT_SIZE};
use wire::words::{byte_at, word16_at};
use wire_version::REPLY_SIZE;

pub fn set_up(out: &mut impl Write, made: Result<Device, SetupRow>) -> io::Result<()> {
    match made {
        Ok(_) => writeln!(out, "set-up: served"),
        Err(row) => writeln!(out, "set-up: refused S{}", row.number()),
    }
}

pub fn reset(out: &mut impl Write, next: Result<Device, Refusal>) -> io::Result<()> {
    match next {
        Ok(_) => writeln!(out, "reset: served"),
        Err(refusal) => writeln!(out, "reset: refused D{}", refusal.number()),
    }
}

// Zeros where a row refuses the call.
pub fn version_reply(
    out: &mut impl Write,
    told: Result<[u8; REPLY_SIZE], Refusal>,
) -> io::Result<()> {
    write!(out, "version reply: ")?;
    if let Err(refusal) = told {
        write!(out, "refused D{}, ", refusal.number())?;
    }
    writeln!(out, "{}", Hex(&packet_of(told)))
}

// The READY that follows the reply, and the end of the line.
fn follows(out: &mut impl Write, ready: Option<u8>) -> io::Result<()> {
    match ready {
        None => writeln!(out),
        Some(t) => writeln!(out, ", then {}", Hex(&ready_reply(t))),
    }
}

// What a packet is answered by, to a device with this record; zeros where a row refuses it.
pub fn answer(out: &mut impl Write, d: Device, a: Result<Answer, Refusal>) -> io::Result<()> {
    let replies = d.replies_of(a);
    match a {
        Ok(_) if replies.due => write!(out, "reply {}", Hex(&replies.reply))?,
        Ok(_) => write!(out, "no reply")?,
        Err(refusal) => write!(
            out,
            "refused D{}, {}",
            refusal.number(),
            Hex(&replies.reply)
        )?,
    }
    follows(out, replies.ready)
}

// A packet of the host: its kind, and its code, id, or flags and sequence.
fn sent(out: &mut impl Write, p: &[u8]) -> io::Result<()> {
    let first = byte_at(p, 0);
    if p.len() != SHORT_SIZE {
        let sequence = word16_at(p, 2);
        return write!(out, "content flags {first:02x} sequence {sequence}");
    }
    match byte_at(p, 2) {
        codes::KIND_INFORMATION => write!(out, "information {first}"),
        codes::KIND_EXTENDED => write!(out, "extended {first}"),
        id => write!(out, "offer {id}"),
    }
}

// The reply to an offer, in the words of CFU.
fn offer_reply(out: &mut impl Write, r: [u8; SHORT_SIZE]) -> io::Result<()> {
    match r[12] {
        codes::OFFER_SKIP => writeln!(out, "SKIP"),
        codes::OFFER_ACCEPT => writeln!(out, "ACCEPT"),
        codes::OFFER_REJECT => writeln!(out, "REJECT {}", r[8]),
        codes::OFFER_BUSY => writeln!(out, "BUSY"),
        codes::OFFER_READY => writeln!(out, "READY"),
        _ => writeln!(out, "unsupported"),
    }
}

// A packet of the host, which arrives for the first time or again, and what the device answers.
pub fn exchange(
    out: &mut impl Write,
    p: &[u8],
    again: bool,
    a: Result<Replies, Refusal>,
) -> io::Result<()> {
    sent(out, p)?;
    write!(out, "{}", if again { ", again: " } else { ": " })?;
    match a {
        Ok(replies) if !replies.due => writeln!(out, "no reply"),
        Ok(replies) if p.len() == SHORT_SIZE => offer_reply(out, replies.reply),
        Ok(replies) => writeln!(out, "status {}", replies.reply[4]),
        Err(refusal) => writeln!(out, "refused D{}", refusal.number()),
    }
}

// The stage of a session and what is owed, from its bytes: a flag that no record has is not said.
fn session(out: &mut impl Write, b: &[u8]) -> io::Result<()> {
    let slot = byte_at(b, SLOT_AT);
    let token = byte_at(b, TOKEN_AT);
    let next = word16_at(b, NEXT_AT as u16);
    match byte_at(b, 0) {
        0 => write!(out, "idle")?,
        1 => write!(out, "offered slot {slot} token {token:02x}")?,
        2 => write!(out, "receiving slot {slot} token {token:02x} next {next}")?,
        _ => {}
    }
    match byte_at(b, OWED_AT) {
        0 => write!(out, ", owes nothing"),
        1 => write!(out, ", owes token {:02x}", byte_at(b, OWED_TOKEN_AT)),
        _ => Ok(()),
    }
}

// A component: its id, running version, region, its floor unless that is 0, and what is staged.
fn component(out: &mut impl Write, c: Component) -> io::Result<()> {
    let Component {
        fixed: Fixed { id, region, floor },
        running,
        staged,
    } = c;
    let base = region.base.number();
    write!(
        out,
        "; {id} at {} in {base}+{}",
        Dotted(running),
        region.len
    )?;
    if floor.number() != 0 {
        write!(out, ", floor {}", Dotted(floor))?;
    }
    match staged {
        None => Ok(()),
        Some(v) => write!(out, ", pending {}", Dotted(v)),
    }
}

// The bytes of a record: platform, staging, session, its previous packet unless that is blank, and as many components as it counts.
pub fn record(out: &mut impl Write, b: &[u8]) -> io::Result<()> {
    let n = b.len().min(DEVICE_SIZE);
    let mut bytes = [0; DEVICE_SIZE];
    bytes[..n].copy_from_slice(&b[..n]);
    let d = fields_in(&bytes);
    write!(out, "record: platform {:04x}", d.platform)?;
    write!(out, ", staging {}, ", d.staging_len)?;
    session(out, &bytes[SESSION_START..])?;
    let previous = d.session.previous;
    if previous != [0; LONG_SIZE] {
        write!(out, ", previous {}", Hex(&previous))?;
    }
    for c in d.components.iter().take(d.count as usize) {
        component(out, *c)?;
    }
    writeln!(out)
}

// How a host's session ended.
pub fn end(out: &mut impl Write, e: End) -> io::Result<()> {
    match e {
        End::Done => write!(out, "done"),
        End::Status(status) => write!(out, "H1 status {status}"),
        End::Foreign => write!(out, "H2"),
        End::Unexpected => write!(out, "H3"),
        End::Busy => write!(out, "H4"),
    }
}

// A host's report.
pub fn report(out: &mut impl Write, r: Report) -> io::Result<()> {
    match r.progress {
        None => write!(out, "running")?,
        Some(e) => end(out, e)?,
    }
    write!(out, ", packets {}, passes {}", r.packets, r.passes)?;
    writeln!(out, ", completed {}, mask {:02x}", r.completed, r.mask)
}

// What a run leaves: the record, and the bytes of the staging buffer.
pub fn left(out: &mut impl Write, device: &[u8], staging: &[u8]) -> io::Result<()> {
    record(out, device)?;
    writeln!(out, "staging {}", Hex(staging))
}
