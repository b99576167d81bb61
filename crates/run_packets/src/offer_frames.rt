// The offer channel. To build an offer: segment, I, V (a byte each, 0 for no), id, token, version (4), need, least version (4), protocol,
// platform (2). An information or extended packet: code, token. A reply: token, reason, status.
use crate::line;
use run_print::fields::Fields;
use run_print::show::{Dotted, SpacedHex};
use std::io;
use std::io::Write;
use wire::codes::SHORT_SIZE;
use wire::verdict::told;
use wire_offer::kind::OfferPacket;
use wire_offer::offer::OfferFields;
use wire_offer::reply::OfferReply;
use wire_offer::signal::Signal;

fn fields(out: &mut impl Write, o: OfferFields) -> io::Result<()> {
    let OfferFields {
        segment,
        force_immediate_reset,
        force_ignore_version,
        id,
        token,
        version,
        need,
        least,
        protocol,
        platform,
    } = o;
    let immediate = force_immediate_reset as u8;
    let ignore = force_ignore_version as u8;
    let version = Dotted(version);
    write!(
        out,
        " segment {segment:02x} I {immediate} V {ignore} id {id:02x}"
    )?;
    write!(out, " token {token:02x} version {version} need {need:02x}")?;
    write!(
        out,
        " least {least:06x} protocol {protocol} platform {platform:04x}"
    )
}

pub fn build(out: &mut impl Write, p: &[u8]) -> io::Result<()> {
    let mut f = Fields(p);
    let o = OfferFields {
        segment: f.byte(),
        force_immediate_reset: f.byte() != 0,
        force_ignore_version: f.byte() != 0,
        id: f.byte(),
        token: f.byte(),
        version: f.version(),
        need: f.byte(),
        least: f.word32(),
        protocol: f.byte(),
        platform: f.word16(),
    };
    fields(out, o)?;
    let answer = wire_offer::offer::build_offer(o);
    let (_, packet) = told(answer, [0; SHORT_SIZE]);
    line::built(out, answer.err(), &packet)
}

fn signal(out: &mut impl Write, s: Signal) -> io::Result<()> {
    write!(out, " code {:02x} token {:02x}", s.code, s.token)
}

// An information or extended packet, by what builds it.
pub fn build_signal<F: FnOnce(Signal) -> [u8; SHORT_SIZE]>(
    out: &mut impl Write,
    p: &[u8],
    build: F,
) -> io::Result<()>
    requires { F.IsAlwaysCallable build }
{
    let mut f = Fields(p);
    let s = Signal {
        code: f.byte(),
        token: f.byte(),
    };
    signal(out, s)?;
    line::packet(out, build(s))
}

// A packet of the offer channel, of any kind.
pub fn read(out: &mut impl Write, p: &[u8]) -> io::Result<()> {
    write!(out, "{}", SpacedHex(p))?;
    line::gives(out, None)?;
    match wire_offer::kind::read_offer_packet(p) {
        Err(_) => write!(out, " refused P1"),
        Ok(OfferPacket::Offer(o)) => {
            write!(out, " offer")?;
            fields(out, o)
        }
        Ok(OfferPacket::Information(s)) => {
            write!(out, " information")?;
            signal(out, s)
        }
        Ok(OfferPacket::Extended(s)) => {
            write!(out, " extended")?;
            signal(out, s)
        }
    }
}

fn reply(out: &mut impl Write, r: OfferReply) -> io::Result<()> {
    let OfferReply {
        token,
        reason,
        status,
    } = r;
    write!(
        out,
        " token {token:02x} reason {reason:02x} status {status:02x}"
    )
}

pub fn build_reply(out: &mut impl Write, p: &[u8]) -> io::Result<()> {
    let mut f = Fields(p);
    let r = OfferReply {
        token: f.byte(),
        reason: f.byte(),
        status: f.byte(),
    };
    reply(out, r)?;
    line::packet(out, wire_offer::reply::build_offer_reply(r))
}

pub fn read_reply(out: &mut impl Write, p: &[u8]) -> io::Result<()> {
    write!(out, "{}", SpacedHex(p))?;
    let r = wire_offer::reply::read_offer_reply(p);
    line::gives(out, r.err())?;
    let (_, value) = told(r, OfferReply::default());
    reply(out, value)
}
