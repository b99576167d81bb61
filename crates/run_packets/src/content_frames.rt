// The content channel. To build content: flags, length, sequence (2), address (4), data (52). A reply: sequence (2), status.
use crate::line;
use run_print::fields::Fields;
use run_print::show::SpacedHex;
use std::io;
use std::io::Write;
use wire::address::RegionAddress;
use wire::codes::LONG_SIZE;
use wire::verdict::told;
use wire_content::content::ContentFields;
use wire_content::reply::ContentReply;

fn fields(out: &mut impl Write, c: ContentFields) -> io::Result<()> {
    let ContentFields {
        flags,
        length,
        sequence,
        address,
        data,
    } = c;
    write!(
        out,
        " flags {flags:02x} length {length} sequence {sequence:04x}"
    )?;
    write!(
        out,
        " address {:08x} data{}",
        address.number(),
        SpacedHex(&data)
    )
}

pub fn build(out: &mut impl Write, p: &[u8]) -> io::Result<()> {
    let mut f = Fields(p);
    let c = ContentFields {
        flags: f.byte(),
        length: f.byte(),
        sequence: f.word16(),
        address: RegionAddress::new(f.word32()),
        data: f.array(),
    };
    fields(out, c)?;
    let answer = wire_content::content::build_content(c);
    let (_, packet) = told(answer, [0; LONG_SIZE]);
    line::built(out, answer.err(), &packet)
}

pub fn read(out: &mut impl Write, p: &[u8]) -> io::Result<()> {
    write!(out, "{}", SpacedHex(p))?;
    let r = wire_content::content::read_content(p);
    line::gives(out, r.err())?;
    let (_, value) = told(r, ContentFields::default());
    fields(out, value)
}

fn reply(out: &mut impl Write, r: ContentReply) -> io::Result<()> {
    write!(out, " sequence {:04x} status {:02x}", r.sequence, r.status)
}

pub fn build_reply(out: &mut impl Write, p: &[u8]) -> io::Result<()> {
    let mut f = Fields(p);
    let r = ContentReply {
        sequence: f.word16(),
        status: f.byte(),
    };
    reply(out, r)?;
    line::packet(out, wire_content::reply::build_content_reply(r))
}

pub fn read_reply(out: &mut impl Write, p: &[u8]) -> io::Result<()> {
    write!(out, "{}", SpacedHex(p))?;
    let r = wire_content::reply::read_content_reply(p);
    line::gives(out, r.err())?;
    let (_, value) = told(r, ContentReply::default());
    reply(out, value)
}
