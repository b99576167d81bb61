// The version reply. To build: count, protocol, and for each component version (4), id, platform (2), as C lends them.
use crate::line;
use c_version::{components_bytes, read_components};
use run_print::fields::Fields;
use run_print::show::{Dotted, SpacedHex};
use std::io;
use std::io::Write;
use wire::codes::COMPONENT_LIMIT;
use wire::verdict::told;
use wire_version::{REPLY_SIZE, VersionReply};

fn head(out: &mut impl Write, count: u8, protocol: u8) -> io::Result<()> {
    write!(out, " count {count} protocol {protocol}")
}

// The components, as C lends them. A platform of which only one byte is there is shown as 0.
fn components(out: &mut impl Write, lent: &[u8]) -> io::Result<()> {
    let mut fields = Fields(lent);
    for _ in 0..COMPONENT_LIMIT {
        let version = Dotted(fields.version());
        let id = fields.byte();
        let platform = u16::from_le_bytes(fields.array());
        write!(
            out,
            "; version {version} id {id:02x} platform {platform:04x}"
        )?;
    }
    Ok(())
}

pub fn build(out: &mut impl Write, p: &[u8]) -> io::Result<()> {
    let mut fields = Fields(p);
    let count = fields.byte();
    let protocol = fields.byte();
    head(out, count, protocol)?;
    components(out, fields.0)?;
    let r = VersionReply {
        count,
        protocol,
        components: read_components(fields.0),
    };
    let answer = wire_version::build_version_reply(r);
    let (_, packet) = told(answer, [0; REPLY_SIZE]);
    line::built(out, answer.err(), &packet)
}

pub fn read(out: &mut impl Write, p: &[u8]) -> io::Result<()> {
    write!(out, "{}", SpacedHex(p))?;
    let r = wire_version::read_version_reply(p);
    line::gives(out, r.err())?;
    let (_, reply) = told(r, VersionReply::default());
    head(out, reply.count, reply.protocol)?;
    components(out, &components_bytes(reply.components))
}
