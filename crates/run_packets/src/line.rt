// What stands on a line behind what was asked: the refusal where there is one, and what came.
use run_print::show::SpacedHex;
use std::io;
use std::io::Write;
use wire::codes::SHORT_SIZE;
use wire::verdict::PacketRefusal;

// What stands before what came, with the refusal where there is one.
pub fn gives(out: &mut impl Write, refusal: Option<PacketRefusal>) -> io::Result<()> {
    match refusal {
        None => write!(out, " ->"),
        Some(PacketRefusal::P1) => write!(out, " -> refused P1,"),
        Some(PacketRefusal::P2) => write!(out, " -> refused P2,"),
    }
}

// What was built: the refusal where there is one, and the packet, which is zeros then.
pub fn built(
    out: &mut impl Write,
    refusal: Option<PacketRefusal>,
    packet: &[u8],
) -> io::Result<()> {
    gives(out, refusal)?;
    write!(out, "{}", SpacedHex(packet))
}

// A packet of 16 bytes that is always built.
pub fn packet(out: &mut impl Write, p: [u8; SHORT_SIZE]) -> io::Result<()> {
    built(out, None, &p)
}
