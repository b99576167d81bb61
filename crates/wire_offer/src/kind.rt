// The one reader of the offer channel: byte 2 decides the kind of a packet.
ghost use Rattle.std.specs.Prelude.{◌≡◌, length};
ghost use Rattle.wire.specs.Codes.{short_size};
ghost use Rattle.wire_offer.specs.Offer.{fields_in};
ghost use Rattle.wire_offer.specs.Kind.{told_read, read_of};

use crate::offer::OfferFields;
use crate::signal::Signal;
use wire::codes::SHORT_SIZE;
use wire::verdict::PacketRefusal;
use wire::version::Version;
use wire::{codes, words};

#[derive(Clone, Copy)]
pub enum OfferPacket {
    Offer(OfferFields),
    Information(Signal),
    Extended(Signal),
}

#[tactic(auto, unfolding(crate::specs::Offer::fields_in))]
fn fields(p: &[u8]) -> OfferFields
    requires { length p.now ≡ short_size }
    ensures { result ≡ fields_in p.now }
{
    OfferFields {
        segment: p[0],
        force_immediate_reset: p[1] / 64 % 2 == 1,
        force_ignore_version: p[1] / 128 % 2 == 1,
        id: p[2],
        token: p[3],
        version: Version::read(p[4], p[5], p[6], p[7]),
        need: p[8],
        least: words::word24(p[9], p[10], p[11]),
        protocol: p[12] % 16,
        platform: words::word16(p[14], p[15]),
    }
}

// P1 where it has another length than a packet on the offer channel.
#[tactic(auto, unfolding(crate::specs::Kind::read_of, crate::specs::Kind::kind_in))]
pub fn read_offer_packet(p: &[u8]) -> Result<OfferPacket, PacketRefusal>
    ensures { told_read result ≡ read_of p.now }
{
    if p.len() != SHORT_SIZE {
        return Err(PacketRefusal::P1);
    }
    let signal = Signal {
        code: p[0],
        token: p[3],
    };
    Ok(match p[2] {
        codes::KIND_INFORMATION => OfferPacket::Information(signal),
        codes::KIND_EXTENDED => OfferPacket::Extended(signal),
        _ => OfferPacket::Offer(fields(p)),
    })
}
