// The answer to a packet of the offer channel, by its kind (document 01, "Packets": byte 2 decides it).
ghost use Rattle.std.specs.Prelude.{◌≡◌};
ghost use Rattle.device_offering.specs.Packet.{id_of, need_of, on_packet_at};

use crate::offer::on_offer;
use crate::signal::{on_extended, on_information};
use device_session::effect::{Effect, Session};
use device_slots::standing::Standing;
use wire::verdict::PacketRefusal;
use wire_offer::kind::OfferPacket;

// The id of the component that a packet is for; 0, which none has, where it is no offer.
pub fn id_of(p: Result<OfferPacket, PacketRefusal>) -> u8
    ensures { result ≡ id_of p }
{
    match p {
        Ok(OfferPacket::Offer(o)) => o.id,
        _ => 0,
    }
}

// The id of the component that it needs, or 0.
pub fn need_of(p: Result<OfferPacket, PacketRefusal>) -> u8
    ensures { result ≡ need_of p }
{
    match p {
        Ok(OfferPacket::Offer(o)) => o.need,
        _ => 0,
    }
}

// A packet to a device of this platform, with the component that it is for and the one that it needs.
pub fn on_packet(
    platform: u16,
    session: Session,
    target: Standing,
    needed: Standing,
    p: Result<OfferPacket, PacketRefusal>,
) -> Effect
    ensures { result ≡ on_packet_at platform session target needed p }
{
    match p {
        Err(_) => session.silent(),
        Ok(OfferPacket::Offer(o)) => on_offer(platform, session, target, needed, o),
        Ok(OfferPacket::Information(s)) => on_information(session, s),
        Ok(OfferPacket::Extended(s)) => on_extended(session, s),
    }
}
