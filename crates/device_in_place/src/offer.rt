// The offer entry in place (document 01, "The device"): offers, information and extended packets.
ghost use Rattle.std.specs.Prelude.{◌≡◌, length, Ok};
ghost use Rattle.device.specs.Offer.{offer_entry};
ghost use Rattle.device_bytes.specs.Layout.{device_size, read_device, with_session_bytes};
ghost use Rattle.device_in_place.specs.InPlace.{outcome_of, offer_leaves};
ghost use Rattle.device_in_place.specs.Inside.{packet_by};

use crate::fields::standing_in;
use crate::sound::refusal_in;
use device::answer::Refusal;
use device_bytes::platform_in;
use device_bytes::session::{session_in, store_session};
use device_offering::packet;
use device_session::effect::Replies;
use wire::codes::SHORT_SIZE;
use wire::verdict::PacketRefusal;
use wire_offer::kind::{OfferPacket, read_offer_packet};

// A packet that no row refuses; none changes a component.
fn on_packet(bytes: &mut [u8], p: Result<OfferPacket, PacketRefusal>) -> Replies
    requires { length bytes.old ≡ device_size }
    ensures { (outcome_of (Ok result) (packet_by bytes.old p).device ≡ packet_by bytes.old p)
        × (bytes.new ≡ with_session_bytes (packet_by bytes.old p).device.session bytes.old) }
{
    let session = session_in(bytes);
    let target = standing_in(bytes, packet::id_of(p));
    let needed = standing_in(bytes, packet::need_of(p));
    let effect = packet::on_packet(platform_in(bytes), session, target, needed, p);
    let next = effect.session;
    store_session(bytes, next);
    effect.replies
}

// What the by-value entry answers, with its session left in the record; where a row refuses, the record's bytes stay.
pub fn offer_in_place(bytes: &mut [u8], staging: &[u8], report: &[u8]) -> Result<Replies, Refusal>
    ensures { (outcome_of result (offer_entry (read_device bytes.old) (length staging.now) report.now).device ≡ offer_entry (read_device bytes.old) (length staging.now) report.now)
        × (bytes.new ≡ offer_leaves bytes.old (offer_entry (read_device bytes.old) (length staging.now) report.now)) }
{
    refusal_in(bytes, SHORT_SIZE, staging.len(), report.len())?;
    Ok(on_packet(bytes, read_offer_packet(report)))
}
