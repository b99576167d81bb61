// The offer entry (document 01, "The device"): offers, information and extended packets.
ghost use Rattle.std.specs.Prelude.{◌≡◌, length};
ghost use Rattle.device_offering.specs.Packet.{on_packet};
ghost use Rattle.device.specs.Refusals.{answered, told, served_with};
ghost use Rattle.device.specs.Offer.{offer_entry};

use crate::answer::{Answer, Refusal};
use crate::record::Device;
use device_offering::packet;
use device_slots::standing::standing_of;
use wire::codes::SHORT_SIZE;
use wire::verdict::PacketRefusal;
use wire_offer::kind::{OfferPacket, read_offer_packet};

impl Device {
    // A packet that no row refuses; none changes a component.
    fn on_packet(self, p: Result<OfferPacket, PacketRefusal>) -> Answer
        ensures { answered result ≡ served_with self self.components (on_packet self.platform self.count self.components self.session p) }
    {
        let components = self.components;
        let session = self.session;
        let target = standing_of(components, self.count, packet::id_of(p));
        let needed = standing_of(components, self.count, packet::need_of(p));
        let effect = packet::on_packet(self.platform, session, target, needed, p);
        self.served(components, effect)
    }

    // D1 to D3, or the answer to an offer, an information or an extended packet.
    pub fn offer(self, staging: &[u8], report: &[u8]) -> Result<Answer, Refusal>
        ensures { told self result ≡ offer_entry self (length staging.now) report.now }
    {
        self.refusal(SHORT_SIZE, staging.len(), report.len())?;
        Ok(self.on_packet(read_offer_packet(report)))
    }
}
