// An offer (CFU 5.2), 16 bytes.
ghost use Rattle.std.specs.Prelude.{◌≡◌};
ghost use Rattle.wire_offer.specs.Offer.{allowed, flags_of, offer_bytes, told_built, build_of};

use wire::codes::SHORT_SIZE;
use wire::verdict::PacketRefusal;
use wire::version::Version;
use wire::words;

#[derive(Clone, Copy)]
pub struct OfferFields {
    // Byte 0.
    pub segment: u8,
    // Byte 1, bit 6: CFU's I.
    pub force_immediate_reset: bool,
    // Byte 1, bit 7: CFU's V.
    pub force_ignore_version: bool,
    // Byte 2.
    pub id: u8,
    // Byte 3.
    pub token: u8,
    // Bytes 4-7.
    pub version: Version,
    // Byte 8 (house): the needed component, 0 for none.
    pub need: u8,
    // Bytes 9-11 (house): its least version, a 24-bit number.
    pub least: u32,
    // Byte 12, bits 0-3.
    pub protocol: u8,
    // Bytes 14-15 (house).
    pub platform: u16,
}

// Not P2: an id up to 0xFD, a least version of 24 bits, a protocol of four.
fn is_allowed(o: OfferFields) -> bool
    ensures { result ≡ allowed o }
{
    (o.id <= 0xFD) & (o.least < 0x1000000) & (o.protocol < 16)
}

// Byte 1.
fn flags(force_immediate_reset: bool, force_ignore_version: bool) -> u8
    ensures { result ≡ flags_of force_immediate_reset force_ignore_version }
{
    u8::from(force_immediate_reset) * 0x40 + u8::from(force_ignore_version) * 0x80
}

#[tactic(auto, unfolding(crate::specs::Offer::offer_bytes))]
fn packet(o: OfferFields) -> [u8; SHORT_SIZE]
    ensures { result ≡ offer_bytes o }
{
    let f = flags(o.force_immediate_reset, o.force_ignore_version);
    let v = o.version.bytes();
    let l = words::bytes24(o.least);
    let p = words::bytes16(o.platform);
    [
        o.segment, f, o.id, o.token, v[0], v[1], v[2], v[3], o.need, l[0], l[1], l[2], o.protocol,
        0, p[0], p[1],
    ]
}

#[tactic(auto, unfolding(crate::specs::Offer::build_of))]
pub fn build_offer(o: OfferFields) -> Result<[u8; SHORT_SIZE], PacketRefusal>
    ensures { told_built result ≡ build_of o }
{
    if is_allowed(o) {
        Ok(packet(o))
    } else {
        Err(PacketRefusal::P2)
    }
}
