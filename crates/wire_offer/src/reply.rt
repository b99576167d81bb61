// The reply to an offer, an information or an extended packet (CFU 5.2.2), 16 bytes.
ghost use Rattle.std.specs.Prelude.{◌≡◌};
ghost use Rattle.wire_offer.specs.Reply.{reply_bytes, told_reply, read_reply_of};

use wire::codes::SHORT_SIZE;
use wire::verdict::PacketRefusal;

#[derive(Clone, Copy, Default)]
pub struct OfferReply {
    // Byte 3.
    pub token: u8,
    // Byte 8.
    pub reason: u8,
    // Byte 12.
    pub status: u8,
}

// Any reason with any status: the device's own rule is that the reason is zero unless REJECT.
pub fn build_offer_reply(r: OfferReply) -> [u8; SHORT_SIZE]
    ensures { result ≡ reply_bytes r }
{
    [
        0, 0, 0, r.token, 0, 0, 0, 0, r.reason, 0, 0, 0, r.status, 0, 0, 0,
    ]
}

#[tactic(auto, unfolding(crate::specs::Reply::read_reply_of))]
pub fn read_offer_reply(p: &[u8]) -> Result<OfferReply, PacketRefusal>
    ensures { told_reply result ≡ read_reply_of p.now }
{
    if p.len() != SHORT_SIZE {
        return Err(PacketRefusal::P1);
    }
    Ok(OfferReply {
        token: p[3],
        reason: p[8],
        status: p[12],
    })
}
