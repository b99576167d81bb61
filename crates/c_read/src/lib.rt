// Reading each packet from C (document 01, "Packets", rows P1 and P2).
#![tactic(auto)]

ghost use Rattle.std.specs.Prelude.{◌≡◌};
ghost use Rattle.wire_offer.specs.Kind.{told_read};
ghost use Rattle.c_read.specs.Read.{told_versions, read_version_reply_call, offer_of, signal_of, packet_of, read_offer_call, read_offer_reply_call, told_content, read_content_call, read_content_reply_call};

use c_types::numbers::{
    KIND_EXTENDED, KIND_INFORMATION, KIND_OFFER, WRONG_OUTPUT, packet_number, told,
};
use c_types::types::{
    CContent, CContentReply, COffer, COfferPacket, COfferReply, CSignal, CVersion, CVersionReply,
};
use c_version::{COMPONENTS_SIZE, components_bytes};
use wire::codes::DATA_SIZE;
use wire::verdict::PacketRefusal;
use wire_content::content::{ContentFields, read_content};
use wire_content::reply::{ContentReply, read_content_reply};
use wire_offer::kind::{OfferPacket, read_offer_packet};
use wire_offer::offer::OfferFields;
use wire_offer::reply::{OfferReply, read_offer_reply};
use wire_offer::signal::Signal;
use wire_version::{VersionReply, read_version_reply};

// The components are left in the lent bytes.
#[tactic(auto, unfolding(crate::specs::Read::read_version_reply_call))]
pub fn cfu_read_version_reply(packet: &[u8], components: &mut [u8]) -> CVersionReply
    ensures { told_versions result components.new ≡ read_version_reply_call packet.now components.old }
{
    if components.len() != COMPONENTS_SIZE {
        return CVersionReply {
            number: WRONG_OUTPUT,
            ..CVersionReply::default()
        };
    }
    let (number, reply) = told(read_version_reply(packet), VersionReply::default());
    components.copy_from_slice(&components_bytes(reply.components));
    CVersionReply {
        number,
        count: reply.count,
        protocol: reply.protocol,
    }
}

// The fields as C has them. No `From`: both types stand in crates below this one, where Rust takes no impl of a trait of std.
fn offer_fields(o: OfferFields) -> COffer
    ensures { result ≡ offer_of o }
{
    COffer {
        segment: o.segment,
        force_immediate_reset: u8::from(o.force_immediate_reset),
        force_ignore_version: u8::from(o.force_ignore_version),
        id: o.id,
        token: o.token,
        version: CVersion::from(o.version),
        need: o.need,
        least: o.least,
        protocol: o.protocol,
        platform: o.platform,
    }
}

fn signal_fields(s: Signal) -> CSignal
    ensures { result ≡ signal_of s }
{
    CSignal {
        code: s.code,
        token: s.token,
    }
}

fn packet_fields(read: Result<OfferPacket, PacketRefusal>) -> COfferPacket
    ensures { result ≡ packet_of (told_read read).row (told_read read).value }
{
    let none = COfferPacket::default();
    match read {
        Err(refusal) => COfferPacket {
            number: packet_number(refusal),
            ..none
        },
        Ok(OfferPacket::Offer(o)) => COfferPacket {
            kind: KIND_OFFER,
            offer: offer_fields(o),
            ..none
        },
        Ok(OfferPacket::Information(s)) => COfferPacket {
            kind: KIND_INFORMATION,
            signal: signal_fields(s),
            ..none
        },
        Ok(OfferPacket::Extended(s)) => COfferPacket {
            kind: KIND_EXTENDED,
            signal: signal_fields(s),
            ..none
        },
    }
}

#[tactic(auto, unfolding(crate::specs::Read::read_offer_call))]
pub fn cfu_read_offer(packet: &[u8]) -> COfferPacket
    ensures { result ≡ read_offer_call packet.now }
{
    let read = read_offer_packet(packet);
    packet_fields(read)
}

#[tactic(auto, unfolding(crate::specs::Read::read_offer_reply_call))]
pub fn cfu_read_offer_reply(packet: &[u8]) -> COfferReply
    ensures { result ≡ read_offer_reply_call packet.now }
{
    let (number, reply) = told(read_offer_reply(packet), OfferReply::default());
    COfferReply {
        number,
        token: reply.token,
        reason: reply.reason,
        status: reply.status,
    }
}

// The data is left in the lent bytes.
#[tactic(auto, unfolding(crate::specs::Read::read_content_call))]
pub fn cfu_read_content(packet: &[u8], bytes: &mut [u8]) -> CContent
    ensures { told_content result bytes.new ≡ read_content_call packet.now bytes.old }
{
    if bytes.len() != DATA_SIZE {
        return CContent {
            number: WRONG_OUTPUT,
            ..CContent::default()
        };
    }
    let (number, content) = told(read_content(packet), ContentFields::default());
    bytes.copy_from_slice(&content.data);
    CContent {
        number,
        flags: content.flags,
        length: content.length,
        sequence: content.sequence,
        address: content.address.number(),
    }
}

#[tactic(auto, unfolding(crate::specs::Read::read_content_reply_call))]
pub fn cfu_read_content_reply(packet: &[u8]) -> CContentReply
    ensures { result ≡ read_content_reply_call packet.now }
{
    let (number, reply) = told(read_content_reply(packet), ContentReply::default());
    CContentReply {
        number,
        sequence: reply.sequence,
        status: reply.status,
    }
}
