// Building each packet from C (document 01, "Packets", row P2).
#![tactic(auto)]

ghost use Rattle.std.specs.Prelude.{◌≡◌, cond, replicate};
ghost use Rattle.wire.specs.Rows.{row_p, told};
ghost use Rattle.wire.specs.Codes.{short_size};
ghost use Rattle.wire_offer.specs.Offer.{told_built, build_of};
ghost use Rattle.c_types.specs.Lent.{leaves};
ghost use Rattle.c_build.specs.Build.{built, build_version_reply_call, fields_of, flags_fit, build_offer_call, build_information_call, build_extended_call, build_offer_reply_call, build_content_call, build_content_reply_call};

use c_types::lent::leave;
use c_types::numbers::{SERVED, WRONG_LIST, told};
use c_types::types::COffer;
use c_version::{COMPONENTS_SIZE, read_components};
use wire::address::RegionAddress;
use wire::codes::{DATA_SIZE, SHORT_SIZE};
use wire::verdict::PacketRefusal;
use wire::version::Version;
use wire_content::content::{ContentFields, build_content};
use wire_content::reply::{ContentReply, build_content_reply};
use wire_offer::offer::{OfferFields, build_offer};
use wire_offer::reply::{OfferReply, build_offer_reply};
use wire_offer::signal::{Signal, build_extended, build_information};
use wire_version::{VersionReply, build_version_reply};

// The fields of an offer. No `From`: both types stand in crates below this one, where Rust takes no impl of a trait of std.
fn fields(o: COffer) -> OfferFields
    ensures { result ≡ fields_of o }
{
    OfferFields {
        segment: o.segment,
        force_immediate_reset: o.force_immediate_reset == 1,
        force_ignore_version: o.force_ignore_version == 1,
        id: o.id,
        token: o.token,
        version: Version::from(o.version),
        need: o.need,
        least: o.least,
        protocol: o.protocol,
        platform: o.platform,
    }
}

// P2 where a flag does not fit its bit, or what building the offer tells.
fn built_offer(o: COffer) -> Result<[u8; SHORT_SIZE], PacketRefusal>
    ensures { told_built result ≡ cond (flags_fit o) (build_of (fields_of o)) (record { row = row_p 2; value = replicate short_size 0 }) }
{
    if (o.force_immediate_reset <= 1) & (o.force_ignore_version <= 1) {
        build_offer(fields(o))
    } else {
        Err(PacketRefusal::P2)
    }
}

// What a build answers, left in the lent bytes: the packet, or zeros where a row refuses.
fn leave_built<const N: usize>(packet: &mut [u8], answer: Result<[u8; N], PacketRefusal>) -> u32
    ensures { leaves result packet.new ≡ built N packet.old (told (replicate N 0) answer.entry) }
{
    let (number, bytes) = told(answer, [0; N]);
    leave(packet, number, &bytes)
}

#[tactic(auto, unfolding(crate::specs::Build::build_version_reply_call))]
pub fn cfu_build_version_reply(count: u8, protocol: u8, components: &[u8], packet: &mut [u8]) -> u32
    ensures { leaves result packet.new ≡ build_version_reply_call count protocol components.now packet.old }
{
    if components.len() != COMPONENTS_SIZE {
        return WRONG_LIST;
    }
    let reply = VersionReply {
        count,
        protocol,
        components: read_components(components),
    };
    leave_built(packet, build_version_reply(reply))
}

#[tactic(auto, unfolding(crate::specs::Build::build_offer_call))]
pub fn cfu_build_offer(offer: COffer, packet: &mut [u8]) -> u32
    ensures { leaves result packet.new ≡ build_offer_call offer packet.old }
{
    leave_built(packet, built_offer(offer))
}

#[tactic(auto, unfolding(crate::specs::Build::build_information_call))]
pub fn cfu_build_information(code: u8, token: u8, packet: &mut [u8]) -> u32
    ensures { leaves result packet.new ≡ build_information_call code token packet.old }
{
    leave(packet, SERVED, &build_information(Signal { code, token }))
}

#[tactic(auto, unfolding(crate::specs::Build::build_extended_call))]
pub fn cfu_build_extended(code: u8, token: u8, packet: &mut [u8]) -> u32
    ensures { leaves result packet.new ≡ build_extended_call code token packet.old }
{
    leave(packet, SERVED, &build_extended(Signal { code, token }))
}

#[tactic(auto, unfolding(crate::specs::Build::build_offer_reply_call))]
pub fn cfu_build_offer_reply(token: u8, reason: u8, status: u8, packet: &mut [u8]) -> u32
    ensures { leaves result packet.new ≡ build_offer_reply_call token reason status packet.old }
{
    let reply = OfferReply {
        token,
        reason,
        status,
    };
    leave(packet, SERVED, &build_offer_reply(reply))
}

#[tactic(auto, unfolding(crate::specs::Build::build_content_call))]
pub fn cfu_build_content(
    flags: u8,
    length: u8,
    sequence: u16,
    address: u32,
    bytes: &[u8],
    packet: &mut [u8],
) -> u32
    ensures { leaves result packet.new ≡ build_content_call flags length sequence address bytes.now packet.old }
{
    let Ok(data) = <[u8; DATA_SIZE]>::try_from(bytes) else {
        return WRONG_LIST;
    };
    let content = ContentFields {
        flags,
        length,
        sequence,
        address: RegionAddress::new(address),
        data,
    };
    leave_built(packet, build_content(content))
}

#[tactic(auto, unfolding(crate::specs::Build::build_content_reply_call))]
pub fn cfu_build_content_reply(sequence: u16, status: u8, packet: &mut [u8]) -> u32
    ensures { leaves result packet.new ≡ build_content_reply_call sequence status packet.old }
{
    leave(
        packet,
        SERVED,
        &build_content_reply(ContentReply { sequence, status }),
    )
}
