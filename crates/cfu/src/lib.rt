// The calls of include/cfu.h for C: each calls the function of its name in the crates `c_*`, under the same contract.
#![tactic(auto)]

ghost use Rattle.std.specs.Prelude.{◌≡◌, length};
ghost use Rattle.c_access.specs.Access.{list_call, component_call, entry_call};
ghost use Rattle.c_build.specs.Build.{build_version_reply_call, build_offer_call, build_information_call, build_extended_call, build_offer_reply_call, build_content_call, build_content_reply_call};
ghost use Rattle.c_device.specs.Device.{set_up_call, versions_call, reset_call};
ghost use Rattle.c_device_packet.specs.Packet.{told_replies, offer_call, content_call, content_call_staging};
ghost use Rattle.c_host.specs.Check.{told_check, check_call};
ghost use Rattle.c_host.specs.Host.{fresh_call, report_call};
ghost use Rattle.c_host_step.specs.Step.{told_step, step_call, step_checked_call, step_checked_contents};
ghost use Rattle.c_read.specs.Read.{told_versions, read_version_reply_call, read_offer_call, read_offer_reply_call, told_content, read_content_call, read_content_reply_call};
ghost use Rattle.c_types.specs.Lent.{leaves};
ghost use Rattle.c_writer.specs.Write.{told_write, write_call};

use c_types::types::{
    CCheck, CComponent, CContent, CContentReply, CEntry, CListed, COffer, COfferPacket,
    COfferReply, CReplies, CReport, CStep, CVersionReply, CWritten,
};

#[unsafe(no_mangle)]
pub extern "C" fn cfu_list_put(list: &mut [u8], place: u32, component: CListed) -> u32
    ensures { leaves result list.new ≡ list_call list.old place component }
{
    c_access::cfu_list_put(list, place, component)
}

#[unsafe(no_mangle)]
pub extern "C" fn cfu_device_set_up(
    device: &mut [u8],
    platform: u16,
    list: &[u8],
    count: u8,
    staging: &[u8],
) -> u32
    ensures { leaves result device.new ≡ set_up_call device.old platform list.now count (length staging.now) }
{
    c_device::cfu_device_set_up(device, platform, list, count, staging)
}

#[unsafe(no_mangle)]
pub extern "C" fn cfu_device_component(device: &[u8], place: u32) -> CComponent
    ensures { result ≡ component_call device.now place }
{
    c_access::cfu_device_component(device, place)
}

#[unsafe(no_mangle)]
pub extern "C" fn cfu_device_version_reply(device: &[u8], packet: &mut [u8]) -> u32
    ensures { leaves result packet.new ≡ versions_call device.now packet.old }
{
    c_device::cfu_device_version_reply(device, packet)
}

#[unsafe(no_mangle)]
pub extern "C" fn cfu_device_offer(
    device: &mut [u8],
    staging: &[u8],
    report: &[u8],
    replies: &mut [u8],
) -> CReplies
    ensures { told_replies result device.new replies.new ≡ offer_call device.old (length staging.now) report.now replies.old }
{
    c_device_packet::cfu_device_offer(device, staging, report, replies)
}

#[unsafe(no_mangle)]
pub extern "C" fn cfu_device_content(
    device: &mut [u8],
    staging: &mut [u8],
    report: &[u8],
    replies: &mut [u8],
) -> CReplies
    ensures { (told_replies result device.new replies.new ≡ content_call device.old staging.old report.now replies.old)
        × (staging.new ≡ content_call_staging device.old staging.old report.now replies.old) }
{
    c_device_packet::cfu_device_content(device, staging, report, replies)
}

#[unsafe(no_mangle)]
pub extern "C" fn cfu_device_reset(device: &mut [u8]) -> u32
    ensures { leaves result device.new ≡ reset_call device.old }
{
    c_device::cfu_device_reset(device)
}

#[unsafe(no_mangle)]
pub extern "C" fn cfu_bundle_check(bundle: &[u8], contents: &mut [u8]) -> CCheck
    ensures { told_check result contents.new ≡ check_call bundle.now contents.old }
{
    c_host::cfu_bundle_check(bundle, contents)
}

#[unsafe(no_mangle)]
pub extern "C" fn cfu_contents_entry(contents: &[u8], place: u32) -> CEntry
    ensures { result ≡ entry_call contents.now place }
{
    c_access::cfu_contents_entry(contents, place)
}

#[unsafe(no_mangle)]
pub extern "C" fn cfu_bundle_write(list: &[u8], images: &[u8], out: &mut [u8]) -> CWritten
    ensures { told_write result out.new ≡ write_call list.now images.now out.old }
{
    c_writer::cfu_bundle_write(list, images, out)
}

#[unsafe(no_mangle)]
pub extern "C" fn cfu_host_fresh(host: &mut [u8], token: u8) -> u32
    ensures { leaves result host.new ≡ fresh_call host.old token }
{
    c_host::cfu_host_fresh(host, token)
}

#[unsafe(no_mangle)]
pub extern "C" fn cfu_host_step(
    host: &mut [u8],
    bundle: &[u8],
    reply: &[u8],
    packet: &mut [u8],
) -> CStep
    ensures { told_step result host.new packet.new ≡ step_call host.old bundle.now reply.now packet.old }
{
    c_host_step::cfu_host_step(host, bundle, reply, packet)
}

#[unsafe(no_mangle)]
pub extern "C" fn cfu_host_step_checked(
    host: &mut [u8],
    contents: &mut [u8],
    bundle: &[u8],
    reply: &[u8],
    packet: &mut [u8],
) -> CStep
    ensures { (told_step result host.new packet.new ≡ step_checked_call host.old contents.old bundle.now reply.now packet.old)
        × (contents.new ≡ step_checked_contents host.old contents.old bundle.now reply.now packet.old) }
{
    c_host_step::cfu_host_step_checked(host, contents, bundle, reply, packet)
}

#[unsafe(no_mangle)]
pub extern "C" fn cfu_host_report(host: &[u8]) -> CReport
    ensures { result ≡ report_call host.now }
{
    c_host::cfu_host_report(host)
}

#[unsafe(no_mangle)]
pub extern "C" fn cfu_build_version_reply(
    count: u8,
    protocol: u8,
    components: &[u8],
    packet: &mut [u8],
) -> u32
    ensures { leaves result packet.new ≡ build_version_reply_call count protocol components.now packet.old }
{
    c_build::cfu_build_version_reply(count, protocol, components, packet)
}

#[unsafe(no_mangle)]
pub extern "C" fn cfu_build_offer(offer: COffer, packet: &mut [u8]) -> u32
    ensures { leaves result packet.new ≡ build_offer_call offer packet.old }
{
    c_build::cfu_build_offer(offer, packet)
}

#[unsafe(no_mangle)]
pub extern "C" fn cfu_build_information(code: u8, token: u8, packet: &mut [u8]) -> u32
    ensures { leaves result packet.new ≡ build_information_call code token packet.old }
{
    c_build::cfu_build_information(code, token, packet)
}

#[unsafe(no_mangle)]
pub extern "C" fn cfu_build_extended(code: u8, token: u8, packet: &mut [u8]) -> u32
    ensures { leaves result packet.new ≡ build_extended_call code token packet.old }
{
    c_build::cfu_build_extended(code, token, packet)
}

#[unsafe(no_mangle)]
pub extern "C" fn cfu_build_offer_reply(token: u8, reason: u8, status: u8, packet: &mut [u8]) -> u32
    ensures { leaves result packet.new ≡ build_offer_reply_call token reason status packet.old }
{
    c_build::cfu_build_offer_reply(token, reason, status, packet)
}

#[unsafe(no_mangle)]
pub extern "C" fn cfu_build_content(
    flags: u8,
    length: u8,
    sequence: u16,
    address: u32,
    bytes: &[u8],
    packet: &mut [u8],
) -> u32
    ensures { leaves result packet.new ≡ build_content_call flags length sequence address bytes.now packet.old }
{
    c_build::cfu_build_content(flags, length, sequence, address, bytes, packet)
}

#[unsafe(no_mangle)]
pub extern "C" fn cfu_build_content_reply(sequence: u16, status: u8, packet: &mut [u8]) -> u32
    ensures { leaves result packet.new ≡ build_content_reply_call sequence status packet.old }
{
    c_build::cfu_build_content_reply(sequence, status, packet)
}

#[unsafe(no_mangle)]
pub extern "C" fn cfu_read_version_reply(packet: &[u8], components: &mut [u8]) -> CVersionReply
    ensures { told_versions result components.new ≡ read_version_reply_call packet.now components.old }
{
    c_read::cfu_read_version_reply(packet, components)
}

#[unsafe(no_mangle)]
pub extern "C" fn cfu_read_offer(packet: &[u8]) -> COfferPacket
    ensures { result ≡ read_offer_call packet.now }
{
    c_read::cfu_read_offer(packet)
}

#[unsafe(no_mangle)]
pub extern "C" fn cfu_read_offer_reply(packet: &[u8]) -> COfferReply
    ensures { result ≡ read_offer_reply_call packet.now }
{
    c_read::cfu_read_offer_reply(packet)
}

#[unsafe(no_mangle)]
pub extern "C" fn cfu_read_content(packet: &[u8], bytes: &mut [u8]) -> CContent
    ensures { told_content result bytes.new ≡ read_content_call packet.now bytes.old }
{
    c_read::cfu_read_content(packet, bytes)
}

#[unsafe(no_mangle)]
pub extern "C" fn cfu_read_content_reply(packet: &[u8]) -> CContentReply
    ensures { result ≡ read_content_reply_call packet.now }
{
    c_read::cfu_read_content_reply(packet)
}
