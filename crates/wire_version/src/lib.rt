// The version reply (CFU 5.1): the running version of every component.
#![tactic(auto)]

ghost use Rattle.std.specs.Prelude.{◌≡◌, ◌≤◌, length};
ghost use Rattle.wire.specs.Codes.{component_limit};
ghost use Rattle.wire_version.specs.Reply.{reply_size, none, allowed, entry_bytes, entry_in, reply_bytes, entry_of, table_in, told_built, build_of, told_read, read_of};

use std::array;
use wire::codes::COMPONENT_LIMIT;
use wire::verdict::PacketRefusal;
use wire::version::Version;
use wire::{codes, words};

// A head of four bytes, and eight for each component.
pub const REPLY_SIZE: usize = 4 + 8 * COMPONENT_LIMIT;

// A component in the reply, eight bytes.
#[derive(Clone, Copy, Default)]
pub struct Running {
    // Bytes 0-3; byte 4 is reserved.
    pub version: Version,
    // Byte 5.
    pub id: u8,
    // Bytes 6-7 (house).
    pub platform: u16,
}

#[derive(Clone, Copy, Default)]
pub struct VersionReply {
    // Byte 0.
    pub count: u8,
    // Byte 3, bits 0-3.
    pub protocol: u8,
    // Eight bytes each, from byte 4.
    pub components: [Running; COMPONENT_LIMIT],
}

// Stands where there is no component.
pub fn no_component() -> Running
    ensures { result ≡ none }
{
    Running::default()
}

// Not P2, either way: a count up to the limit, and protocol 2.
fn is_allowed(count: u8, protocol: u8) -> bool
    ensures { result ≡ allowed count protocol }
{
    (count <= COMPONENT_LIMIT as u8) & (protocol == codes::PROTOCOL)
}

fn entry_bytes(e: Running) -> [u8; 8]
    ensures { result ≡ entry_bytes e }
{
    let [variant, minor_low, minor_high, major] = e.version.bytes();
    let [low, high] = words::bytes16(e.platform);
    [variant, minor_low, minor_high, major, 0, e.id, low, high]
}

fn entry_in(s: &[u8]) -> Running
    requires { length s.now ≡ 8 }
    ensures { result ≡ entry_in s.now }
{
    Running {
        version: Version::read(s[0], s[1], s[2], s[3]),
        id: s[5],
        platform: words::word16(s[6], s[7]),
    }
}

// The bytes, where the count is at most the limit.
fn packet(r: VersionReply) -> [u8; REPLY_SIZE]
    requires { r.count ≤ component_limit }
    ensures { result ≡ reply_bytes r.count r.protocol r.components }
{
    let mut p = [0u8; REPLY_SIZE];
    p[0] = r.count;
    p[3] = r.protocol;
    for (i, e) in r.components[..r.count as usize].iter().enumerate() {
        let at = 4 + 8 * i;
        p[at..at + 8].copy_from_slice(&entry_bytes(*e));
    }
    p
}

#[tactic(auto, unfolding(crate::specs::Reply::build_of))]
pub fn build_version_reply(r: VersionReply) -> Result<[u8; REPLY_SIZE], PacketRefusal>
    ensures { told_built result ≡ build_of r }
{
    if is_allowed(r.count, r.protocol) {
        Ok(packet(r))
    } else {
        Err(PacketRefusal::P2)
    }
}

// The component at a place in a reply's bytes, below the count, which is at most the limit, and an empty one from the count on.
fn entry_at(p: &[u8], count: u8, i: usize) -> Running
    requires { (length p.now ≡ reply_size) × (count ≤ component_limit) }
    ensures { result ≡ entry_of p.now count i }
{
    if i < count as usize {
        let at = 4 + 8 * i;
        entry_in(&p[at..at + 8])
    } else {
        no_component()
    }
}

// The components in a reply's bytes up to the count, which is at most the limit, then empty ones.
fn table(p: &[u8], count: u8) -> [Running; COMPONENT_LIMIT]
    requires { (length p.now ≡ reply_size) × (count ≤ component_limit) }
    ensures { result ≡ table_in p.now count }
{
    array::from_fn(|i| entry_at(p, count, i))
}

#[tactic(auto, unfolding(crate::specs::Reply::read_of, crate::specs::Reply::fields_in))]
pub fn read_version_reply(p: &[u8]) -> Result<VersionReply, PacketRefusal>
    ensures { told_read result ≡ read_of p.now }
{
    if p.len() != REPLY_SIZE {
        return Err(PacketRefusal::P1);
    }
    let count = p[0];
    let protocol = p[3] % 16;
    if !is_allowed(count, protocol) {
        return Err(PacketRefusal::P2);
    }
    Ok(VersionReply {
        count,
        protocol,
        components: table(p, count),
    })
}
