// The components of a version reply as bytes: version, id and platform of each.
#![tactic(auto)]

ghost use Rattle.std.specs.Prelude.{◌≡◌, drop};
ghost use Rattle.wire.specs.Codes.{component_limit};
ghost use Rattle.c_version.specs.Layout.{running_bytes, components_bytes, running_in, components_in};

use std::array;
use wire::codes::COMPONENT_LIMIT;
use wire::version::Version;
use wire::words;
use wire_version::Running;

// Where the id and the platform of a component stand behind its version; the lengths of a component, and of all of them.
pub const ID_AT: usize = 4;

pub const PLATFORM_AT: u16 = ID_AT as u16 + 1;

pub const RUNNING_SIZE: usize = PLATFORM_AT as usize + 2;

pub const COMPONENTS_SIZE: usize = COMPONENT_LIMIT * RUNNING_SIZE;

fn running_bytes(e: Running) -> [u8; RUNNING_SIZE]
    ensures { result ≡ running_bytes e }
{
    let [variant, minor_low, minor_high, major] = e.version.bytes();
    let [low, high] = words::bytes16(e.platform);
    [variant, minor_low, minor_high, major, e.id, low, high]
}

pub fn components_bytes(components: [Running; COMPONENT_LIMIT]) -> [u8; COMPONENTS_SIZE]
    ensures { result ≡ components_bytes components }
{
    let mut out = [0u8; COMPONENTS_SIZE];
    for (i, e) in components.iter().enumerate() {
        let at = i * RUNNING_SIZE;
        out[at..at + RUNNING_SIZE].copy_from_slice(&running_bytes(*e));
    }
    out
}

fn running_in(q: &[u8]) -> Running
    ensures { result ≡ running_in q.now }
{
    Running {
        version: Version::read_at(q, 0),
        id: words::byte_at(q, ID_AT),
        platform: words::word16_at(q, PLATFORM_AT),
    }
}

// The one from a place on; past the end of the bytes all is zero.
fn running_at(q: &[u8], at: usize) -> Running
    ensures { result ≡ running_in (drop at q.now) }
{
    running_in(&q[at.min(q.len())..])
}

// What the bytes lack, up to the last component, is zero.
pub fn read_components(q: &[u8]) -> [Running; COMPONENT_LIMIT]
    ensures { result ≡ components_in component_limit q.now }
{
    array::from_fn(|i| running_at(q, i * RUNNING_SIZE))
}
