// A component of the device as bytes: one of the list that set-up takes, which is id, running version, region and floor, and behind it what is staged. What is
// read stands in bytes that start at the component; past their end a byte is 0.
#![tactic(auto)]

ghost use Rattle.std.specs.Prelude.{◌≡◌, cond, eqb};
ghost use Rattle.device_component_bytes.specs.Layout.{staged_bytes, component_bytes, listed_bytes, fixed_in, component_in, listed_in, staged_flag_fits};

use device_component::record::{Component, Fixed, Listed};
use image::region::{Region, StagingOffset};
use wire::version::Version;
use wire::words;

// The lengths of a word, of a version, of a region, and of what is staged: a flag and a version.
const WORD_SIZE: usize = 4;

const VERSION_SIZE: usize = 4;

const REGION_SIZE: usize = WORD_SIZE + WORD_SIZE;

const STAGED_SIZE: usize = 1 + VERSION_SIZE;

// Where the parts of a component stand behind its id: the running version, the region and its length, the floor.
pub const RUNNING_AT: usize = 1;

pub const REGION_AT: usize = RUNNING_AT + VERSION_SIZE;

pub const REGION_LEN_AT: usize = REGION_AT + WORD_SIZE;

pub const FLOOR_AT: usize = REGION_AT + REGION_SIZE;

// The length of a component of the list, of which nothing is staged.
pub const LISTED_SIZE: usize = FLOOR_AT + VERSION_SIZE;

// Where what is staged and its version stand, and the length of all.
pub const STAGED_AT: usize = LISTED_SIZE;

pub const STAGED_VERSION_AT: usize = STAGED_AT + 1;

pub const COMPONENT_SIZE: usize = STAGED_AT + STAGED_SIZE;

fn staged_bytes(s: Option<Version>) -> [u8; STAGED_SIZE]
    ensures { result ≡ staged_bytes s }
{
    match s {
        None => [0u8; STAGED_SIZE],
        Some(v) => {
            let b = v.bytes();
            [1, b[0], b[1], b[2], b[3]]
        }
    }
}

// A component of the list that set-up takes.
pub fn listed_bytes(l: Listed) -> [u8; LISTED_SIZE]
    ensures { result ≡ listed_bytes l }
{
    let running = l.running;
    let v = running.bytes();
    let b = words::bytes32(l.fixed.region.base.number());
    let n = words::bytes32(l.fixed.region.len);
    let floor = l.fixed.floor;
    let f = floor.bytes();
    [
        l.fixed.id, v[0], v[1], v[2], v[3], b[0], b[1], b[2], b[3], n[0], n[1], n[2], n[3], f[0],
        f[1], f[2], f[3],
    ]
}

// A component: what the list has of it, and what is staged.
pub fn component_bytes(c: Component) -> [u8; COMPONENT_SIZE]
    ensures { result ≡ component_bytes c }
{
    let fixed = c.fixed;
    let running = c.running;
    let l = listed_bytes(Listed { fixed, running });
    let staged = c.staged;
    let s = staged_bytes(staged);
    [
        l[0], l[1], l[2], l[3], l[4], l[5], l[6], l[7], l[8], l[9], l[10], l[11], l[12], l[13],
        l[14], l[15], l[16], s[0], s[1], s[2], s[3], s[4],
    ]
}

// What is fixed of a component.
#[inline(always)]
fn fixed_in(q: &[u8]) -> Fixed
    ensures { result ≡ fixed_in q.now }
{
    let region = Region {
        base: StagingOffset::new(words::word32_at(q, REGION_AT as u16)),
        len: words::word32_at(q, REGION_LEN_AT as u16),
    };
    Fixed {
        id: words::byte_at(q, 0),
        region,
        floor: Version::read_at(q, FLOOR_AT as u16),
    }
}

fn staged_in(staged: u8, v: Version) -> Option<Version>
    ensures { result ≡ cond (eqb staged 1) (Some v) None }
{
    (staged == 1).then_some(v)
}

// A component of the list that set-up takes. Inlined, with what it calls: where the length of what is lent is known, no byte's place is tested.
#[inline(always)]
pub fn listed_in(q: &[u8]) -> Listed
    ensures { result ≡ listed_in q.now }
{
    Listed {
        fixed: fixed_in(q),
        running: Version::read_at(q, RUNNING_AT as u16),
    }
}

// The component, unjudged.
pub fn component_in(q: &[u8]) -> Component
    ensures { result ≡ component_in q.now }
{
    let l = listed_in(q);
    let fixed = l.fixed;
    let running = l.running;
    let version = Version::read_at(q, STAGED_VERSION_AT as u16);
    let staged = staged_in(words::byte_at(q, STAGED_AT), version);
    Component {
        fixed,
        running,
        staged,
    }
}

// The flag of what is staged is one that a component has.
pub fn staged_flag_fits(q: &[u8]) -> bool
    ensures { result ≡ staged_flag_fits q.now }
{
    words::byte_at(q, STAGED_AT) <= 1
}
