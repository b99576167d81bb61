// The device's record as bytes of a fixed length, and the list that set-up takes, as bytes. Nothing else knows where a part of the record stands; where the
// bytes of a session and of a component stand in theirs is said in device_session_bytes and device_component_bytes.
#![tactic(auto)]

ghost use Rattle.std.specs.Prelude.{◌≡◌, ◌++◌, length, take, drop};
ghost use Rattle.wire.specs.Codes.{component_limit};
ghost use Rattle.device_component_bytes.specs.Layout.{listed_in};
ghost use Rattle.device_bytes.specs.Layout.{device_size, components_start, head_bytes, components_bytes, platform_in, staging_len_in, count_in, components_in, device_bytes, fields_in, staged_fit, is_record, read_device, list_in, listed_start};

use crate::component::{component_of, component_start, store_component};
use crate::session::{session_in, store_session};
use device::record::Device;
use device_component::record::{Component, Listed};
use device_component_bytes::{COMPONENT_SIZE, LISTED_SIZE, listed_in, staged_flag_fits};
use device_session_bytes::{SESSION_SIZE, session_flags_fit};
use wire::codes::COMPONENT_LIMIT;
use wire::words;

pub mod component; // component.rt: a component
pub mod session; // session.rt: the session
pub mod list; // list.rt: a component of the list that set-up takes

// Where the parts of a record stand: the platform, the length of the staging buffer, the count, the session, the components.
pub const PLATFORM_AT: usize = 0;

pub const STAGING_LEN_AT: usize = PLATFORM_AT + 2;

pub const COUNT_AT: usize = STAGING_LEN_AT + 4;

pub const SESSION_START: usize = COUNT_AT + 1;

pub const COMPONENTS_START: usize = SESSION_START + SESSION_SIZE;

// The length of a record.
pub const DEVICE_SIZE: usize = COMPONENTS_START + COMPONENT_LIMIT * COMPONENT_SIZE;

// The length of the list.
pub const LIST_SIZE: usize = COMPONENT_LIMIT * LISTED_SIZE;

// What stands before the session.
fn head(d: Device) -> [u8; SESSION_START]
    ensures { result ≡ head_bytes d }
{
    let p = words::bytes16(d.platform);
    let l = words::bytes32(d.staging_len);
    [p[0], p[1], l[0], l[1], l[2], l[3], d.count]
}

// The components, each in its slot.
fn with_components(
    mut out: [u8; DEVICE_SIZE],
    components: [Component; COMPONENT_LIMIT],
) -> [u8; DEVICE_SIZE]
    ensures { result ≡ take components_start out ++ components_bytes components }
{
    for i in 0..COMPONENT_LIMIT {
        store_component(&mut out, i as u8, components[i]);
    }
    out
}

pub fn device_bytes(d: Device) -> [u8; DEVICE_SIZE]
    ensures { result ≡ device_bytes d }
{
    let mut out = [0u8; DEVICE_SIZE];
    let h = head(d);
    words::copy(&mut out[0..SESSION_START], &h);
    let session = d.session;
    store_session(&mut out, session);
    let components = d.components;
    with_components(out, components)
}

// The fields of a record before its session, unjudged.
pub fn platform_in(b: &[u8]) -> u16
    ensures { result ≡ platform_in b.now }
{
    words::word16_at(b, PLATFORM_AT as u16)
}

pub fn staging_len_in(b: &[u8]) -> u32
    ensures { result ≡ staging_len_in b.now }
{
    words::word32_at(b, STAGING_LEN_AT as u16)
}

pub fn count_in(b: &[u8]) -> u8
    ensures { result ≡ count_in b.now }
{
    words::byte_at(b, COUNT_AT)
}

fn components_in(b: &[u8]) -> [Component; COMPONENT_LIMIT]
    requires { length b.now ≡ device_size }
    ensures { result ≡ components_in component_limit (drop components_start b.now) }
{
    std::array::from_fn(|i| component_of(b, i as u8))
}

// The fields that stand in the bytes, unjudged; bytes of another length are read as the blank record.
pub fn fields_in(b: &[u8]) -> Device
    ensures { result ≡ fields_in b.now }
{
    if b.len() == DEVICE_SIZE {
        let components = components_in(b);
        let session = session_in(b);
        Device {
            platform: platform_in(b),
            staging_len: staging_len_in(b),
            count: count_in(b),
            components,
            session,
        }
    } else {
        Device::blank()
    }
}

// In each of the components the flag of what is staged is one that a record has.
fn staged_fit(b: &[u8]) -> bool
    requires { length b.now ≡ device_size }
    ensures { result ≡ staged_fit component_limit (drop components_start b.now) }
{
    (0..COMPONENT_LIMIT as u8).all(|i| staged_flag_fits(&b[component_start(i)..]))
}

// These bytes are a record: as many, and each flag one that a record has.
pub fn is_record(b: &[u8]) -> bool
    ensures { result ≡ is_record b.now }
{
    if b.len() != DEVICE_SIZE {
        return false;
    }
    session_flags_fit(&b[SESSION_START..]) & staged_fit(b)
}

// Bytes that are no record are read as the blank one.
pub fn read_device(b: &[u8]) -> Device
    ensures { result ≡ read_device b.now }
{
    if is_record(b) {
        fields_in(b)
    } else {
        Device::blank()
    }
}

// The component of the list at a place; what the bytes lack of it is zero.
fn listed_at(b: &[u8], place: u8) -> Listed
    ensures { result ≡ listed_in (drop (listed_start place) b.now) }
{
    let at = (place as usize * LISTED_SIZE).min(b.len());
    listed_in(&b[at..])
}

// What the bytes lack, up to all the components, is zero.
pub fn read_list(b: &[u8]) -> [Listed; COMPONENT_LIMIT]
    ensures { result ≡ list_in component_limit b.now }
{
    std::array::from_fn(|i| listed_at(b, i as u8))
}
