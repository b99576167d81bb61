// The calls from C for one part of lent bytes: a component of the list, a component of a device, an entry of a checked bundle. A place that is not there is C4.
#![tactic(auto)]

ghost use Rattle.std.specs.Prelude.{◌≡◌, ◌-◌, ◌^◌, ◌<◌, ◌≤◌};
ghost use Rattle.c_types.specs.Lent.{leaves};
ghost use Rattle.c_access.specs.Access.{listed_of, pending_of, staged_of, component_told, no_version, no_component, no_entry, body_told, list_call, component_call, entry_call};

use c_device::device_number;
use c_types::numbers::{ROW_B, SERVED, WRONG_LIST, WRONG_PLACE, WRONG_RECORD};
use c_types::types::{CComponent, CEntry, CListed, CVersion};
use device::answer::Refusal;
use device_bytes::component::component_of;
use device_bytes::list::store_listed;
use device_bytes::{DEVICE_SIZE, LIST_SIZE, read_device};
use device_component::record::{Component, Fixed, Listed};
use host_bytes::{are_contents, count_in, entry_in, read_body, row_in};
use host_record::fits::Body;
use image::region::{Region, StagingOffset};
use wire::codes::COMPONENT_LIMIT;
use wire::version::Version;

// A component of the list by its numbers.
fn listed(c: CListed) -> Listed
    ensures { result ≡ listed_of c }
{
    let region = Region {
        base: StagingOffset::new(c.base),
        len: c.length,
    };
    let running = c.running;
    let floor = c.floor;
    Listed {
        fixed: Fixed {
            id: c.id,
            region,
            floor: Version::from(floor),
        },
        running: Version::from(running),
    }
}

// A component goes into the list that set-up takes, at a place counted from 0; a refusal leaves the list as it was.
pub fn cfu_list_put(list: &mut [u8], place: u32, component: CListed) -> u32
    ensures { leaves result list.new ≡ list_call list.old place component }
{
    if list.len() != LIST_SIZE {
        return WRONG_LIST;
    }
    if COMPONENT_LIMIT <= place as usize {
        return WRONG_PLACE;
    }
    store_listed(list, place, listed(component));
    SERVED
}

// Where no version is staged.
fn no_version() -> CVersion
    ensures { result ≡ no_version }
{
    CVersion {
        major: 0,
        minor: 0,
        variant: 0,
    }
}

// A refused call tells of no component.
fn no_component(number: u32) -> CComponent
    ensures { result ≡ no_component number }
{
    let none = no_version();
    CComponent {
        number,
        id: 0,
        running: none,
        base: 0,
        length: 0,
        floor: none,
        pending: 0,
        staged: none,
    }
}

fn pending(staged: Option<Version>) -> u8
    ensures { result ≡ pending_of staged }
{
    u8::from(staged.is_some())
}

fn staged_parts(staged: Option<Version>) -> CVersion
    ensures { result ≡ staged_of staged }
{
    staged.map_or(no_version(), |v| CVersion::from(v))
}

fn told(c: Component) -> CComponent
    ensures { result ≡ component_told c }
{
    let fixed = c.fixed;
    let region = fixed.region;
    let floor = fixed.floor;
    let running = c.running;
    let staged = c.staged;
    CComponent {
        number: SERVED,
        id: fixed.id,
        running: CVersion::from(running),
        base: region.base.number(),
        length: region.len,
        floor: CVersion::from(floor),
        pending: pending(staged),
        staged: staged_parts(staged),
    }
}

// The component of a device at a place counted from 0.
pub fn cfu_device_component(device: &[u8], place: u32) -> CComponent
    ensures { result ≡ component_call device.now place }
{
    if device.len() != DEVICE_SIZE {
        return no_component(WRONG_RECORD);
    }
    let d = read_device(device);
    if d.breaks_d1() {
        return no_component(device_number(Refusal::D1));
    }
    if d.count as u32 <= place {
        return no_component(WRONG_PLACE);
    }
    told(component_of(device, place as u8))
}

// A refused call tells of no body.
fn no_entry(number: u32, entry: u32) -> CEntry
    ensures { result ≡ no_entry number entry }
{
    CEntry {
        number,
        entry,
        offset: 0,
        length: 0,
        records: 0,
    }
}

fn body_told(body: Body) -> CEntry
    requires { (body.start ≤ body.end) × (body.start < 2 ^ 32) × (body.end - body.start < 2 ^ 32) }
    ensures { result ≡ body_told body }
{
    CEntry {
        number: SERVED,
        entry: 0,
        offset: body.start as u32,
        length: (body.end - body.start as u64) as u32,
        records: body.records,
    }
}

// The entry of a checked bundle at a place counted from 0, by the contents that the check left.
pub fn cfu_contents_entry(contents: &[u8], place: u32) -> CEntry
    ensures { result ≡ entry_call contents.now place }
{
    if !are_contents(contents) {
        return no_entry(WRONG_RECORD, 0);
    }
    let row = row_in(contents);
    if row != 0 {
        return no_entry(ROW_B as u32 + row as u32, entry_in(contents) as u32);
    }
    if count_in(contents) as u32 <= place {
        return no_entry(WRONG_PLACE, 0);
    }
    body_told(read_body(contents, place))
}
