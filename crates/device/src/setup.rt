// Set-up (documents 01 and 02, rows S1 to S5): a device that is idle, with nothing staged and nothing owed.
ghost use Rattle.std.specs.Prelude.{◌≡◌, length};
ghost use Rattle.device.specs.Entries.{told_set_up, set_up_of};

use crate::record::Device;
use device_component::record::Listed;
use device_component::setup::{SetupRow, setup_verdict};
use device_session::effect::Session;
use device_slots::all::components_of;
use wire::codes::COMPONENT_LIMIT;

// The first `count` of the list are in use. The buffer is only measured.
pub fn set_up(
    platform: u16,
    list: [Listed; COMPONENT_LIMIT],
    count: u8,
    staging: &[u8],
) -> Result<Device, SetupRow>
    ensures { told_set_up result ≡ set_up_of platform list count (length staging.now) }
{
    let components = components_of(list);
    setup_verdict(staging.len(), count, components)?;
    let session = Session::idle();
    Ok(Device {
        platform,
        staging_len: staging.len() as u32,
        count,
        components,
        session,
    })
}

// The record after set-up: where a row refuses, the blank one, which every entry refuses.
pub fn device_of(made: Result<Device, SetupRow>) -> Device
    ensures { result ≡ (told_set_up made).device }
{
    made.unwrap_or(Device::blank())
}
