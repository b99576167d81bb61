// The calls from C for a device's record (document 01, "The device", rows S, D and C): set-up, the version reply, the reset. The record is lent bytes; where a
// row refuses, it stays as it is.
#![tactic(auto)]

ghost use Rattle.std.specs.Prelude.{◌≡◌, length};
ghost use Rattle.device.specs.Refusals.{row_of, row_in};
ghost use Rattle.c_types.specs.Lent.{leaves};
ghost use Rattle.c_device.specs.Numbers.{device_number};
ghost use Rattle.c_device.specs.Device.{set_up_call, versions_call, reset_call};

use c_types::lent::{leave, lent_number};
use c_types::numbers::{ROW_D, ROW_S, SERVED, WRONG_LIST, WRONG_RECORD, lettered};
use device::answer::Refusal;
use device::setup::set_up;
use device_bytes::{DEVICE_SIZE, LIST_SIZE, device_bytes, read_device, read_list};
use wire::codes::LONG_SIZE;

// The number of a row of the device.
pub fn device_number(refusal: Refusal) -> u32
    ensures { result ≡ device_number (row_of refusal) }
{
    lettered(ROW_D, refusal.number())
}

// The same of what an entry answers: 0 where no row refuses.
pub fn device_number_told<T: Copy>(answer: Result<T, Refusal>) -> u32
    ensures { result ≡ device_number (row_in answer) }
{
    match answer {
        Ok(_) => SERVED,
        Err(row) => device_number(row),
    }
}

// Set-up over a list of components as bytes.
#[tactic(auto, unfolding(crate::specs::Device::set_up_call))]
pub fn cfu_device_set_up(
    device: &mut [u8],
    platform: u16,
    list: &[u8],
    count: u8,
    staging: &[u8],
) -> u32
    ensures { leaves result device.new ≡ set_up_call device.old platform list.now count (length staging.now) }
{
    let number = lent_number(
        device.len() == DEVICE_SIZE,
        list.len() == LIST_SIZE,
        WRONG_LIST,
    );
    if number != SERVED {
        return number;
    }
    match set_up(platform, read_list(list), count, staging) {
        Ok(made) => {
            device.copy_from_slice(&device_bytes(made));
            SERVED
        }
        Err(row) => lettered(ROW_S, row.number()),
    }
}

#[tactic(auto, unfolding(crate::specs::Device::versions_call))]
pub fn cfu_device_version_reply(device: &[u8], packet: &mut [u8]) -> u32
    ensures { leaves result packet.new ≡ versions_call device.now packet.old }
{
    if device.len() != DEVICE_SIZE {
        return WRONG_RECORD;
    }
    match read_device(device).version_reply() {
        Ok(reply) => leave(packet, SERVED, &reply),
        Err(refusal) => leave(packet, device_number(refusal), &[0u8; LONG_SIZE]),
    }
}

#[tactic(auto, unfolding(crate::specs::Device::reset_call))]
pub fn cfu_device_reset(device: &mut [u8]) -> u32
    ensures { leaves result device.new ≡ reset_call device.old }
{
    if device.len() != DEVICE_SIZE {
        return WRONG_RECORD;
    }
    match read_device(device).reset() {
        Ok(next) => {
            device.copy_from_slice(&device_bytes(next));
            SERVED
        }
        Err(refusal) => device_number(refusal),
    }
}
