// The reset's entry (document 01, "The device").
ghost use Rattle.std.specs.Prelude.{◌≡◌};
ghost use Rattle.device.specs.Entries.{told_reset, reset_entry};

use crate::answer::Refusal;
use crate::record::Device;
use device_session::effect::Session;
use device_slots::all::reset_components;

impl Device {
    // D1, or staged versions run, nothing is pending or owed, and the session is idle.
    pub fn reset(self) -> Result<Device, Refusal>
        ensures { told_reset self result ≡ reset_entry self }
    {
        if self.breaks_d1() {
            return Err(Refusal::D1);
        }
        let components = self.components;
        let next = reset_components(components, self.count);
        Ok(self.with_session(next, Session::idle()))
    }

    // The record after a reset: as it was where a row refuses.
    pub fn after_reset(self, next: Result<Device, Refusal>) -> Device
        ensures { result ≡ (told_reset self next).device }
    {
        next.unwrap_or(self)
    }
}
