// The version reply's entry (document 01, "The device").
ghost use Rattle.std.specs.Prelude.{◌≡◌};
ghost use Rattle.device.specs.Entries.{told_versions, version_entry};

use crate::answer::Refusal;
use crate::record::Device;
use device_slots::all::all_running;
use wire::codes::PROTOCOL;
use wire_version::{REPLY_SIZE, VersionReply, build_version_reply};

// The packet of a version reply: zeroed where a row refuses.
pub fn packet_of(answer: Result<[u8; REPLY_SIZE], Refusal>) -> [u8; REPLY_SIZE]
    ensures { result ≡ (told_versions answer).packet }
{
    answer.unwrap_or([0u8; REPLY_SIZE])
}

impl Device {
    // D1, or the reply.
    pub fn version_reply(self) -> Result<[u8; REPLY_SIZE], Refusal>
        ensures { told_versions result ≡ version_entry self }
    {
        if self.breaks_d1() {
            return Err(Refusal::D1);
        }
        let components = self.components;
        let running = all_running(self.platform, components);
        let built = build_version_reply(VersionReply {
            count: self.count,
            protocol: PROTOCOL,
            components: running,
        });
        Ok(built.unwrap_or([0u8; REPLY_SIZE]))
    }
}
