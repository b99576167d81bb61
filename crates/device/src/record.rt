// The device's record (document 01, "The device").
ghost use Rattle.std.specs.Prelude.{◌≡◌};
ghost use Rattle.device.specs.Record.{with_session, blank_device};

use device_component::record::{Component, blank_component};
use device_session::effect::Session;
use wire::codes::COMPONENT_LIMIT;

#[derive(Clone, Copy)]
pub struct Device {
    pub platform: u16,
    // The length of the staging buffer at set-up.
    pub staging_len: u32,
    // How many of the components are in use.
    pub count: u8,
    pub components: [Component; COMPONENT_LIMIT],
    pub session: Session,
}

impl Device {
    // With these components and this session.
    pub(crate) fn with_session(
        self,
        components: [Component; COMPONENT_LIMIT],
        session: Session,
    ) -> Device
        ensures { result ≡ with_session self components session }
    {
        Device {
            components,
            session,
            ..self
        }
    }

    // What a refused set-up hands back: every entry answers D1 to it.
    pub fn blank() -> Device
        ensures { result ≡ blank_device }
    {
        let component = blank_component();
        let components = [component; COMPONENT_LIMIT];
        let session = Session::idle();
        Device {
            platform: 0,
            staging_len: 0,
            count: 0,
            components,
            session,
        }
    }
}
