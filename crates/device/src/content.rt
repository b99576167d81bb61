// The content entry (document 01, "The device").
ghost use Rattle.std.specs.Prelude.{◌≡◌};
ghost use Rattle.device_receiving.specs.Receive.{on_content, staging_after};
ghost use Rattle.device.specs.Refusals.{answered, told};
ghost use Rattle.device.specs.Content.{session_component, received as received_by, content_entry, content_staging};

use crate::answer::{Answer, Refusal};
use crate::record::Device;
use device_receiving::content::on_report;
use device_slots::slot::{component_at, with_component};
use wire::codes::LONG_SIZE;

impl Device {
    // A packet that no row refuses.
    fn on_content(self, report: &[u8], staging: &mut [u8]) -> Answer
        ensures { (answered result ≡ received_by self (on_content (session_component self) self.session report.now staging.old))
            × (staging.new ≡ staging_after (session_component self).fixed.region self.session report.now staging.old) }
    {
        let components = self.components;
        let session = self.session;
        let stage = session.stage;
        let slot = stage.slot();
        let component = component_at(components, slot);
        let taken = on_report(component, session, report, staging);
        let effect = taken.effect;
        let after = taken.component;
        let next = with_component(components, slot, after);
        self.served(next, effect)
    }

    // D1 to D3, or the answer to a block. The staging buffer changes only where a block is taken.
    pub fn content(self, staging: &mut [u8], report: &[u8]) -> Result<Answer, Refusal>
        ensures { (told self result ≡ content_entry self staging.old report.now) × (staging.new ≡ content_staging self staging.old report.now) }
    {
        self.refusal(LONG_SIZE, staging.len(), report.len())?;
        Ok(self.on_content(report, staging))
    }
}
