// The entry by channel: an offer or a content packet.
ghost use Rattle.std.specs.Prelude.{◌≡◌};
ghost use Rattle.device.specs.Refusals.{told};
ghost use Rattle.device.specs.Entries.{serve_entry, serve_staging};

use crate::answer::{Answer, Channel, Refusal};
use crate::record::Device;

impl Device {
    pub fn serve(
        self,
        channel: Channel,
        staging: &mut [u8],
        report: &[u8],
    ) -> Result<Answer, Refusal>
        ensures { (told self result ≡ serve_entry self channel staging.old report.now) × (staging.new ≡ serve_staging self channel staging.old report.now) }
    {
        match channel {
            Channel::Offer => self.offer(staging, report),
            Channel::Content => self.content(staging, report),
        }
    }
}
