// The firmware's own entry: the main loop lends its record, which is changed in place.
#![tactic(auto)]

ghost use Rattle.std.specs.Prelude.{◌≡◌};
ghost use Rattle.device.specs.Refusals.{told};
ghost use Rattle.device.specs.Entries.{serve_entry, serve_staging};

use device::answer::{Answer, Channel, Refusal};
use device::record::Device;

// A packet of a channel: what the by-value entry answers, with the record and the staging buffer left as it leaves them.
pub fn serve_in_place(
    device: &mut Device,
    channel: Channel,
    staging: &mut [u8],
    report: &[u8],
) -> Result<Answer, Refusal>
    ensures { (told device.old result ≡ serve_entry device.old channel staging.old report.now)
        × (device.new ≡ (serve_entry device.old channel staging.old report.now).device)
        × (staging.new ≡ serve_staging device.old channel staging.old report.now) }
{
    let answer = device.serve(channel, staging, report)?;
    *device = answer.device;
    Ok(answer)
}

// A record by value, lent to the entry above: whoever calls this lends no record.
pub fn serve_lent(
    device: Device,
    channel: Channel,
    staging: &mut [u8],
    report: &[u8],
) -> Result<Answer, Refusal>
    ensures { (told device result ≡ serve_entry device channel staging.old report.now) × (staging.new ≡ serve_staging device channel staging.old report.now) }
{
    let mut d = device;
    serve_in_place(&mut d, channel, staging, report)
}
