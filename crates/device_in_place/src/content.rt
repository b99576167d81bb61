// The content entry in place (document 01, "The device").
ghost use Rattle.std.specs.Prelude.{◌≡◌, length, Ok};
ghost use Rattle.device_receiving.specs.Receive.{staging_after};
ghost use Rattle.device.specs.Content.{session_component, content_entry, content_staging};
ghost use Rattle.device_bytes.specs.Layout.{device_size, device_in, read_device};
ghost use Rattle.device_in_place.specs.InPlace.{outcome_of, content_leaves};
ghost use Rattle.device_in_place.specs.Inside.{content_by, content_stored};

use crate::fields::component_at;
use crate::sound::refusal_in;
use device::answer::Refusal;
use device_bytes::component::store_component;
use device_bytes::session::{session_in, store_session};
use device_receiving::content::on_report;
use device_session::effect::Replies;
use wire::codes::LONG_SIZE;

// A packet that no row refuses.
fn on_content(bytes: &mut [u8], staging: &mut [u8], report: &[u8]) -> Replies
    requires { length bytes.old ≡ device_size }
    ensures { (outcome_of (Ok result) (content_by bytes.old staging.old report.now).device ≡ content_by bytes.old staging.old report.now)
        × (bytes.new ≡ content_stored bytes.old staging.old report.now)
        × (staging.new ≡ staging_after (session_component (device_in bytes.old)).fixed.region (device_in bytes.old).session report.now staging.old) }
{
    let session = session_in(bytes);
    let stage = session.stage;
    let slot = stage.slot();
    let component = component_at(bytes, slot);
    let taken = on_report(component, session, report, staging);
    let effect = taken.effect;
    let after = taken.component;
    let next = effect.session;
    store_session(bytes, next);
    store_component(bytes, slot, after);
    effect.replies
}

// What the by-value entry answers, with its session and its component left in the record, and the staging buffer as it leaves it; where a row refuses, the
// record's bytes stay.
pub fn content_in_place(
    bytes: &mut [u8],
    staging: &mut [u8],
    report: &[u8],
) -> Result<Replies, Refusal>
    ensures { (outcome_of result (content_entry (read_device bytes.old) staging.old report.now).device ≡ content_entry (read_device bytes.old) staging.old report.now)
        × (bytes.new ≡ content_leaves bytes.old (content_entry (read_device bytes.old) staging.old report.now))
        × (staging.new ≡ content_staging (read_device bytes.old) staging.old report.now) }
{
    refusal_in(bytes, LONG_SIZE, staging.len(), report.len())?;
    Ok(on_content(bytes, staging, report))
}
