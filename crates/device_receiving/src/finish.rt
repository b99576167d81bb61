// The end of a last block (document 01, "The device"): image judgement, and the component afterwards.
ghost use Rattle.std.specs.Prelude.{◌≡◌};
ghost use Rattle.device_receiving.specs.Finish.{finish as finish_of};

use device_component::record::Component;
use image::judge::ImageFault;
use wire::codes;

// What a finished image comes to.
#[derive(Clone, Copy)]
pub struct Finished {
    pub status: u8,
    pub component: Component,
}

// Failure: not pending.
fn failed(component: Component, status: u8) -> Finished
    ensures { result ≡ record { status = status; component = component } }
{
    Finished { status, component }
}

// The only place that judges and stages.
#[tactic(auto, unfolding(crate::specs::Finish::finish))]
pub(crate) fn finish(component: Component, staging: &[u8]) -> Finished
    ensures { result ≡ finish_of component staging.now }
{
    let region = component.fixed.region;
    let judged = region.image(staging, component.fixed.id);
    match judged {
        Err(ImageFault::Damaged) => failed(component, codes::ERROR_CRC),
        Err(ImageFault::Foreign) => failed(component, codes::ERROR_VERIFY),
        Ok(version) => {
            if component.image_version_fits(version) {
                let staged = component.with_staged(version);
                Finished {
                    status: codes::SUCCESS,
                    component: staged,
                }
            } else {
                failed(component, codes::ERROR_VERSION)
            }
        }
    }
}
