// Both ends: the run of a fresh host against a device, and what it answers.
#![tactic(auto)]

ghost use Rattle.std.specs.Prelude.{◌≡◌, []};
ghost use Rattle.host_record.specs.Record.{told_report};
ghost use Rattle.update.specs.declared.RunRefusal.TheVariants.{Bundle};
ghost use Rattle.update.specs.Answer.{row_of, number_of, entry_of, number_told, entry_told, run_of, told};
ghost use Rattle.update.specs.Demand.{DemandOf};

use crate::turn::run_to_end;
use bundle::check;
use bundle_layout::BundleRefusal;
use device::record::Device;
use host_record::record::Host;
use host_record::report::Report;

pub mod turn; // turn.rt: one turn, and the turns until the host has ended

// The row that refuses a run.
#[derive(Clone, Copy)]
pub enum RunRefusal {
    // The bundle's row, with its entry.
    Bundle(BundleRefusal),
    // The device's rows.
    D1,
    D2,
}

impl From<BundleRefusal> for RunRefusal {
    ghost from_gives = { λ r s. s ≡ Bundle r };

    fn from(r: BundleRefusal) -> RunRefusal {
        RunRefusal::Bundle(r)
    }
}

impl RunRefusal {
    // The row's number.
    pub fn number(self) -> u8
        ensures { result ≡ number_of (row_of self) }
    {
        match self {
            RunRefusal::Bundle(r) => r.row.number(),
            RunRefusal::D1 => 1,
            RunRefusal::D2 => 2,
        }
    }

    // The entry that a bundle's row names, or 0.
    pub fn entry(self) -> u8
        ensures { result ≡ entry_of (row_of self) }
    {
        match self {
            RunRefusal::Bundle(r) => r.place,
            _ => 0,
        }
    }

    // The number of the row that refuses, 0 for none.
    pub fn number_told<T: Copy>(answer: Result<T, RunRefusal>) -> u8
        ensures { result ≡ number_told answer }
    {
        match answer {
            Ok(_) => 0,
            Err(refusal) => refusal.number(),
        }
    }

    // The entry that a bundle's row names, or 0.
    pub fn entry_told<T: Copy>(answer: Result<T, RunRefusal>) -> u8
        ensures { result ≡ entry_told answer }
    {
        match answer {
            Ok(_) => 0,
            Err(refusal) => refusal.entry(),
        }
    }
}

// What a run that no row refuses answers.
#[derive(Clone, Copy)]
pub struct RunAnswer {
    pub report: Report,
    pub device: Device,
}

// What a run leaves: its report and device, or the report of a host that has sent nothing and the device as it was where a row refuses.
pub fn left_by(token: u8, device: Device, answer: Result<RunAnswer, RunRefusal>) -> RunAnswer
    ensures report { told_report result.report ≡ (told token device answer []).report }
    ensures device { result.device ≡ (told token device answer []).device }
{
    match answer {
        Ok(left) => left,
        Err(_) => RunAnswer {
            report: Host::fresh(token).report(),
            device,
        },
    }
}

// The bundle's rows, D1 and D2; or the run, and demand 3 of its answer. A refused run sends nothing and changes nothing.
pub fn run(
    bundle: &[u8],
    token: u8,
    device: Device,
    staging: &mut [u8],
) -> Result<RunAnswer, RunRefusal>
    ensures { (told token device result staging.new ≡ run_of bundle.now token device staging.old)
        × DemandOf bundle.now token device staging.old (told token device result staging.new) }
{
    let checked = check(bundle)?;
    if device.breaks_d1() {
        return Err(RunRefusal::D1);
    }
    if staging.len() != (device.staging_len as usize) {
        return Err(RunRefusal::D2);
    }
    let e = run_to_end(checked, bundle, token, device, staging);
    Ok(RunAnswer {
        report: e.host.report(),
        device: e.device,
    })
}
