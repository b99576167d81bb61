// Runs the cases of a script (tests/update/README.md) by `run`: what it answers, and what is left of the device.
#![tactic(auto)]

use device_bytes::{device_bytes, fields_in};
use run_print::script::run_script;
use run_script::case::{Case, STAGING_SIZE};
use run_script::tell;
use std::io;
use std::io::Write;
use update::{RunRefusal, left_by, run};

fn refusal(out: &mut impl Write, r: RunRefusal) -> io::Result<()> {
    match r {
        RunRefusal::Bundle(r) => write!(out, "refused B{} {}; ", r.row.number(), r.place),
        _ => write!(out, "refused D{}; ", r.number()),
    }
}

fn run_case(out: &mut impl Write, case: Case<'_>) -> io::Result<()> {
    let device = fields_in(&case.record);
    let mut buffer = [case.fill; STAGING_SIZE];
    let Some(staging) = buffer.get_mut(..device.staging_len as usize) else {
        return Ok(());
    };
    let answer = run(case.bundle, case.token, device, staging);
    if let Err(r) = answer {
        refusal(out, r)?;
    }
    let left = left_by(case.token, device, answer);
    tell::report(out, left.report)?;
    tell::left(out, &device_bytes(left.device), staging)
}

fn main(rt: HostRuntime) -> io::Result<()> {
    run_script(&rt, |out, frame| match frame.kind {
        b'R' => run_case(out, Case::read(frame)),
        _ => Ok(()),
    })
}
