// The bundle's call from C, and the calls for a host's record (document 01, "The bundle" and "The host", rows B and C): a fresh one, and its report. The record
// is lent bytes.
#![tactic(auto)]

ghost use Rattle.std.specs.Prelude.{◌≡◌, cond, leb};
ghost use Rattle.host_record.specs.Fits.{packet_limit};
ghost use Rattle.host_record.specs.Record.{ending_of, status_of, told_progress};
ghost use Rattle.host_packet.specs.Answer.{row_n};
ghost use Rattle.c_types.specs.Numbers.{served_number};
ghost use Rattle.c_types.specs.Lent.{leaves};
ghost use Rattle.c_host.specs.Numbers.{step_number, ending_number};
ghost use Rattle.c_host.specs.Check.{told_check, check_call};
ghost use Rattle.c_host.specs.Host.{fresh_call, report_call};

use bundle::check;
use c_types::lent::store;
use c_types::numbers::{
    DONE, ROW_B, ROW_H, ROW_N, RUNNING, SERVED, WRONG_OUTPUT, WRONG_RECORD, lettered,
};
use c_types::types::{CCheck, CReport};
use host_bytes::{CONTENTS_SIZE, HOST_SIZE, contents_bytes, host_bytes, read_host};
use host_packet::answer::StepRefusal;
use host_record::record::{End, Host, PACKET_LIMIT};
use wire::words;

// The check of a bundle; its contents are left for cfu_host_step_checked.
#[tactic(auto, unfolding(crate::specs::Check::check_call))]
pub fn cfu_bundle_check(bundle: &[u8], contents: &mut [u8]) -> CCheck
    ensures { told_check result contents.new ≡ check_call bundle.now contents.old }
{
    if contents.len() != CONTENTS_SIZE {
        return CCheck {
            number: WRONG_OUTPUT,
            entry: 0,
            count: 0,
        };
    }
    let told = check(bundle);
    let b = contents_bytes(told);
    words::copy(contents, &b);
    match told {
        Ok(c) => CCheck {
            number: SERVED,
            entry: 0,
            count: c.count as u32,
        },
        Err(r) => CCheck {
            number: lettered(ROW_B, r.row.number()),
            entry: r.place as u32,
            count: 0,
        },
    }
}

pub fn cfu_host_fresh(host: &mut [u8], token: u8) -> u32
    ensures { leaves result host.new ≡ fresh_call host.old token }
{
    if host.len() != HOST_SIZE {
        return WRONG_RECORD;
    }
    let h = Host::fresh(token);
    let b = host_bytes(h);
    store(host, SERVED, &b)
}

// N1 for a record that counts more packets than any host may.
fn report_number(packets: u32) -> u32
    ensures { result ≡ cond (leb packet_limit packets) (step_number (row_n 1)) served_number }
{
    if PACKET_LIMIT <= packets {
        lettered(ROW_N, StepRefusal::N1.number())
    } else {
        SERVED
    }
}

// 1 where a host is done, or the row that ended it.
fn end_number(end: End) -> u32
    ensures { result ≡ ending_number (ending_of end) }
{
    let number = end.number();
    if number == 0 {
        DONE
    } else {
        ROW_H as u32 + number as u32
    }
}

fn ending_number(progress: Option<End>) -> u32
    ensures { result ≡ ending_number (told_progress progress) }
{
    match progress {
        None => RUNNING,
        Some(end) => end_number(end),
    }
}

fn ending_status(progress: Option<End>) -> u32
    ensures { result ≡ status_of (told_progress progress) }
{
    match progress {
        None => 0,
        Some(end) => end.status() as u32,
    }
}

pub fn cfu_host_report(host: &[u8]) -> CReport
    ensures { result ≡ report_call host.now }
{
    if host.len() != HOST_SIZE {
        return CReport {
            number: WRONG_RECORD,
            completed: 0,
            mask: 0,
            packets: 0,
            passes: 0,
            ending: 0,
            status: 0,
        };
    }
    let h = read_host(host);
    let r = h.report();
    let progress = r.progress;
    CReport {
        number: report_number(r.packets),
        completed: r.completed,
        mask: r.mask,
        packets: r.packets,
        passes: r.passes,
        ending: ending_number(progress),
        status: ending_status(progress),
    }
}
