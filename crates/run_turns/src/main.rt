// Runs the cases of a script (tests/update/README.md) against both ends in turn, each packet of the host and its reply a line; then what is left of the
// device, whose record is changed in place. In a case of kind T some packets arrive twice.
#![tactic(auto)]

use arrayvec::ArrayVec;
use device_bytes::{DEVICE_SIZE, staging_len_in};
use device_in_place::content::content_in_place;
use device_in_place::offer::offer_in_place;
use host::step::step;
use host_record::record::Host;
use run_print::script::run_script;
use run_script::case::{Case, STAGING_SIZE};
use run_script::tell;
use std::io;
use std::io::Write;
use wire::codes::SHORT_SIZE;

// How many turns a run has at the most.
const TURNS: u32 = 100000;

// How many replies may be on their way at a time: more than packets of a case arrive twice, and one.
const PLACES: usize = 128;

// Both ends between two turns.
#[derive(Drop)]
struct Run<'a> {
    host: Host,
    bundle: &'a [u8],
    device: [u8; DEVICE_SIZE],
    staging: ArrayVec<u8, STAGING_SIZE>,
    // The replies on their way to the host, in the order in which they were sent.
    replies: ArrayVec<[u8; SHORT_SIZE], PLACES>,
    // A bit for each packet that arrives twice, and how many packets were sent.
    pattern: u64,
    sent: u32,
}

// The host has ended.
fn has_ended(h: Host) -> bool {
    h.report().progress.is_some()
}

impl Run<'_> {
    // A packet of the host arrives, and its first reply is put behind those on their way.
    fn arrives(&mut self, out: &mut impl Write, p: &[u8], again: bool) -> io::Result<()> {
        let a = if p.len() == SHORT_SIZE {
            offer_in_place(&mut self.device, &mut self.staging, p)
        } else {
            content_in_place(&mut self.device, &mut self.staging, p)
        };
        tell::exchange(out, p, again, a)?;
        if let Ok(sent) = a {
            if sent.due && !self.replies.is_full() {
                self.replies.push(sent.reply);
            }
        }
        Ok(())
    }

    // The packet that is sent next arrives twice.
    fn is_doubled(&self) -> bool {
        self.sent < u64::BITS && (self.pattern >> self.sent) % 2 == 1
    }

    // One turn: the host's step on the first reply on its way, or on no bytes where there is none, and what it sends arrives. True where the run is over: the
    // host has ended, or its step is refused.
    fn turn(&mut self, out: &mut impl Write) -> io::Result<bool> {
        let told = match self.replies.pop_at(0) {
            Some(reply) => step(self.host, self.bundle, &reply),
            None => step(self.host, self.bundle, &[]),
        };
        let Ok(a) = told else {
            return Ok(true);
        };
        self.host = a.host;
        let packet = &a.packet[..a.sent.size()];
        if !packet.is_empty() {
            self.arrives(out, packet, false)?;
            if self.is_doubled() {
                self.arrives(out, packet, true)?;
            }
            self.sent = self.sent.wrapping_add(1);
        }
        Ok(has_ended(a.host))
    }

    // The host and the device in turn.
    fn run_turns(&mut self, out: &mut impl Write) -> io::Result<()> {
        for _ in 0..TURNS {
            if self.turn(out)? {
                break;
            }
        }
        Ok(())
    }
}

// The staging buffer of a case: so many bytes of a value, and no more than it holds.
fn filled(value: u8, len: usize) -> ArrayVec<u8, STAGING_SIZE> {
    let mut staging = ArrayVec::new();
    for _ in 0..len {
        if !staging.is_full() {
            staging.push(value);
        }
    }
    staging
}

// A case with a pattern has the report too.
fn run_case(out: &mut impl Write, case: Case<'_>) -> io::Result<()> {
    let staging_len = staging_len_in(&case.record) as usize;
    if STAGING_SIZE < staging_len {
        return Ok(());
    }
    tell::record(out, &case.record)?;
    let mut run = Run {
        host: Host::fresh(case.token),
        bundle: case.bundle,
        device: case.record,
        staging: filled(case.fill, staging_len),
        replies: ArrayVec::new(),
        pattern: case.pattern.unwrap_or(0),
        sent: 0,
    };
    run.run_turns(out)?;
    if case.pattern.is_some() {
        tell::report(out, run.host.report())?;
    }
    tell::left(out, &run.device, &run.staging)
}

fn main(rt: HostRuntime) -> io::Result<()> {
    run_script(&rt, |out, frame| run_case(out, Case::read(frame)))
}
