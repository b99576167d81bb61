// Runs a script of frames (tests/host/README.md) against the host end: a line for each record that is set and for each step. The host's record is kept as
// its bytes.
#![tactic(auto)]

use arrayvec::ArrayVec;
use host::step::step;
use host_bytes::{HOST_SIZE, host_bytes, read_host};
use host_packet::answer::host_after;
use host_record::record::Host;
use run_print::script::{Frame, PAYLOAD_SIZE, run_script};
use std::io;
use std::io::Write;
use wire::words::byte_at;

mod told; // told.rt: what is printed of a step and of a record

// What a script runs against: the host's record, and the bundle.
#[derive(Drop)]
struct Bench {
    record: [u8; HOST_SIZE],
    bundle: ArrayVec<u8, PAYLOAD_SIZE>,
}

impl Bench {
    // The step on a reply, and the record that it leaves.
    fn run_step(&self, out: &mut impl Write, reply: &[u8]) -> io::Result<Host> {
        let before = read_host(&self.record);
        let told = step(before, self.bundle.as_slice(), reply);
        told::step(out, told)?;
        Ok(host_after(before, told))
    }

    // A frame `B` sets the bundle; each other one leaves a record, which is printed.
    fn run_frame(&mut self, out: &mut impl Write, frame: Frame<'_>) -> io::Result<()> {
        let p = frame.payload;
        let left = match frame.kind {
            b'B' => {
                self.bundle.clear();
                // A payload has at most PAYLOAD_SIZE bytes.
                return Ok(self.bundle.try_extend_from_slice(p).unwrap_or(()));
            }
            b'F' => Host::fresh(byte_at(p, 0)),
            b'K' => read_host(p),
            _ => self.run_step(out, p)?,
        };
        self.record = host_bytes(left);
        told::record(out, read_host(&self.record))
    }
}

fn main(rt: HostRuntime) -> io::Result<()> {
    let mut bench = Bench {
        record: [0; HOST_SIZE],
        bundle: ArrayVec::new(),
    };
    run_script(&rt, |out, frame| bench.run_frame(out, frame))
}
