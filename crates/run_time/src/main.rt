// Runs the bundle of standard input as often as its argument says, each time against the same fresh device, and prints the last report (tests/time).
#![tactic(auto)]

use device::setup::{device_of, set_up};
use device_component::record::{Fixed, Listed};
use host_record::record::End;
use host_record::report::Report;
use image::region::{Region, StagingOffset};
use run_print::script::read_full;
use std::io::{BufWriter, Write};
use std::{env, io};
use wire::codes::COMPONENT_LIMIT;
use wire::version::Version;

// The longest argument that is read.
const WORD_SIZE: usize = 16;

// How much of a bundle is read.
const BUNDLE_SIZE: usize = 65536;

// A decimal number with one more digit; what is no digit, or too much, is passed over.
fn with_digit(n: u32, byte: u8) -> u32 {
    match byte {
        b'0'..=b'9' if n < 100000000 => n * 10 + u32::from(byte - b'0'),
        _ => n,
    }
}

// The decimal number in an argument; one that is longer than 16 bytes counts as missing.
fn number_in(word: &[u8]) -> u32 {
    if word.len() <= WORD_SIZE {
        word.iter().fold(0, |n, byte| with_digit(n, *byte))
    } else {
        0
    }
}

// Component 1 runs 1.0.0 and has the whole staging buffer.
fn listed() -> Listed {
    let region = Region {
        base: StagingOffset::new(0),
        len: 64,
    };
    let fixed = Fixed {
        id: 1,
        region,
        floor: Version::new(0, 0, 0),
    };
    let running = Version::new(1, 0, 0);
    Listed { fixed, running }
}

// One run, from a fresh device and a staging buffer of zeros.
fn run_once(bundle: &[u8], token: u8) -> Report {
    let mut staging = [0u8; 64];
    let made = set_up(0x0042, [listed(); COMPONENT_LIMIT], 1, &staging);
    let device = device_of(made);
    let answer = update::run(bundle, token, device, &mut staging);
    update::left_by(token, device, answer).report
}

// So many runs, and at least one; the last one's report.
fn run_all(bundle: &[u8], times: u32) -> Report {
    let mut last = run_once(bundle, 0);
    for k in 1..times {
        last = run_once(bundle, (k % 256) as u8);
    }
    last
}

fn print(out: &mut impl Write, r: Report) -> io::Result<()> {
    let end = match r.progress {
        Some(End::Done) => "done",
        _ => "not done",
    };
    write!(out, "{end}, packets {}, passes {}", r.packets, r.passes)?;
    writeln!(out, ", completed {}", r.completed)
}

fn main(rt: HostRuntime) -> io::Result<()> {
    let times = env::args(&rt)?
        .nth(1)
        .map_or(0, |word| number_in(word.as_bytes()));
    let mut buffer = [0u8; BUNDLE_SIZE];
    let n = read_full(&mut rt.reader(), &mut buffer)?;
    let report = run_all(&buffer[..n], times);
    let mut out = BufWriter::new(rt.alloc(), io::writer(&rt))?;
    print(&mut out, report)?;
    out.flush()
}
