// Runs a script of frames (tests/device/README.md) against the device end. The device's record is kept as its bytes.
#![tactic(auto)]

use device::answer::Channel;
use device::record::Device;
use device::setup::{device_of, set_up};
use device_bytes::{DEVICE_SIZE, device_bytes, fields_in, read_list};
use run_print::fields::Fields;
use run_print::script::{Frame, run_script};
use run_print::show::Hex;
use run_script::tell;
use std::io;
use std::io::Write;
use wire::words::byte_at;

// How long the buffer is; a call is lent its first bytes.
const BUFFER_SIZE: usize = 65600;

// What a script runs against: the device's record, and the buffer.
#[derive(Drop)]
struct Bench {
    record: [u8; DEVICE_SIZE],
    buffer: [u8; BUFFER_SIZE],
}

fn run_set_up(out: &mut impl Write, asked: Fields<'_>, staging: &[u8]) -> io::Result<Device> {
    let mut fields = asked;
    let platform = fields.word16();
    let count = fields.byte();
    let made = set_up(platform, read_list(fields.0), count, staging);
    tell::set_up(out, made)?;
    Ok(device_of(made))
}

fn run_reset(out: &mut impl Write, d: Device) -> io::Result<Device> {
    let next = d.reset();
    tell::reset(out, next)?;
    Ok(d.after_reset(next))
}

impl Bench {
    // A call with the record and as many bytes as it is lent, and the record that it leaves. Nothing is called where more is lent than there is.
    fn run_call<W: Write, F: FnOnce(&mut W, Device, &mut [u8]) -> io::Result<Device>>(
        &mut self,
        out: &mut W,
        lent: u32,
        call: F,
    ) -> io::Result<()>
        requires { F.IsAlwaysCallable call }
    {
        let Some(staging) = self.buffer.get_mut(..lent as usize) else {
            return Ok(());
        };
        let left = call(out, fields_in(&self.record), staging)?;
        self.record = device_bytes(left);
        Ok(())
    }

    fn run_packet(
        &mut self,
        out: &mut impl Write,
        lent: u32,
        channel: Channel,
        packet: &[u8],
    ) -> io::Result<()> {
        match channel {
            Channel::Offer => write!(out, "offer {}: ", Hex(packet))?,
            Channel::Content => write!(out, "content {}: ", Hex(packet))?,
        }
        self.run_call(out, lent, |out, d, staging| {
            let a = d.serve(channel, staging, packet);
            tell::answer(out, d, a)?;
            Ok(d.after(a))
        })
    }

    fn run_version_reply(&self, out: &mut impl Write) -> io::Result<()> {
        tell::version_reply(out, fields_in(&self.record).version_reply())
    }

    // Shows a part of the buffer.
    fn show(&self, out: &mut impl Write, from: usize, count: usize) -> io::Result<()> {
        let part = self.buffer.get(from..).and_then(|s| s.get(..count));
        writeln!(out, "{}", Hex(part.unwrap_or(&[])))
    }

    fn run_frame(&mut self, out: &mut impl Write, frame: Frame<'_>) -> io::Result<()> {
        let p = frame.payload;
        let mut fields = Fields(p);
        // What a call is lent, or where the bytes stand that are shown.
        let n = fields.word32();
        match frame.kind {
            b'S' => self.run_call(out, n, |out, _, staging| run_set_up(out, fields, staging)),
            b'O' => self.run_packet(out, n, Channel::Offer, fields.0),
            b'C' => self.run_packet(out, n, Channel::Content, fields.0),
            b'R' => self.run_call(out, n, |out, d, _| run_reset(out, d)),
            b'V' => self.run_version_reply(out),
            b'D' => tell::record(out, &self.record),
            b'B' => self.show(out, n as usize, fields.byte() as usize),
            b'F' => {
                self.buffer.fill(byte_at(p, 0));
                Ok(())
            }
            b'K' => {
                self.record = p.try_into().unwrap_or(self.record);
                Ok(())
            }
            _ => Ok(()),
        }
    }
}

fn main(rt: HostRuntime) -> io::Result<()> {
    let mut bench = Bench {
        record: [0; DEVICE_SIZE],
        buffer: [0; BUFFER_SIZE],
    };
    run_script(&rt, |out, frame| bench.run_frame(out, frame))
}
