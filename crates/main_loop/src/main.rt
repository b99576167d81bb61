// A firmware's main loop around the device end (document 01, "The device"). Standard input stands for the bus: a frame is a channel, a length and a packet.
#![tactic(auto)]

ghost use Rattle.std.specs.Prelude.{◌≡◌};
ghost use Rattle.main_loop.specs.declared.Frame.TheVariants.{Packet};
ghost use Rattle.device.specs.Entries.{serve_entry, serve_staging};

use device::answer::Channel;
use device::record::Device;
use device::setup::{device_of, set_up};
use device::version_reply::packet_of;
use device_component::record::{Fixed, Listed};
use firmware::serve_in_place;
use image::region::{Region, StagingOffset};
use run_print::script::{read_first, read_full};
use run_print::show::Hex;
use run_script::tell;
use std::io;
use std::io::{BufReader, BufWriter, Read, Write};
use wire::codes::LONG_SIZE;
use wire::version::Version;

// The loop ends after 2^64 - 1 turns at the latest. A turn takes one frame.
const TURNS: u64 = u64::MAX;

// A component of the bench device, with 64 bytes of the staging buffer.
fn listed(id: u8, running: Version, floor: Version, base: u32) -> Listed {
    let region = Region {
        base: StagingOffset::new(base),
        len: 64,
    };
    let fixed = Fixed { id, region, floor };
    Listed { fixed, running }
}

// The bench device of document 01: platform 0x0042, two components. The second has a floor above its running version (document 02, A5): the next that it takes is
// 1.3 or later.
fn bench(out: &mut impl Write, staging: &[u8]) -> io::Result<Device> {
    let none = Version::new(0, 0, 0);
    let first = listed(1, Version::new(1, 2, 0), none, 0);
    let second = listed(2, Version::new(1, 1, 0), Version::new(1, 3, 0), 64);
    let unused = listed(0, none, none, 0);
    let made = set_up(
        0x0042,
        [first, second, unused, unused, unused, unused, unused],
        2,
        staging,
    );
    tell::set_up(out, made)?;
    Ok(device_of(made))
}

// A frame of the bus.
#[derive(Clone, Copy)]
enum Frame<'a> {
    // A packet for the device.
    Packet(Channel, &'a [u8]),
    // The host asks which versions run.
    Versions,
    // The device was reset: staged versions run.
    Reset,
    // On a channel that there is not.
    Unknown,
}

impl<'a> Frame<'a> {
    // By its channel's letter.
    fn by_letter(letter: u8, packet: &'a [u8]) -> Self {
        match letter {
            b'O' => Frame::Packet(Channel::Offer, packet),
            b'C' => Frame::Packet(Channel::Content, packet),
            b'V' => Frame::Versions,
            b'R' => Frame::Reset,
            _ => Frame::Unknown,
        }
    }
}

// The next frame, whose packet comes into the buffer. None where the input has ended or breaks off.
fn next_frame<'a>(
    input: &mut impl Read,
    out: &mut impl Write,
    buffer: &'a mut [u8],
) -> io::Result<Option<Frame<'a>>> {
    let mut head = [0u8; 2];
    let got = read_full(input, &mut head)?;
    if got == 0 {
        return Ok(None);
    }
    let [letter, len] = head;
    if got == head.len() {
        if let Some(packet) = read_first(input, buffer, len as usize)? {
            return Ok(Some(Frame::by_letter(letter, packet)));
        }
    }
    writeln!(out, "cut frame")?;
    Ok(None)
}

// One frame. A packet for the device changes the lent record in place, and what is due goes out.
fn turn(
    out: &mut impl Write,
    device: &mut Device,
    staging: &mut [u8],
    frame: Frame<'_>,
) -> io::Result<()>
    ensures { (channel : _) (packet : _) → frame.entry ≡ Packet channel packet
        → (device.new ≡ (serve_entry device.old channel staging.old packet.now).device)
        × (staging.new ≡ serve_staging device.old channel staging.old packet.now) }
{
    match frame {
        Frame::Packet(channel, packet) => {
            let before = *device;
            let answer = serve_in_place(device, channel, staging, packet);
            tell::answer(out, before, answer)
        }
        Frame::Versions => { writeln!(out, "versions {}", Hex(&packet_of(device.version_reply()))) }
        Frame::Reset => {
            *device = device.after_reset(device.reset());
            writeln!(out, "reset")
        }
        Frame::Unknown => writeln!(out, "unknown channel"),
    }
}

// The loop: it owns the record and lends it to each turn, which leaves in it what the next turn begins with. What a turn prints is out before the next frame
// is awaited. It ends where the input ends.
fn serve(
    input: &mut impl Read,
    out: &mut impl Write,
    start: Device,
    staging: &mut [u8],
) -> io::Result<()> {
    let mut device = start;
    let mut buffer = [0u8; 255];
    for _ in 0..TURNS {
        out.flush()?;
        let Some(frame) = next_frame(input, out, &mut buffer)? else {
            break;
        };
        turn(out, &mut device, staging, frame)?;
    }
    Ok(())
}

// Set-up, and then the loop.
fn main(rt: HostRuntime) -> io::Result<()> {
    let mut input = BufReader::new(rt.alloc(), rt.reader())?;
    let mut out = BufWriter::new(rt.alloc(), io::writer(&rt))?;
    let mut staging = [0u8; 128];
    let device = bench(&mut out, &staging)?;
    serve(&mut input, &mut out, device, &mut staging)?;
    out.flush()
}
