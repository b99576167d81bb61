// The frames of a script, one after the other.
ghost use Rattle.std.specs.Prelude.{◌≤◌, IfOk, length};

use std::io;
use std::io::{BufReader, BufWriter, Printer, Read, Write};

// How many frames of a script a program runs at the most, and how long a payload may be.
pub const FRAMES: u32 = 1000000;

pub const PAYLOAD_SIZE: usize = 2048;

// What a program prints to.
pub type Out<'a> = BufWriter<Printer<'a, HostRuntime>>;

// Reads until the buffer is full or the input ends; gives how many bytes came, which std's `read_exact` does not.
pub fn read_full(input: &mut impl Read, buffer: &mut [u8]) -> io::Result<usize>
    ensures { IfOk result (λ n. n ≤ length buffer.new) }
{
    let mut done = 0;
    while done < buffer.len() {
        let n = input.read(&mut buffer[done..])?;
        if n == 0 {
            break;
        }
        done += n;
    }
    Ok(done)
}

// The next k bytes of the input, which come into the buffer; none where there are fewer, or the buffer is shorter.
pub fn read_first<'a>(
    input: &mut impl Read,
    buffer: &'a mut [u8],
    k: usize,
) -> io::Result<Option<&'a [u8]>> {
    let Some(wanted) = buffer.get_mut(..k) else {
        return Ok(None);
    };
    let n = read_full(input, wanted)?;
    Ok(if n == k { Some(wanted) } else { None })
}

#[derive(Clone, Copy)]
pub struct Frame<'a> {
    pub kind: u8,
    pub payload: &'a [u8],
}

// The next frame of the input: kind, length (2 bytes) and payload, which comes into the buffer. None where the script has ended or breaks off.
fn next<'a>(input: &mut impl Read, buffer: &'a mut [u8]) -> io::Result<Option<Frame<'a>>> {
    let mut head = [0u8; 3];
    if read_full(input, &mut head)? < head.len() {
        return Ok(None);
    }
    let [kind, low, high] = head;
    let len = u16::from_le_bytes([low, high]) as usize;
    let payload = read_first(input, buffer, len)?;
    Ok(payload.map(|payload| Frame { kind, payload }))
}

// Runs what a program does with a frame on each frame of a script in turn. The payload of `#` is printed instead.
fn for_each_frame<W: Write, F: FnMut(&mut W, Frame<'_>) -> io::Result<()>>(
    input: &mut impl Read,
    out: &mut W,
    mut run: F,
) -> io::Result<()>
    requires { F.IsAlwaysCallable run }
{
    let mut buffer = [0u8; PAYLOAD_SIZE];
    for _ in 0..FRAMES {
        let Some(frame) = next(input, &mut buffer)? else {
            break;
        };
        if frame.kind == b'#' {
            out.write_all(frame.payload)?;
        } else {
            run(out, frame)?;
        }
    }
    Ok(())
}

// Runs the script of standard input, and prints to standard output.
pub fn run_script<'a, F: FnMut(&mut Out<'a>, Frame<'_>) -> io::Result<()>>(
    rt: &'a HostRuntime,
    run: F,
) -> io::Result<()>
    requires { F.IsAlwaysCallable run }
{
    let mut input = BufReader::new(rt.alloc(), rt.reader())?;
    let mut out = BufWriter::new(rt.alloc(), io::writer(rt))?;
    for_each_frame(&mut input, &mut out, run)?;
    out.flush()
}
