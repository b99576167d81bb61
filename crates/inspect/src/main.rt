// Reads a bundle from standard input and prints what it contains, or the row that refuses it (document 01, E14).
#![tactic(auto)]

use bundle_layout::Entry;
use bundle_report::{Line, check_input, line_of};
use run_print::script::read_full;
use std::io;
use std::io::{BufWriter, Read, Write};

fn print_entry(out: &mut impl Write, e: Entry) -> io::Result<()> {
    let Line {
        id,
        major,
        minor,
        variant,
        records,
    } = line_of(e);
    writeln!(out, "{id} {major}.{minor}.{variant} records {records}")
}

// What the bundle contains, or what refuses it; more bytes than the buffer holds are too many.
fn run(input: &mut impl Read, out: &mut impl Write) -> io::Result<()> {
    let mut buffer = [0u8; 65536];
    let n = read_full(input, &mut buffer)?;
    let more = 0 < read_full(input, &mut [0u8; 1])?;
    let c = match check_input(&buffer[..n], more) {
        Ok(c) => c,
        Err(r) => return writeln!(out, "refused B{} {}", r.row.number(), r.place),
    };
    writeln!(out, "offers {}", c.count)?;
    for e in c.table.iter().take(c.count as usize) {
        print_entry(out, *e)?;
    }
    Ok(())
}

fn main(rt: HostRuntime) -> io::Result<()> {
    let mut out = BufWriter::new(rt.alloc(), io::writer(&rt))?;
    run(&mut rt.reader(), &mut out)?;
    out.flush()
}
