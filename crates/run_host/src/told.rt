// What is printed of a step and of a record.
use host_packet::answer::{StepAnswer, StepRefusal};
use host_record::record::{Host, HostStage};
use run_print::show::Hex;
use run_script::tell;
use std::io;
use std::io::Write;

fn refusal(out: &mut impl Write, r: StepRefusal) -> io::Result<()> {
    match r {
        StepRefusal::Bundle(r) => write!(out, "refused B{} {}, ", r.row.number(), r.place),
        StepRefusal::N1 => write!(out, "refused N1, "),
    }
}

// The words before the record that a step leaves.
pub fn step(out: &mut impl Write, told: Result<StepAnswer, StepRefusal>) -> io::Result<()> {
    match told {
        Ok(a) if a.sent.size() != 0 => {
            return write!(out, "sent {}; ", Hex(&a.packet[..a.sent.size()]));
        }
        Ok(_) => {}
        Err(r) => refusal(out, r)?,
    }
    write!(out, "nothing; ")
}

// The stage or the end, with its numbers.
fn stage(out: &mut impl Write, s: HostStage) -> io::Result<()> {
    match s {
        HostStage::Fresh => write!(out, "fresh"),
        HostStage::Opening => write!(out, "opening"),
        HostStage::Listing => write!(out, "listing"),
        HostStage::Offering(t) => write!(out, "offering {} busy {}", t.entry, t.busy),
        HostStage::Waiting(t) => write!(out, "waiting {} busy {}", t.entry, t.busy),
        HostStage::Sending(a) => {
            write!(out, "sending {} block {}", a.place.entry, a.place.block)
        }
        HostStage::Closing => write!(out, "closing"),
        HostStage::Ended(e) => tell::end(out, e),
    }
}

// A record: stage or end with its numbers, token, mask, packets, passes, whether this pass had a SKIP and a completed image, and whether a reply was passed
// over.
pub fn record(out: &mut impl Write, h: Host) -> io::Result<()> {
    stage(out, h.stage)?;
    write!(out, ", token {:02x}, mask {:08x}", h.token, h.mask)?;
    write!(out, ", packets {}, passes {}", h.packets, h.passes)?;
    if h.skipped {
        write!(out, ", skipped")?;
    }
    if h.landed {
        write!(out, ", landed")?;
    }
    if matches!(h.stage, HostStage::Sending(a) if a.passed) {
        write!(out, ", passed")?;
    }
    writeln!(out)
}
