// The host's record (document 01, "The host").
ghost use Rattle.std.specs.Prelude.{◌≡◌};
ghost use Rattle.host_record.specs.Record.{fresh_host, ending_of, number_of, status_of, ending_in, told_progress, told_report, report_of, sequence_of};

use crate::report::Report;

// A record counts fewer packets than this.
pub const PACKET_LIMIT: u32 = 0x80000000;

// The offer in hand, and the BUSY replies that it had in this pass.
#[derive(Clone, Copy)]
pub struct Turn {
    pub entry: u32,
    pub busy: u32,
}

// A block: its entry, and its number in the entry's body.
#[derive(Clone, Copy)]
pub struct Place {
    pub entry: u32,
    pub block: u32,
}

// The block whose reply is awaited, and whether a copy of the reply before it was passed over meanwhile (document 02, A4).
#[derive(Clone, Copy)]
pub struct Awaited {
    pub place: Place,
    pub passed: bool,
}

// How a session ends.
#[derive(Clone, Copy)]
pub enum End {
    Done,
    // H1: a content status that is not 0.
    Status(u8),
    // H2: a reply that is not 16 bytes, or not ours.
    Foreign,
    // H3: a reply that the table has no step for.
    Unexpected,
    // H4: a ninth BUSY for one offer in one pass.
    Busy,
}

impl End {
    // The number of the row that ends it, 0 where it is done.
    pub fn number(self) -> u8
        ensures { result ≡ number_of (ending_of self) }
    {
        match self {
            End::Done => 0,
            End::Status(_) => 1,
            End::Foreign => 2,
            End::Unexpected => 3,
            End::Busy => 4,
        }
    }

    // The content status of H1, and 0 otherwise.
    pub fn status(self) -> u8
        ensures { result ≡ status_of (ending_of self) }
    {
        match self {
            End::Status(status) => status,
            _ => 0,
        }
    }
}

// What the host awaits.
#[derive(Clone, Copy)]
pub enum HostStage {
    // Nothing was sent yet.
    Fresh,
    // The reply to code 0.
    Opening,
    // The reply to code 1.
    Listing,
    // The reply to an offer.
    Offering(Turn),
    // The reply to notify on ready.
    Waiting(Turn),
    // The reply to a block.
    Sending(Awaited),
    // The reply to code 2.
    Closing,
    Ended(End),
}

#[derive(Clone, Copy)]
pub struct Host {
    pub token: u8,
    pub stage: HostStage,
    // Completed offers: bit i is entry i, counted from 0.
    pub mask: u32,
    pub packets: u32,
    pub passes: u32,
    // This pass had a SKIP; a completed image.
    pub skipped: bool,
    pub landed: bool,
}

// The sequence of block k.
pub fn sequence(k: u32) -> u16
    ensures { result ≡ sequence_of k }
{
    (k % 65536) as u16
}

// How a host ended; none while it runs.
fn progress(stage: HostStage) -> Option<End>
    ensures { told_progress result ≡ ending_in stage }
{
    match stage {
        HostStage::Ended(e) => Some(e),
        _ => None,
    }
}

impl Host {
    // A host that has sent nothing.
    pub fn fresh(token: u8) -> Self
        ensures { result ≡ fresh_host token }
    {
        Host {
            token,
            stage: HostStage::Fresh,
            mask: 0,
            packets: 0,
            passes: 0,
            skipped: false,
            landed: false,
        }
    }

    // The completed offers are the ones in the mask.
    pub fn report(self) -> Report
        ensures { told_report result ≡ report_of self }
    {
        Report {
            completed: u32::count_ones(self.mask),
            mask: self.mask,
            packets: self.packets,
            passes: self.passes,
            progress: progress(self.stage),
        }
    }
}
