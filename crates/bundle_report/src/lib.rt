// What a program prints of a check (document 01, E14).
#![tactic(auto)]

ghost use Rattle.std.specs.Prelude.{◌≡◌};
ghost use Rattle.bundle.specs.Contents.{told_checked};
ghost use Rattle.bundle_report.specs.Report.{line_of, input_of};

use bundle::check;
use bundle_layout::blank::refused;
use bundle_layout::{BundleRefusal, BundleRow, Checked, Entry};

// The numbers of an entry's line.
#[derive(Clone, Copy)]
pub struct Line {
    pub id: u8,
    pub major: u8,
    pub minor: u16,
    pub variant: u8,
    pub records: u32,
}

// The check of an input: what was read of it, and whether there is more than the buffer holds.
pub fn check_input(buffer: &[u8], more: bool) -> Result<Checked, BundleRefusal>
    ensures { told_checked result ≡ input_of more buffer.now }
{
    if more {
        return refused(BundleRow::B1, 0);
    }
    check(buffer)
}

// The numbers of the line of an entry.
pub fn line_of(e: Entry) -> Line
    ensures { result ≡ line_of e }
{
    let offer = e.offer;
    let version = offer.version;
    Line {
        id: offer.id,
        major: version.major(),
        minor: version.minor(),
        variant: version.variant(),
        records: e.records,
    }
}
