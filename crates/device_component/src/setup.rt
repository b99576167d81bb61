// The verdict of set-up on a list of components and a staging length (document 01, "Numbered refusals"; S5: document 02, A5).
ghost use Rattle.std.specs.Prelude.{◌≡◌};
ghost use Rattle.device_component.specs.Setup.{number_of, number_told, staging_too_long, bad_count, bad_ids, bad_regions, bad_floors, setup_verdict};

use crate::list::{in_use, some_two};
use crate::record::Component;
use crate::rule::{bad_floor, bad_id, bad_region, overlaps};
use wire::codes::COMPONENT_LIMIT;

// The largest staging buffer.
pub const STAGING_LIMIT: u32 = 65536;

// The shortest region.
pub const REGION_LEAST: u32 = 8;

// The rows that refuse set-up.
#[derive(Clone, Copy, PartialEq, Eq)]
pub enum SetupRow {
    S1 = 1,
    S2 = 2,
    S3 = 3,
    S4 = 4,
    S5 = 5,
}

impl SetupRow {
    // The row's number.
    pub fn number(self) -> u8
        ensures { result ≡ number_of self }
    {
        self as u8
    }

    // The number of the row that an answer refuses by, or 0 where none does.
    pub fn number_told<T: Copy>(answer: Result<T, SetupRow>) -> u8
        ensures { result ≡ number_told answer }
    {
        match answer {
            Ok(_) => 0,
            Err(row) => row.number(),
        }
    }
}

pub fn staging_too_long(n: usize) -> bool
    ensures { result ≡ staging_too_long n }
{
    (STAGING_LIMIT as usize) < n
}

pub fn bad_count(count: u8) -> bool
    ensures { result ≡ bad_count count }
{
    (count < 1) | ((COMPONENT_LIMIT as u8) < count)
}

fn bad_ids(listed: &[Component]) -> bool
    ensures { result ≡ bad_ids listed.now }
{
    listed.iter().any(|c| bad_id(c.fixed.id)) | some_two(listed, |c, d| c.fixed.id == d.fixed.id)
}

fn bad_regions(n: usize, listed: &[Component]) -> bool
    ensures { result ≡ bad_regions n listed.now }
{
    listed.iter().any(|c| bad_region(n, c.fixed.region))
        | some_two(listed, |c, d| overlaps(c.fixed.region, d.fixed.region))
}

fn bad_floors(listed: &[Component]) -> bool
    ensures { result ≡ bad_floors listed.now }
{
    listed.iter().any(|c| bad_floor(c.fixed.floor))
}

// S1 to S5, row after row, each over the whole list.
pub fn setup_verdict(
    n: usize,
    count: u8,
    components: [Component; COMPONENT_LIMIT],
) -> Result<(), SetupRow>
    ensures { result ≡ setup_verdict n count components }
{
    if staging_too_long(n) {
        return Err(SetupRow::S1);
    }
    if bad_count(count) {
        return Err(SetupRow::S2);
    }
    let listed = in_use(&components, count);
    if bad_ids(listed) {
        return Err(SetupRow::S3);
    }
    if bad_regions(n, listed) {
        return Err(SetupRow::S4);
    }
    if bad_floors(listed) {
        return Err(SetupRow::S5);
    }
    Ok(())
}
