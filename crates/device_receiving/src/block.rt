// The bytes of a taken block (document 01, "The device", check 6).
ghost use Rattle.std.specs.Prelude.{◌≡◌, if◌then◌else◌};
ghost use Rattle.image.specs.Region.{erase_of};
ghost use Rattle.device_receiving.specs.Content.{take_block};

use crate::checks::is_first;
use image::region::Region;
use wire::words::least;
use wire_content::head::ContentHead;

// A first block erases the region.
fn erase_on_first(region: Region, first: bool, staging: &mut [u8])
    ensures { staging.new ≡ (if first then erase_of region staging.old else staging.old) }
{
    if first {
        region.erase(staging);
    }
}

// On first, fill the region with 0xFF; write the data.
pub(crate) fn take_block(region: Region, c: ContentHead, data: &[u8], staging: &mut [u8])
    ensures { staging.new ≡ take_block region c «data».now staging.old }
{
    let address = c.address;
    let n = least(c.length as usize, data.len());
    erase_on_first(region, is_first(c), staging);
    region.write(address, staging, &data[0..n]);
}
