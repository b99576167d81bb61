// The image in a region: bytes 0-3 its version, byte 4 its component, the last two bytes the CRC of all before them, high byte first.
ghost use Rattle.std.specs.Prelude.{◌≡◌};
ghost use Rattle.image.specs.Judge.{image_in};
ghost use Rattle.image.specs.Region.{region_bytes};

use crate::region::Region;
use crc16::crc16;
use wire::version::Version;

// Why bytes are no image of a component.
#[derive(Clone, Copy, Debug, PartialEq, Eq)]
pub enum ImageFault {
    // The CRC is wrong.
    Damaged,
    // The CRC is right, and the image is another component's.
    Foreign,
}

// What these bytes are, for the component with this id: CRC first, then id, then the version that they bear.
#[tactic(auto, unfolding(crate::specs::Judge::image_in))]
pub fn examine(m: &[u8], id: u8) -> Result<Version, ImageFault>
    ensures { result ≡ image_in m.now id }
{
    let n = m.len();
    if n < 8 {
        return Err(ImageFault::Damaged);
    }
    let body = n - 2;
    let held = u16::from_be_bytes([m[body], m[n - 1]]);
    let own = crc16(&m[..body]);
    if own != held {
        return Err(ImageFault::Damaged);
    }
    if m[4] != id {
        return Err(ImageFault::Foreign);
    }
    Ok(Version::read(m[0], m[1], m[2], m[3]))
}

impl Region {
    // The image in the region; of a region that is not wholly in the buffer, in the bytes that are.
    #[tactic(auto, unfolding(crate::specs::Region::region_bytes), using(crate::proofs::region::Lent::clamped))]
    pub fn image(self, staging: &[u8], id: u8) -> Result<Version, ImageFault>
        ensures { result ≡ image_in (region_bytes self staging.now) id }
    {
        let start = (self.base.number() as usize).min(staging.len());
        let end = start + (self.len as usize).min(staging.len() - start);
        examine(&staging[start..end], id)
    }
}
