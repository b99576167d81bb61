// A region of the staging buffer. An address inside a region and an offset into the buffer are two types, and only the region's base turns an address
// into an offset.
ghost use Rattle.std.specs.Prelude.{◌≡◌, ◌+◌, ◌^◌, ◌≤◌, ◌<◌, length};
ghost use Rattle.image.specs.Region.{place_of, is_inside, holds as holds_bytes, put as put_bytes, erase_of, write_of};

use wire::address::RegionAddress;
use wire::words::copy;

// An offset into the staging buffer. A type of its own beside `RegionAddress`, and no generic one for both: that would be no plainer, since the two are alike
// in nothing but their number.
#[derive(Clone, Copy)]
pub struct StagingOffset(u32);

impl StagingOffset {
    // The offset with this number.
    pub fn new(number: u32) -> Self
        ensures { result ≡ record { 0 = number } }
    {
        StagingOffset(number)
    }

    // The 32-bit number.
    pub fn number(self) -> u32
        ensures { result ≡ self.0 }
    {
        self.0
    }
}

#[derive(Clone, Copy)]
pub struct Region {
    pub base: StagingOffset,
    pub len: u32,
}

// What a byte is after an erase.
const ERASED: u8 = 0xFF;

// The bytes go into the buffer, from the offset on.
fn put(staging: &mut [u8], place: StagingOffset, bytes: &[u8])
    requires { place.0 + length bytes.now ≤ length staging.old }
    ensures { staging.new ≡ put_bytes place.0 bytes.now staging.old }
{
    let at = place.0 as usize;
    copy(&mut staging[at..at + bytes.len()], bytes);
}

impl Region {
    // It lies in a buffer of n bytes, and its end is a staging offset.
    pub fn is_inside(self, n: usize) -> bool
        ensures { result ≡ is_inside self n }
    {
        let end = (self.base.0 as u64) + (self.len as u64);
        (end <= (n as u64)) & (end < 0x100000000)
    }

    // It holds n bytes at an address. The sum of the two is not formed, so it does not wrap.
    pub fn holds(self, a: RegionAddress, n: usize) -> bool
        ensures { result ≡ holds_bytes self a n }
    {
        let len = self.len as usize;
        if len < n {
            return false;
        }
        (a.number() as usize) <= len - n
    }

    // The offset of an address: the region's base turns one into the other.
    fn place_of(self, a: RegionAddress) -> StagingOffset
        requires { self.base.0 + a.0 < 2 ^ 32 }
        ensures { result ≡ place_of self a }
    {
        StagingOffset(self.base.0 + a.number())
    }

    // Each of its bytes becomes 0xFF; a region that the buffer does not hold is left alone.
    #[tactic(auto, unfolding(crate::specs::Region::erase_of, crate::specs::Region::within, crate::specs::Region::blank))]
    pub fn erase(self, staging: &mut [u8])
        ensures { staging.new ≡ erase_of self staging.old }
    {
        let base = self.base.0 as usize;
        let end = ((self.base.0 as u64) + (self.len as u64)) as usize;
        if self.is_inside(staging.len()) {
            staging[base..end].fill(ERASED);
        }
    }

    // The bytes go in from the offset of the address on; nothing is written where the region does not hold them, or the buffer does not hold the region.
    #[tactic(auto, unfolding(crate::specs::Region::write_of))]
    pub fn write(self, a: RegionAddress, staging: &mut [u8], bytes: &[u8])
        ensures { staging.new ≡ write_of self a bytes.now staging.old }
    {
        if self.is_inside(staging.len()) & self.holds(a, bytes.len()) {
            put(staging, self.place_of(a), bytes);
        }
    }
}
