// An address inside a component's region. An offset into the staging buffer is another type, and only a region's base turns this one into it.
ghost use Rattle.std.specs.Prelude.{◌≡◌};

#[derive(Clone, Copy)]
pub struct RegionAddress(u32);

impl RegionAddress {
    // The address with this number.
    pub fn new(number: u32) -> Self
        ensures { result ≡ record { 0 = number } }
    {
        RegionAddress(number)
    }

    // The 32-bit number.
    pub fn number(self) -> u32
        ensures { result ≡ self.0 }
    {
        self.0
    }
}
