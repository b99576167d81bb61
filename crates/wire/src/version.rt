// A version: variant in bits 0-7, minor in bits 8-23, major in bits 24-31 (document 01, "Packets").
ghost use Rattle.std.specs.Prelude.{◌≡◌};
ghost use Rattle.wire.specs.Version.{version_of, read_version, version_at, major_of, minor_of, variant_of, version_bytes, release_of};

use crate::words::byte_at;

#[derive(Clone, Copy, Debug, Default, PartialEq, Eq)]
pub struct Version(u32);

impl Version {
    pub const VARIANT_BITS: u32 = 8;

    pub const MINOR_BITS: u32 = 16;

    pub const MAJOR_BITS: u32 = 8;
    // One minor, and one major, as the number counts them.
    const MINOR: u32 = 1 << Self::VARIANT_BITS;

    const MAJOR: u32 = 1 << (Self::VARIANT_BITS + Self::MINOR_BITS);

    // The only place that puts a version together.
    pub fn new(major: u8, minor: u16, variant: u8) -> Self
        ensures { result ≡ version_of major minor variant }
    {
        Version((variant as u32) + (minor as u32) * Self::MINOR + (major as u32) * Self::MAJOR)
    }

    // Four bytes of a packet: variant, minor with its low byte first, major.
    pub fn read(variant: u8, minor_low: u8, minor_high: u8, major: u8) -> Self
        ensures { result ≡ read_version variant minor_low minor_high major }
    {
        Version::new(major, u16::from_le_bytes([minor_low, minor_high]), variant)
    }

    // The version in the four bytes from a place on; past the end a byte is 0.
    pub fn read_at(p: &[u8], i: u16) -> Self
        ensures { result ≡ version_at i p.now }
    {
        let at = i as usize;
        Version::read(
            byte_at(p, at),
            byte_at(p, at + 1),
            byte_at(p, at + 2),
            byte_at(p, at + 3),
        )
    }

    pub fn major(self) -> u8
        ensures { result ≡ major_of self }
    {
        (self.0 / Self::MAJOR) as u8
    }

    pub fn minor(self) -> u16
        ensures { result ≡ minor_of self }
    {
        (self.0 / Self::MINOR % 65536) as u16
    }

    pub fn variant(self) -> u8
        ensures { result ≡ variant_of self }
    {
        (self.0 % Self::MINOR) as u8
    }

    // Its four bytes in a packet, as they are read.
    pub fn bytes(self) -> [u8; 4]
        ensures { result ≡ version_bytes self }
    {
        let [low, high] = self.minor().to_le_bytes();
        [self.variant(), low, high, self.major()]
    }

    // The 32-bit number.
    pub fn number(self) -> u32
        ensures { result ≡ self.0 }
    {
        self.0
    }

    // The number divided by 256, rounded down: major and minor, without the variant.
    pub fn release(self) -> u32
        ensures { result ≡ release_of self }
    {
        self.number() / Self::MINOR
    }
}
