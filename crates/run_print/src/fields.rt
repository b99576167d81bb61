// The fields of a payload.
use wire::version::Version;

// The bytes of a payload that are not read yet. Fields are read from the front, numbers with the least significant byte first; past the end a byte is 0.
#[derive(Clone, Copy)]
pub struct Fields<'a>(pub &'a [u8]);

impl<'a> Fields<'a> {
    pub fn byte(&mut self) -> u8 {
        let Some((first, others)) = self.0.split_first() else {
            return 0;
        };
        self.0 = others;
        *first
    }

    pub fn word16(&mut self) -> u16 {
        u16::from_le_bytes([self.byte(), self.byte()])
    }

    pub fn word32(&mut self) -> u32 {
        u32::from_le_bytes([self.byte(), self.byte(), self.byte(), self.byte()])
    }

    pub fn version(&mut self) -> Version {
        Version::read(self.byte(), self.byte(), self.byte(), self.byte())
    }

    // The next N bytes; zeros, and nothing is left, where there are fewer.
    pub fn array<const N: usize>(&mut self) -> [u8; N] {
        let (taken, others) = self.0.split_at_checked(N).unwrap_or((&[], &[]));
        self.0 = others;
        taken.try_into().unwrap_or([0; N])
    }
}
