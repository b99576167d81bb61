// Values as they are printed.
use std::fmt;
use wire::version::Version;

// Bytes in hexadecimal, a space between two.
#[derive(Clone, Copy)]
pub struct Hex<'a>(pub &'a [u8]);

// Bytes in hexadecimal, each behind a space.
#[derive(Clone, Copy)]
pub struct SpacedHex<'a>(pub &'a [u8]);

// Major, minor and variant of a version, in decimal.
#[derive(Clone, Copy)]
pub struct Dotted(pub Version);

impl fmt::Display for Hex<'_> {
    fn fmt<W: fmt::Write>(&self, f: &mut fmt::Formatter<W>) -> fmt::Result {
        let Some((first, others)) = self.0.split_first() else {
            return Ok(());
        };
        write!(f, "{first:02x}{}", SpacedHex(others))
    }
}

impl fmt::Display for SpacedHex<'_> {
    fn fmt<W: fmt::Write>(&self, f: &mut fmt::Formatter<W>) -> fmt::Result {
        for byte in self.0 {
            write!(f, " {byte:02x}")?;
        }
        Ok(())
    }
}

impl fmt::Display for Dotted {
    fn fmt<W: fmt::Write>(&self, f: &mut fmt::Formatter<W>) -> fmt::Result {
        let Dotted(version) = *self;
        write!(
            f,
            "{}.{}.{}",
            version.major(),
            version.minor(),
            version.variant()
        )
    }
}
