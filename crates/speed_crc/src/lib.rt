// The CRC both ways, by the table of `crc16` and bit by bit as the base took it, for the measurement of tests/speed: the updater does not call this crate.
#![tactic(auto)]

ghost use Rattle.std.specs.Prelude.{◌≡◌};
ghost use Rattle.crc16.specs.Crc.{bit_step, byte_step, crc_of};

use crc16::crc16;

// One bit: the register shifted left, with the polynomial where the bit that is shifted out is 1.
fn bit_step(r: u16) -> u16
    ensures { result ≡ bit_step r }
{
    if r < 0x8000 {
        r << 1
    } else {
        (r << 1) ^ 0x1021
    }
}

// One byte: into the high half of the register, then eight bits.
fn byte_step(r: u16, b: u8) -> u16
    ensures { result ≡ byte_step r b }
{
    let mut x = r ^ ((b as u16) << 8);
    for _ in 0..8u8 {
        x = bit_step(x);
    }
    x
}

#[unsafe(no_mangle)]
pub extern "C" fn crc16_by_bits(bytes: &[u8]) -> u16
    ensures { result ≡ crc_of bytes.now }
{
    let mut r: u16 = 0;
    for b in bytes {
        r = byte_step(r, *b);
    }
    r
}

#[unsafe(no_mangle)]
pub extern "C" fn crc16_by_table(bytes: &[u8]) -> u16
    ensures { result ≡ crc_of bytes.now }
{
    crc16(bytes)
}
