// CRC-16/XMODEM: polynomial 0x1021, start 0, no reflection, no final change.
#![tactic(auto)]

ghost use Rattle.std.specs.Prelude.{◌≡◌};
ghost use Rattle.crc16.specs.Crc.{byte_step, crc_of};
ghost use Rattle.crc16.specs.Table.{crc_table, nibble_step};

// The numbers of `crc_table`, which has the rule of a table (`TableRule`).
const TABLE: [u16; 16] = [
    0x0000, 0x1021, 0x2042, 0x3063, 0x4084, 0x50A5, 0x60C6, 0x70E7, 0x8108, 0x9129, 0xA14A, 0xB16B,
    0xC18C, 0xD1AD, 0xE1CE, 0xF1EF,
];

// Four bits: the register shifted left by four, exclusive or with the entry of the bits that are shifted out.
fn nibble_step(table: &[u16; 16], r: u16) -> u16
    ensures { result ≡ nibble_step table.now r }
{
    (r << 4) ^ table[(r >> 12) as usize]
}

// One byte, by the CRC's own table: by exclusive or into the high half of the register, then four bits twice.
fn byte_step(table: &[u16; 16], r: u16, b: u8) -> u16
    requires { table.now ≡ crc_table }
    ensures { result ≡ byte_step r b }
{
    nibble_step(table, nibble_step(table, r ^ ((b as u16) << 8)))
}

// The CRC of all bytes that are lent; of none it is 0. The table is copied once for a call and lent to the steps: Rattle's compiler copies a constant wherever
// it is read.
pub fn crc16(bytes: &[u8]) -> u16
    ensures { result ≡ crc_of bytes.now }
{
    let table = TABLE;
    let mut r: u16 = 0;
    for b in bytes {
        r = byte_step(&table, r, *b);
    }
    r
}
