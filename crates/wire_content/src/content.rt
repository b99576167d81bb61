// Content (CFU 5.5), 60 bytes: a block of an image.
ghost use Rattle.std.specs.Prelude.{◌≡◌, ◌≤◌, length};
ghost use Rattle.wire.specs.Codes.{long_size, packet_data_size};
ghost use Rattle.wire_content.specs.Content.{allowed, used_of, head_of, content_bytes, told_built, build_of, blank_content, fields_in, told_read, read_of};

use wire::address::RegionAddress;
use wire::codes::{DATA_AT, DATA_SIZE, FLAG_LAST_BLOCK, LONG_SIZE};
use wire::verdict::PacketRefusal;
use wire::words;

// The most bytes of data, as the length of a packet says it.
pub const DATA_LIMIT: u8 = DATA_SIZE as u8;

#[derive(Clone, Copy)]
pub struct ContentFields {
    // Byte 0: 0x80 first block, 0x40 last block.
    pub flags: u8,
    // Byte 1: how many bytes of data count.
    pub length: u8,
    // Bytes 2-3.
    pub sequence: u16,
    // Bytes 4-7.
    pub address: RegionAddress,
    // Bytes 8-59.
    pub data: [u8; DATA_SIZE],
}

// All fields zero.
impl Default for ContentFields {
    ghost is_default = { λ c. c ≡ blank_content };

    fn default() -> Self {
        ContentFields {
            flags: 0,
            length: 0,
            sequence: 0,
            address: RegionAddress::new(0),
            data: [0; DATA_SIZE],
        }
    }
}

// Not P2: no flag but the two, and a length from 1 to the limit.
fn is_allowed(flags: u8, length: u8) -> bool
    ensures { result ≡ allowed flags length }
{
    (flags % FLAG_LAST_BLOCK == 0) & (1 <= length) & (length <= DATA_LIMIT)
}

// Bytes 0-7.
pub fn head(flags: u8, length: u8, sequence: u16, address: RegionAddress) -> [u8; DATA_AT]
    ensures { result ≡ head_of flags length sequence address }
{
    let s = words::bytes16(sequence);
    let a = words::bytes32(address.number());
    [flags, length, s[0], s[1], a[0], a[1], a[2], a[3]]
}

// How many bytes of data count: the length, of all that there are.
fn used(length: u8) -> usize
    ensures count { result ≡ used_of length }
    ensures most { result ≤ packet_data_size }
{
    (length as usize).min(DATA_SIZE)
}

fn packet(c: ContentFields) -> [u8; LONG_SIZE]
    ensures { result ≡ content_bytes c }
{
    let n = used(c.length);
    let mut p = [0u8; LONG_SIZE];
    p[..DATA_AT].copy_from_slice(&head(c.flags, c.length, c.sequence, c.address));
    words::copy(&mut p[DATA_AT..DATA_AT + n], &c.data[..n]);
    p
}

#[tactic(auto, unfolding(crate::specs::Content::build_of))]
pub fn build_content(c: ContentFields) -> Result<[u8; LONG_SIZE], PacketRefusal>
    ensures { told_built result ≡ build_of c }
{
    if is_allowed(c.flags, c.length) {
        Ok(packet(c))
    } else {
        Err(PacketRefusal::P2)
    }
}

// The fields of a packet.
fn fields(p: &[u8]) -> ContentFields
    requires { length p.now ≡ long_size }
    ensures { result ≡ fields_in p.now }
{
    let n = used(p[1]);
    let mut data = [0u8; DATA_SIZE];
    words::copy(&mut data[..n], &p[DATA_AT..DATA_AT + n]);
    ContentFields {
        flags: p[0],
        length: p[1],
        sequence: words::word16(p[2], p[3]),
        address: RegionAddress::new(words::word32(p[4], p[5], p[6], p[7])),
        data,
    }
}

#[tactic(auto, unfolding(crate::specs::Content::read_of))]
pub fn read_content(p: &[u8]) -> Result<ContentFields, PacketRefusal>
    ensures { told_read result ≡ read_of p.now }
{
    if p.len() == LONG_SIZE {
        Ok(fields(p))
    } else {
        Err(PacketRefusal::P1)
    }
}
