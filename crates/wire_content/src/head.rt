// The first eight bytes of content (CFU 5.5): all but its data.
ghost use Rattle.std.specs.Prelude.{◌≡◌};
ghost use Rattle.wire_content.specs.Head.{head_in};

use wire::address::RegionAddress;
use wire::words;

#[derive(Clone, Copy)]
pub struct ContentHead {
    // Byte 0: 0x80 first block, 0x40 last block.
    pub flags: u8,
    // Byte 1: how many bytes of data count.
    pub length: u8,
    // Bytes 2-3.
    pub sequence: u16,
    // Bytes 4-7.
    pub address: RegionAddress,
}

// Bytes that are missing are read as zero.
pub fn read_head(p: &[u8]) -> ContentHead
    ensures { result ≡ head_in p.now }
{
    ContentHead {
        flags: words::byte_at(p, 0),
        length: words::byte_at(p, 1),
        sequence: words::word16_at(p, 2),
        address: RegionAddress::new(words::word32_at(p, 4)),
    }
}
