// The reply to a content packet (CFU 5.5.2), 16 bytes.
ghost use Rattle.std.specs.Prelude.{◌≡◌};
ghost use Rattle.wire_content.specs.Reply.{reply_bytes, told_reply, read_reply_of};

use wire::codes::SHORT_SIZE;
use wire::verdict::PacketRefusal;
use wire::words;

#[derive(Clone, Copy, Default)]
pub struct ContentReply {
    // Bytes 0-1.
    pub sequence: u16,
    // Byte 4.
    pub status: u8,
}

pub fn build_content_reply(r: ContentReply) -> [u8; SHORT_SIZE]
    ensures { result ≡ reply_bytes r }
{
    let s = words::bytes16(r.sequence);
    [s[0], s[1], 0, 0, r.status, 0, 0, 0, 0, 0, 0, 0, 0, 0, 0, 0]
}

#[tactic(auto, unfolding(crate::specs::Reply::read_reply_of))]
pub fn read_content_reply(p: &[u8]) -> Result<ContentReply, PacketRefusal>
    ensures { told_reply result ≡ read_reply_of p.now }
{
    if p.len() != SHORT_SIZE {
        return Err(PacketRefusal::P1);
    }
    Ok(ContentReply {
        sequence: words::word16(p[0], p[1]),
        status: p[4],
    })
}
