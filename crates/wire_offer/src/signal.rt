// Information (CFU 5.3) and extended (CFU 5.4), 16 bytes each: a code at byte 0, the kind at byte 2, a token at byte 3.
ghost use Rattle.std.specs.Prelude.{◌≡◌};
ghost use Rattle.wire_offer.specs.Signal.{signal_bytes, information_bytes, extended_bytes};

use wire::codes;
use wire::codes::SHORT_SIZE;

#[derive(Clone, Copy)]
pub struct Signal {
    // Byte 0.
    pub code: u8,
    // Byte 3.
    pub token: u8,
}

fn packet(s: Signal, kind: u8) -> [u8; SHORT_SIZE]
    ensures { result ≡ signal_bytes kind s }
{
    [s.code, 0, kind, s.token, 0, 0, 0, 0, 0, 0, 0, 0, 0, 0, 0, 0]
}

// Any code and any token: document 01 refuses none.
pub fn build_information(s: Signal) -> [u8; SHORT_SIZE]
    ensures { result ≡ information_bytes s }
{
    packet(s, codes::KIND_INFORMATION)
}

pub fn build_extended(s: Signal) -> [u8; SHORT_SIZE]
    ensures { result ≡ extended_bytes s }
{
    packet(s, codes::KIND_EXTENDED)
}
