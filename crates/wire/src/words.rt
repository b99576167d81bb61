// Numbers in bytes, the least significant byte first, a copy of bytes, a fill and a comparison; the lesser of two numbers (document 01:
// numbers are little-endian unless said).
ghost use Rattle.std.specs.Prelude.{◌≡◌, [], ◌∷◌, min, length, get_or, replicate};
ghost use Rattle.wire.specs.Bytes.{number, bytes_of, bytes_at, copy_of, same as same_bytes};

pub fn word16(a: u8, b: u8) -> u16
    ensures { result ≡ number (a ∷ b ∷ []) }
{
    u16::from_le_bytes([a, b])
}

pub fn word24(a: u8, b: u8, c: u8) -> u32
    ensures { result ≡ number (a ∷ b ∷ c ∷ []) }
{
    u32::from_le_bytes([a, b, c, 0])
}

pub fn word32(a: u8, b: u8, c: u8, d: u8) -> u32
    ensures { result ≡ number (a ∷ b ∷ c ∷ d ∷ []) }
{
    u32::from_le_bytes([a, b, c, d])
}

// The byte at a place, 0 past the end; so too for the words below, which are two functions and no generic one: a width as a parameter would be no plainer,
// since each ends in another type of number.
pub fn byte_at(p: &[u8], i: usize) -> u8
    ensures { result ≡ get_or p.now i 0 }
{
    p.get(i).copied().unwrap_or(0)
}

pub fn word16_at(p: &[u8], i: u16) -> u16
    ensures { result ≡ number (bytes_at 2 i p.now) }
{
    let at = i as usize;
    word16(byte_at(p, at), byte_at(p, at + 1))
}

pub fn word32_at(p: &[u8], i: u16) -> u32
    ensures { result ≡ number (bytes_at 4 i p.now) }
{
    let at = i as usize;
    word32(
        byte_at(p, at),
        byte_at(p, at + 1),
        byte_at(p, at + 2),
        byte_at(p, at + 3),
    )
}

pub fn bytes16(v: u16) -> [u8; 2]
    ensures { result ≡ bytes_of 2 v }
{
    u16::to_le_bytes(v)
}

// The three low bytes of v.
pub fn bytes24(v: u32) -> [u8; 3]
    ensures { result ≡ bytes_of 3 v }
{
    let [a, b, c, _] = v.to_le_bytes();
    [a, b, c]
}

pub fn bytes32(v: u32) -> [u8; 4]
    ensures { result ≡ bytes_of 4 v }
{
    u32::to_le_bytes(v)
}

pub fn bytes64(v: usize) -> [u8; 8]
    ensures { result ≡ bytes_of 8 v }
{
    usize::to_le_bytes(v)
}

// target becomes source where both are equally long, and stays as it is otherwise.
// A loop, since std's `copy_from_slice` over a length that the compiler doesn't know calls `memmove`, which a library for C would need from outside.
pub fn copy(target: &mut [u8], source: &[u8])
    ensures { target.new ≡ copy_of target.old source.now }
{
    if target.len() == source.len() {
        for i in 0..target.len() {
            target[i] = source[i];
        }
    }
}

// Every byte becomes the value.
pub fn fill(s: &mut [u8], value: u8)
    ensures { s.new ≡ replicate (length s.old) value }
{
    s.fill(value);
}

// Both are equally long, and equal byte by byte.
#[tactic(auto, using(crate::proofs::words::Sames::by_pairs))]
pub fn same(a: &[u8], b: &[u8]) -> bool
    ensures { result ≡ same_bytes a.now b.now }
{
    a == b
}

// The lesser of the two.
pub fn least(a: usize, b: usize) -> usize
    ensures { result ≡ min a b }
{
    a.min(b)
}
