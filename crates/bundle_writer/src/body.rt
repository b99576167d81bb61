// The body of an image: its length and its bytes, by one walk each over the pieces of the image.
ghost use Rattle.std.specs.Prelude.{◌≡◌, ◌+◌, ◌≤◌, length};
ghost use Rattle.image.specs.Region.{put};
ghost use Rattle.device_component.specs.Setup.{staging_limit};
ghost use Rattle.bundle_records.specs.Record.{data_limit, block_bytes};
ghost use Rattle.bundle_cut.specs.Cut.{crc_place, image_body};

use crate::out::put_at;
use bundle_cut::{CRC_SIZE, Piece, next_piece};
use wire::words::{bytes32, least};

// What stands before the data of a record: its address (4) and its length (1).
const RECORD_HEAD: usize = 5;

// The place of an image's CRC.
fn crc_place(m: &[u8]) -> usize
    ensures { result ≡ crc_place m.now }
{
    m.len() - least(CRC_SIZE, m.len())
}

// How long the body of an image is. This and put_body stay loops with a match: each piece says where the next begins, and the last piece what is answered.
pub(crate) fn body_length(m: &[u8]) -> usize
    requires { length m.now ≤ staging_limit }
    ensures { result ≡ length (image_body m.now) }
{
    let crc = crc_place(m);
    let mut at: usize = 0;
    let mut size = RECORD_HEAD + (m.len() - crc);
    loop {
        let p = next_piece(&m[..crc], at);
        match p {
            Piece::End => return size,
            Piece::Gap { to } => at = to,
            Piece::Data { to } => {
                size += RECORD_HEAD + (to - at);
                at = to;
            }
        }
    }
}

// A record goes into the output.
fn put_record(out: &mut [u8], at: usize, address: u32, bytes: &[u8])
    requires { (length bytes.now ≤ data_limit) × (at + (5 + length bytes.now) ≤ length out.old) }
    ensures { out.new ≡ put at (block_bytes (record { address = record { 0 = address }; bytes = bytes.now })) out.old }
{
    put_at(out, at, &bytes32(address));
    put_at(out, at + 4, &[bytes.len() as u8]);
    put_at(out, at + RECORD_HEAD, bytes);
}

// The body of an image goes into the output; gives the place after it.
pub(crate) fn put_body(out: &mut [u8], start: usize, m: &[u8]) -> usize
    requires { (length m.now ≤ staging_limit) × (start + length (image_body m.now) ≤ length out.old) }
    ensures { (result ≡ start + length (image_body m.now)) × (out.new ≡ put start (image_body m.now) out.old) }
{
    let crc = crc_place(m);
    let mut at: usize = 0;
    let mut end = start;
    loop {
        let p = next_piece(&m[..crc], at); // runs are of the bytes before the CRC
        match p {
            Piece::End => {
                put_record(out, end, crc as u32, &m[crc..]);
                return end + RECORD_HEAD + (m.len() - crc);
            }
            Piece::Gap { to } => at = to,
            Piece::Data { to } => {
                put_record(out, end, at as u32, &m[at..to]);
                end += RECORD_HEAD + (to - at);
                at = to;
            }
        }
    }
}
