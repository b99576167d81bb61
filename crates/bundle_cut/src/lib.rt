// How an image is cut into the records of a body (document 02, A3): a cursor that steps from piece to piece.
#![tactic(auto)]

ghost use Rattle.std.specs.Prelude.{position, not, ◌==◌, ◌≡◌, ◌+◌, ◌<◌, ◌≤◌, length, drop};
ghost use Rattle.bundle_records.specs.Record.{data_limit};
ghost use Rattle.bundle_cut.specs.Cut.{erased_byte, run_at, reach, piece_at};

use bundle_records::DATA_LIMIT;
use wire::words::least;

// What an erase leaves.
pub const ERASED: u8 = 0xFF;

// The shortest run of it that is left out.
pub const RUN_LEAST: usize = 52;

// The bytes of the CRC, at the end of an image.
pub const CRC_SIZE: usize = 2;

// What stands at a place of the bytes before the CRC, with the place after it.
#[derive(Clone, Copy)]
pub enum Piece {
    End,
    // A run that is left out.
    Gap { to: usize },
    // The bytes of a record.
    Data { to: usize },
}

// Where the first byte stands that is not 0xFF.
fn first_other(d: &[u8]) -> Option<usize>
    ensures { result ≡ position (λ b. not (b == erased_byte)) d.now }
{
    d.iter().position(|b| *b != ERASED)
}

// How many bytes 0xFF stand from place x on.
fn run_at(d: &[u8], x: usize) -> usize
    requires { x ≤ length d.now }
    ensures { result ≡ run_at d.now x }
{
    match d[x..].split_first() {
        Some((byte, rest)) if *byte == ERASED => 1 + first_other(rest).unwrap_or(rest.len()),
        _ => 0,
    }
}

// Where the record at a place ends: 52 bytes on, at the end, or before a run that is left out. A run that is not left out is passed over in one step, with the
// byte after it. The loop stays a `while`: it skips from run to run, where a `for` or `find` over the places would look at each run once for each of its bytes.
fn record_end(d: &[u8], at: usize) -> usize
    requires { at < length d.now }
    ensures { result ≡ at + reach data_limit (drop at d.now) }
{
    let end = at + least(DATA_LIMIT as usize, d.len() - at);
    let mut x = at;
    while x < end {
        let run = run_at(d, x);
        if RUN_LEAST <= run {
            return x;
        }
        x += run + 1;
    }
    end
}

// The piece that begins at place `at`, where a walk from place 0 comes there. Over a whole walk each byte is looked at four times at most (no contract says so).
pub fn next_piece(d: &[u8], at: usize) -> Piece
    ensures { result ≡ piece_at d.now at }
{
    if d.len() <= at {
        return Piece::End;
    }
    let run = run_at(d, at);
    if RUN_LEAST <= run {
        return Piece::Gap { to: at + run };
    }
    Piece::Data {
        to: record_end(d, at),
    }
}
