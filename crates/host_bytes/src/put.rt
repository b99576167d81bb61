// Words are stored from a place on.
ghost use Rattle.std.specs.Prelude.{◌≡◌, ◌++◌, length, take, drop, ◌+◌, ◌*◌, ◌≤◌};
ghost use Rattle.host_bytes.specs.Layout.{word_size, words_bytes};

use wire::words;

// The size of a word.
pub(crate) const WORD_SIZE: u16 = 4;

const STEP: usize = WORD_SIZE as usize;

pub(crate) fn put_words(out: &mut [u8], at: u16, values: &[u32])
    requires { at + length values.now * word_size ≤ length out.old }
    ensures { out.new ≡ take at out.old ++ (words_bytes values.now ++ drop (at + length values.now * word_size) out.old) }
{
    for (i, value) in values.iter().enumerate() {
        let b = words::bytes32(*value);
        let from = at as usize + i * STEP;
        words::copy(&mut out[from..from + STEP], &b);
    }
}
