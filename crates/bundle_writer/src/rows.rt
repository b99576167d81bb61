// The row that refuses a list, and its number.
ghost use Rattle.std.specs.Prelude.{◌≡◌};
ghost use Rattle.bundle_writer.specs.Rows.{number_of, number_told};

use crate::WriteRefusal;

// The row that refuses what the writer is given (document 02, A3).
#[derive(Clone, Copy)]
pub enum WriteRow {
    W1 = 1,
    W2,
    W3,
    W4,
    W5,
    W6,
    W7,
    W8,
}

impl WriteRow {
    // The row's number.
    pub fn number(self) -> u8
        ensures { result ≡ number_of self }
    {
        self as u8
    }

    // The number of the row that an answer refuses by, or 0 where none does.
    pub fn number_told<T: Copy>(answer: Result<T, WriteRefusal>) -> u8
        ensures { result ≡ number_told answer }
    {
        match answer {
            Ok(_) => 0,
            Err(refusal) => refusal.row.number(),
        }
    }
}
