// The numbers that cross to C: rows of documents 01 and 02 as a letter's code, times 256, and a number; rows C1 to C4 of these crates. They stay numbers
// and no enums: the C interface, include/cfu.h, has them so.
ghost use Rattle.std.specs.Prelude.{◌≡◌};
ghost use Rattle.wire.specs.Rows.{row_of, told};
ghost use Rattle.c_types.specs.Numbers.{lettered_of, packet_number};

use wire::verdict::PacketRefusal;

// No refusal.
pub const SERVED: u32 = 0;

// C1: a record or contents are not of their size, or contents have a row over the last one, or no row and a count of offers over the limit or 0.
pub const WRONG_RECORD: u32 = 0x4301;

// C2: a list or a block of data that is read is not of its size.
pub const WRONG_LIST: u32 = 0x4302;

// C3: a buffer for what comes out is not of its size.
pub const WRONG_OUTPUT: u32 = 0x4303;

// C4: a place that the list, the device or the bundle does not have.
pub const WRONG_PLACE: u32 = 0x4304;

// The letters of the rows, above a row's number.
pub const ROW_P: u16 = 0x5000;

pub const ROW_S: u16 = 0x5300;

pub const ROW_D: u16 = 0x4400;

pub const ROW_B: u16 = 0x4200;

pub const ROW_W: u16 = 0x5700;

pub const ROW_N: u16 = 0x4E00;

pub const ROW_H: u16 = 0x4800;

// How far a host is that no row ended.
pub const RUNNING: u32 = 0;

pub const DONE: u32 = 1;

// The kind of a packet on the offer channel.
pub const KIND_NONE: u32 = 0;

pub const KIND_OFFER: u32 = 1;

pub const KIND_INFORMATION: u32 = 2;

pub const KIND_EXTENDED: u32 = 3;

// A row as it crosses: its letter's code and its number, or 0 where no row refuses.
pub fn lettered(letter: u16, number: u8) -> u32
    ensures { result ≡ lettered_of letter number }
{
    if number == 0 {
        SERVED
    } else {
        u32::from(letter) + u32::from(number)
    }
}

// The number of a packet's row.
pub fn packet_number(refusal: PacketRefusal) -> u32
    ensures { result ≡ packet_number (row_of refusal) }
{
    lettered(ROW_P, refusal.number())
}

// What a build or a read answers: the number of its row, and its bytes or fields, which are these zeros where a row refuses.
pub fn told<T: Copy>(answer: Result<T, PacketRefusal>, zeros: T) -> (u32, T)
    ensures number { result.0 ≡ packet_number (told zeros answer).row }
    ensures value { result.1 ≡ (told zeros answer).value }
{
    match answer {
        Ok(value) => (SERVED, value),
        Err(refusal) => (packet_number(refusal), zeros),
    }
}
