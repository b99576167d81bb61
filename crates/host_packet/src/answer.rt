// What a step of the host answers.
ghost use Rattle.std.specs.Prelude.{◌≡◌};
ghost use Rattle.host_packet.specs.declared.answer.StepRefusal.TheVariants.{Bundle};
ghost use Rattle.host_packet.specs.Answer.{row_of, number_of, entry_of, number_told, entry_told, size_of, told};

use crate::packet::PACKET_SIZE;
use bundle_layout::BundleRefusal;
use host_record::record::Host;
use wire::codes::SHORT_SIZE;

// The row that refuses a step.
#[derive(Clone, Copy)]
pub enum StepRefusal {
    // The bundle's row, with its entry.
    Bundle(BundleRefusal),
    N1,
}

impl From<BundleRefusal> for StepRefusal {
    ghost from_gives = { λ r s. s ≡ Bundle r };

    fn from(r: BundleRefusal) -> StepRefusal {
        StepRefusal::Bundle(r)
    }
}

impl StepRefusal {
    // The row's number.
    pub fn number(self) -> u8
        ensures { result ≡ number_of (row_of self) }
    {
        match self {
            StepRefusal::Bundle(r) => r.row.number(),
            StepRefusal::N1 => 1,
        }
    }

    // The entry that the row names, or 0.
    pub fn entry(self) -> u8
        ensures { result ≡ entry_of (row_of self) }
    {
        match self {
            StepRefusal::Bundle(r) => r.place,
            StepRefusal::N1 => 0,
        }
    }

    // The number of the row that refuses, 0 for none.
    pub fn number_told<T: Copy>(answer: Result<T, StepRefusal>) -> u8
        ensures { result ≡ number_told answer }
    {
        match answer {
            Ok(_) => 0,
            Err(refusal) => refusal.number(),
        }
    }

    // The entry that the row names, or 0.
    pub fn entry_told<T: Copy>(answer: Result<T, StepRefusal>) -> u8
        ensures { result ≡ entry_told answer }
    {
        match answer {
            Ok(_) => 0,
            Err(refusal) => refusal.entry(),
        }
    }
}

// What is sent: nothing, the short packet at the start of the bytes, or all of them.
#[derive(Clone, Copy)]
pub enum Sent {
    Nothing,
    Offer,
    Content,
}

impl Sent {
    // How many bytes are sent.
    pub fn size(self) -> usize
        ensures { result ≡ size_of self }
    {
        match self {
            Sent::Nothing => 0,
            Sent::Offer => SHORT_SIZE,
            Sent::Content => PACKET_SIZE,
        }
    }
}

// What a step that no row refuses answers.
#[derive(Clone, Copy)]
pub struct StepAnswer {
    pub sent: Sent,
    // Zero where nothing is sent, and past what is sent.
    pub packet: [u8; PACKET_SIZE],
    pub host: Host,
}

// The record after a step: the next one, or the same where a row refuses.
pub fn host_after(host: Host, answer: Result<StepAnswer, StepRefusal>) -> Host
    ensures { result ≡ (told host answer).host }
{
    match answer {
        Ok(a) => a.host,
        Err(_) => host,
    }
}

// The bytes of the packet after a step: zeros where a row refuses.
pub fn packet_of(host: Host, answer: Result<StepAnswer, StepRefusal>) -> [u8; PACKET_SIZE]
    ensures { result ≡ (told host answer).packet }
{
    match answer {
        Ok(a) => a.packet,
        Err(_) => [0; PACKET_SIZE],
    }
}

// What was written into the packet: what is sent, and the place of the record after the one in hand.
#[derive(Clone, Copy)]
pub struct Written {
    pub sent: Sent,
    pub cursor: usize,
}

// What the inner step answers beside the packet that it writes: what is sent, the next record, and the place of the record after the one in hand.
#[derive(Clone, Copy)]
pub struct Stepped {
    pub sent: Sent,
    pub host: Host,
    pub cursor: usize,
}
