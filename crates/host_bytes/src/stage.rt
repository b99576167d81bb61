// What the host awaits as a number and two words, zero where the stage has none: the entry and its BUSY replies, the entry and the block, or the end.
ghost use Rattle.std.specs.Prelude.{◌≡◌};
ghost use Rattle.host_bytes.specs.Layout.{stage_words, passed_in, end_in, stage_in};

use host_record::record::{Awaited, End, HostStage, Place, Turn};

// The numbers of two stages: the reply to a block is awaited; the host has ended.
pub(crate) const SENDING: u8 = 5;

pub const ENDED: u8 = 7;

#[derive(Clone, Copy)]
pub(crate) struct StageWords {
    pub number: u8,
    pub first: u32,
    pub second: u32,
}

impl StageWords {
    // A stage that has no words.
    fn bare(number: u8) -> Self
        ensures { result ≡ record { number = number; first = 0; second = 0 } }
    {
        StageWords {
            number,
            first: 0,
            second: 0,
        }
    }
}

pub(crate) fn stage_words(stage: HostStage) -> StageWords
    ensures { result ≡ stage_words stage }
{
    match stage {
        HostStage::Fresh => StageWords::bare(0),
        HostStage::Opening => StageWords::bare(1),
        HostStage::Listing => StageWords::bare(2),
        HostStage::Offering(t) => StageWords {
            number: 3,
            first: t.entry,
            second: t.busy,
        },
        HostStage::Waiting(t) => StageWords {
            number: 4,
            first: t.entry,
            second: t.busy,
        },
        HostStage::Sending(a) => StageWords {
            number: SENDING,
            first: a.place.entry,
            second: a.place.block,
        },
        HostStage::Closing => StageWords::bare(6),
        HostStage::Ended(e) => StageWords {
            number: ENDED,
            first: e.number() as u32,
            second: e.status() as u32,
        },
    }
}

// A reply was passed over while a block's is awaited; never in another stage.
pub(crate) fn passed_in(stage: HostStage) -> bool
    ensures { result ≡ passed_in stage }
{
    matches!(stage, HostStage::Sending(a) if a.passed)
}

fn end_in(number: u32, status: u32) -> End
    ensures { result ≡ end_in number status }
{
    match number {
        1 => End::Status((status % 256) as u8),
        2 => End::Foreign,
        3 => End::Unexpected,
        4 => End::Busy,
        _ => End::Done,
    }
}

pub(crate) fn stage_in(stage: u8, first: u32, second: u32, passed: bool) -> HostStage
    ensures { result ≡ stage_in stage first second passed }
{
    match stage {
        1 => HostStage::Opening,
        2 => HostStage::Listing,
        3 => HostStage::Offering(Turn {
            entry: first,
            busy: second,
        }),
        4 => HostStage::Waiting(Turn {
            entry: first,
            busy: second,
        }),
        5 => {
            let place = Place {
                entry: first,
                block: second,
            };
            HostStage::Sending(Awaited { place, passed })
        }
        6 => HostStage::Closing,
        7 => HostStage::Ended(end_in(first, second)),
        _ => HostStage::Fresh,
    }
}
