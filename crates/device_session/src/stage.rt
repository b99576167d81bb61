// The stage of a session (document 01, "The device"): idle, offered or receiving, with its own data.
ghost use Rattle.std.specs.Prelude.{◌≡◌};
ghost use Rattle.device_session.specs.Stage.{is_open, open_slot, at_slot, at_token, is_receiving, sequence_verdict};

// An offer was accepted for the component in this slot.
#[derive(Clone, Copy)]
pub struct Offered {
    pub slot: u8,
    pub token: u8,
}

// Blocks of its image have come, and this sequence is next.
#[derive(Clone, Copy)]
pub struct Receiving {
    pub slot: u8,
    pub token: u8,
    pub next: u16,
}

// Each event writes it anew.
#[derive(Clone, Copy)]
pub enum Stage {
    Idle,
    Offered(Offered),
    Receiving(Receiving),
}

// Of a block's sequence (document 02, A4): the next one, the block just taken sent again, or wrong.
#[derive(Clone, Copy, PartialEq, Eq)]
pub enum SequenceVerdict {
    Next,
    Again,
    Wrong,
}

impl Stage {
    // Offered or receiving.
    pub fn is_open(self) -> bool
        ensures { result ≡ is_open self }
    {
        !matches!(self, Stage::Idle)
    }

    // The slot that the session is open on.
    pub fn open_slot(self) -> Option<u8>
        ensures { result ≡ open_slot self }
    {
        match self {
            Stage::Idle => None,
            Stage::Offered(o) => Some(o.slot),
            Stage::Receiving(r) => Some(r.slot),
        }
    }

    // That slot, and 0 while idle.
    pub fn slot(self) -> u8
        ensures { result ≡ at_slot self }
    {
        self.open_slot().unwrap_or(0)
    }

    // The token of the accepted offer, and 0 while idle.
    pub fn token(self) -> u8
        ensures { result ≡ at_token self }
    {
        match self {
            Stage::Idle => 0,
            Stage::Offered(o) => o.token,
            Stage::Receiving(r) => r.token,
        }
    }

    pub fn is_receiving(self) -> bool
        ensures { result ≡ is_receiving self }
    {
        matches!(self, Stage::Receiving(_))
    }

    // While receiving, the expected sequence is next, a copy of the previous packet is that block again, and any other is wrong; otherwise any is next.
    pub fn sequence_verdict(self, copy: bool, sequence: u16) -> SequenceVerdict
        ensures { result ≡ sequence_verdict self copy sequence }
    {
        match self {
            Stage::Receiving(r) if sequence != r.next => {
                if copy {
                    SequenceVerdict::Again
                } else {
                    SequenceVerdict::Wrong
                }
            }
            _ => SequenceVerdict::Next,
        }
    }
}
