// The session (document 01, "The device"), the one way it becomes idle, and what a packet does: what is sent after it, and the session afterwards.
ghost use Rattle.std.specs.Prelude.{◌≡◌};
ghost use Rattle.device_session.specs.Effect.{no_replies, in_stage, owing as owing_of, idle as idle_session, answered as answered_by, silent as silent_as};

use crate::stage::Stage;
use wire::codes::{LONG_SIZE, SHORT_SIZE};

#[derive(Clone, Copy)]
pub struct Session {
    pub stage: Stage,
    pub owed: Option<u8>,
    // While receiving, the packet of the block taken last (document 02, A4); blank, all zeros, otherwise.
    pub previous: [u8; LONG_SIZE],
}

// What is sent after a packet: a reply where one is due (its bytes are zero where none is), then the READY that was owed, with its token. `due` stays beside the
// bytes, and is no `Option`: that they are zero is promised too (`no_replies`, and what stands on it).
#[derive(Clone, Copy)]
pub struct Replies {
    pub due: bool,
    pub reply: [u8; SHORT_SIZE],
    pub ready: Option<u8>,
}

// Of a packet that no row refuses.
#[derive(Clone, Copy)]
pub struct Effect {
    pub replies: Replies,
    pub session: Session,
}

impl Replies {
    // Nothing is sent.
    pub fn none() -> Replies
        ensures { result ≡ no_replies }
    {
        Replies {
            due: false,
            reply: [0u8; SHORT_SIZE],
            ready: None,
        }
    }
}

impl Session {
    // Nothing open, nothing owed and no packet held: the one way a session becomes idle.
    pub fn idle() -> Session
        ensures { result ≡ idle_session }
    {
        Session {
            stage: Stage::Idle,
            owed: None,
            previous: [0u8; LONG_SIZE],
        }
    }

    // In another stage, and the packet that it holds in it.
    pub fn in_stage(self, stage: Stage, previous: [u8; LONG_SIZE]) -> Session
        ensures { result ≡ in_stage self stage previous }
    {
        Session {
            stage,
            previous,
            ..self
        }
    }

    // With another ready-reply owed.
    pub fn owing(self, owed: Option<u8>) -> Session
        ensures { result ≡ owing_of self owed }
    {
        Session { owed, ..self }
    }

    // One reply, and then the READY that was owed.
    pub fn answered(self, reply: [u8; SHORT_SIZE], ready: Option<u8>) -> Effect
        ensures { result ≡ answered_by reply ready self }
    {
        let replies = Replies {
            due: true,
            reply,
            ready,
        };
        Effect {
            replies,
            session: self,
        }
    }

    // No reply now.
    pub fn silent(self) -> Effect
        ensures { result ≡ silent_as self }
    {
        let replies = Replies::none();
        Effect {
            replies,
            session: self,
        }
    }
}
