// The session of a device as bytes: the stage, the ready-reply that is owed, and the previous packet. What is read stands in bytes that start at the session;
// past their end a byte is 0.
#![tactic(auto)]

ghost use Rattle.std.specs.Prelude.{◌≡◌};
ghost use Rattle.device_session_bytes.specs.Layout.{stage_bytes, owed_bytes, session_bytes, stage_in, owed_in, previous_in, session_in, session_flags_fit};

use device_session::effect::Session;
use device_session::stage::{Offered, Receiving, Stage};
use wire::codes::LONG_SIZE;
use wire::words;

// Where the parts of a stage stand behind its number: the slot, the token, the next sequence; and its length.
pub const SLOT_AT: usize = 1;

pub const TOKEN_AT: usize = SLOT_AT + 1;

pub const NEXT_AT: usize = TOKEN_AT + 1;

const STAGE_SIZE: usize = NEXT_AT + 2;

// Where what is owed stands behind the stage, and its token, and its length; where the previous packet stands behind that; and the length of the session.
pub const OWED_AT: usize = STAGE_SIZE;

pub const OWED_TOKEN_AT: usize = OWED_AT + 1;

const OWED_SIZE: usize = 1 + 1;

pub const PREVIOUS_AT: usize = OWED_AT + OWED_SIZE;

pub const SESSION_SIZE: usize = PREVIOUS_AT + LONG_SIZE;

fn stage_bytes(stage: Stage) -> [u8; STAGE_SIZE]
    ensures { result ≡ stage_bytes stage }
{
    match stage {
        Stage::Idle => [0u8; STAGE_SIZE],
        Stage::Offered(o) => [1, o.slot, o.token, 0, 0],
        Stage::Receiving(r) => {
            let n = words::bytes16(r.next);
            [2, r.slot, r.token, n[0], n[1]]
        }
    }
}

fn owed_bytes(owed: Option<u8>) -> [u8; OWED_SIZE]
    ensures { result ≡ owed_bytes owed }
{
    match owed {
        None => [0u8; OWED_SIZE],
        Some(t) => [1, t],
    }
}

pub fn session_bytes(session: Session) -> [u8; SESSION_SIZE]
    ensures { result ≡ session_bytes session }
{
    let stage = session.stage;
    let owed = session.owed;
    let previous = session.previous;
    let s = stage_bytes(stage);
    let o = owed_bytes(owed);
    let mut out = [0u8; SESSION_SIZE];
    words::copy(&mut out[0..OWED_AT], &s);
    words::copy(&mut out[OWED_AT..PREVIOUS_AT], &o);
    words::copy(&mut out[PREVIOUS_AT..SESSION_SIZE], &previous);
    out
}

fn stage_in(stage: u8, slot: u8, token: u8, next: u16) -> Stage
    ensures { result ≡ stage_in stage slot token next }
{
    if stage == 1 {
        return Stage::Offered(Offered { slot, token });
    }
    if stage == 2 {
        return Stage::Receiving(Receiving { slot, token, next });
    }
    Stage::Idle
}

fn owed_in(owed: u8, token: u8) -> Option<u8>
    ensures { result ≡ owed_in owed token }
{
    (owed == 1).then_some(token)
}

// The previous packet, in whatever stage; bytes too short for it are read as no packet.
fn previous_in(q: &[u8]) -> [u8; LONG_SIZE]
    ensures { result ≡ previous_in q.now }
{
    let mut previous = [0u8; LONG_SIZE];
    if SESSION_SIZE <= q.len() {
        words::copy(&mut previous, &q[PREVIOUS_AT..SESSION_SIZE]);
    }
    previous
}

// The session, unjudged.
pub fn session_in(q: &[u8]) -> Session
    ensures { result ≡ session_in q.now }
{
    let stage = stage_in(
        words::byte_at(q, 0),
        words::byte_at(q, SLOT_AT),
        words::byte_at(q, TOKEN_AT),
        words::word16_at(q, NEXT_AT as u16),
    );
    let owed = owed_in(words::byte_at(q, OWED_AT), words::byte_at(q, OWED_TOKEN_AT));
    let previous = previous_in(q);
    Session {
        stage,
        owed,
        previous,
    }
}

// The flags are such as a session has.
pub fn session_flags_fit(q: &[u8]) -> bool
    ensures { result ≡ session_flags_fit q.now }
{
    (words::byte_at(q, 0) <= 2) & (words::byte_at(q, OWED_AT) <= 1)
}
