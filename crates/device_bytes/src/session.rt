// The session of a device's record, in its bytes.
ghost use Rattle.std.specs.Prelude.{◌≡◌};
ghost use Rattle.device_bytes.specs.Layout.{session_in, with_session_bytes};

use crate::{COMPONENTS_START, DEVICE_SIZE, SESSION_START};
use device_session::effect::Session;
use device_session_bytes::session_bytes;
use wire::words;

// The session of a record, unjudged.
pub fn session_in(b: &[u8]) -> Session
    ensures { result ≡ session_in b.now }
{
    let at = words::least(SESSION_START, b.len());
    device_session_bytes::session_in(&b[at..])
}

// Another session; bytes of another length stay.
pub fn store_session(b: &mut [u8], session: Session)
    ensures { b.new ≡ with_session_bytes session b.old }
{
    if b.len() == DEVICE_SIZE {
        let s = session_bytes(session);
        words::copy(&mut b[SESSION_START..COMPONENTS_START], &s);
    }
}
