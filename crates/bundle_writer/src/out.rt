// Bytes go into the output, from a place on.
ghost use Rattle.std.specs.Prelude.{◌≡◌, ◌+◌, ◌≤◌, length};
ghost use Rattle.image.specs.Region.{put};

use wire::words::copy;

pub(crate) fn put_at(out: &mut [u8], at: usize, bytes: &[u8])
    requires { at + length bytes.now ≤ length out.old }
    ensures { out.new ≡ put at bytes.now out.old }
{
    let end = at + bytes.len();
    copy(&mut out[at..end], bytes);
}
