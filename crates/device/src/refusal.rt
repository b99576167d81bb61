// Rows D1 to D3 (document 01, "Numbered refusals"): what every entry judges first.
ghost use Rattle.std.specs.Prelude.{◌≡◌};
ghost use Rattle.device.specs.Refusals.{row_in, breaks_d1, refusal_of};

use crate::answer::Refusal;
use crate::record::Device;
use device_session::sound;

impl Device {
    // D1: no entry serves this record.
    pub fn breaks_d1(self) -> bool
        ensures { result ≡ breaks_d1 self }
    {
        let components = self.components;
        let session = self.session;
        sound::breaks_d1(self.staging_len as usize, self.count, components, session)
    }

    // D1, D2 and D3, in this order, for a staging buffer of n bytes, a report of m bytes, and reports that are `size` bytes long.
    pub(crate) fn refusal(self, size: usize, n: usize, m: usize) -> Result<(), Refusal>
        ensures { row_in result ≡ refusal_of size self n m }
    {
        if self.breaks_d1() {
            return Err(Refusal::D1);
        }
        if n != (self.staging_len as usize) {
            return Err(Refusal::D2);
        }
        if m != size {
            return Err(Refusal::D3);
        }
        Ok(())
    }
}
