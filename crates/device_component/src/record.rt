// The record of a component (document 01, "The device"; document 02, A5: its floor).
ghost use Rattle.std.specs.Prelude.{◌≡◌};
ghost use Rattle.device_component.specs.Record.{blank_component, is_pending, effective as effective_of, listed as listed_as, with_staged, after_reset};

use image::region::{Region, StagingOffset};
use wire::version::Version;

// What set-up fixes of a component; nothing changes it later.
#[derive(Clone, Copy)]
pub struct Fixed {
    pub id: u8,
    pub region: Region,
    // The lowest allowed version; it may stand above the running one.
    pub floor: Version,
}

#[derive(Clone, Copy)]
pub struct Component {
    pub fixed: Fixed,
    pub running: Version,
    // A staged version makes the component pending.
    pub staged: Option<Version>,
}

// A component as it is given to set-up.
#[derive(Clone, Copy)]
pub struct Listed {
    pub fixed: Fixed,
    pub running: Version,
}

impl Component {
    // As set-up makes it: nothing is staged.
    pub fn listed(l: Listed) -> Self
        ensures { result ≡ listed_as l }
    {
        let fixed = l.fixed;
        let running = l.running;
        Component {
            fixed,
            running,
            staged: None,
        }
    }

    // Pending with this version.
    pub fn with_staged(self, v: Version) -> Self
        ensures { result ≡ with_staged self v }
    {
        let fixed = self.fixed;
        let running = self.running;
        Component {
            fixed,
            running,
            staged: Some(v),
        }
    }

    // The effective version runs, and nothing is staged.
    pub fn after_reset(self) -> Self
        ensures { result ≡ after_reset self }
    {
        let fixed = self.fixed;
        let running = self.effective();
        Component {
            fixed,
            running,
            staged: None,
        }
    }

    pub fn is_pending(self) -> bool
        ensures { result ≡ is_pending self.staged }
    {
        self.staged.is_some()
    }

    // Staged if pending, else running.
    pub fn effective(self) -> Version
        ensures { result ≡ effective_of self.running self.staged }
    {
        self.staged.unwrap_or(self.running)
    }
}

// Stands where there is no component.
pub fn blank_component() -> Component
    ensures { result ≡ blank_component }
{
    let running = Version::new(0, 0, 0);
    Component {
        fixed: Fixed {
            id: 0,
            region: Region {
                base: StagingOffset::new(0),
                len: 0,
            },
            floor: running,
        },
        running,
        staged: None,
    }
}
