// A version as it crosses to C: its three parts.
ghost use Rattle.std.specs.Prelude.{◌≡◌};
ghost use Rattle.c_types.specs.Version.{parts_of, version_in};

use crate::types::CVersion;
use wire::version::Version;

impl From<Version> for CVersion {
    ghost from_gives = { λ v r. r ≡ parts_of v };

    fn from(v: Version) -> Self {
        CVersion {
            major: v.major(),
            minor: v.minor(),
            variant: v.variant(),
        }
    }
}

// The version of these parts.
impl From<CVersion> for Version {
    ghost from_gives = { λ v r. r ≡ version_in v };

    fn from(v: CVersion) -> Self {
        Version::new(v.major, v.minor, v.variant)
    }
}
