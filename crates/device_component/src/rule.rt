// The rules on a component: those on its versions, and those over the list.
ghost use Rattle.std.specs.Prelude.{◌≡◌, not, eqb};
ghost use Rattle.wire.specs.Version.{variant_of};
ghost use Rattle.device_component.specs.Versions.{wrong_variant, is_old, below_floor, too_low, may_follow, image_version_fits, staged_version_fits, keeps_staged};
ghost use Rattle.device_component.specs.Rules.{flawed as is_flawed, clash as clashes};
ghost use Rattle.device_component.specs.Setup.{bad_id, bad_region, overlap, bad_floor};

use crate::record::Component;
use crate::setup::REGION_LEAST;
use image::region::Region;
use wire::codes::ID_LIMIT;
use wire::version::Version;

// Two versions are of different variants.
fn differ_in_variant(v: Version, w: Version) -> bool
    ensures { result ≡ not (eqb (variant_of v) (variant_of w)) }
{
    v.variant() != w.variant()
}

impl Component {
    // The check of an offer between 6 and 7 (document 02, A1): another variant than the running one.
    pub fn is_wrong_variant(self, v: Version) -> bool
        ensures { result ≡ wrong_variant self v }
    {
        differ_in_variant(v, self.running)
    }

    // A release that is not greater than the running one.
    fn is_old(self, v: Version) -> bool
        ensures { result ≡ is_old self v }
    {
        let running = self.running;
        v.release() <= running.release()
    }

    // A release below the floor's (document 02, A5).
    fn is_below_floor(self, v: Version) -> bool
        ensures { result ≡ below_floor self v }
    {
        let floor = self.fixed.floor;
        v.release() < floor.release()
    }

    // Offer check 7: either of the two.
    pub fn is_too_low(self, v: Version) -> bool
        ensures { result ≡ too_low self v }
    {
        self.is_old(v) | self.is_below_floor(v)
    }

    // Of the running variant, and of a release that is neither lower nor below the floor's.
    fn may_follow(self, v: Version) -> bool
        ensures { result ≡ may_follow self v }
    {
        let running = self.running;
        (!self.is_wrong_variant(v) & (running.release() <= v.release())) & !self.is_below_floor(v)
    }

    // Image judgement.
    pub fn image_version_fits(self, v: Version) -> bool
        ensures { result ≡ image_version_fits self v }
    {
        self.may_follow(v)
    }

    // D1.
    fn staged_version_fits(self, staged: Version) -> bool
        ensures { result ≡ staged_version_fits self staged }
    {
        self.may_follow(staged)
    }

    // What is staged keeps that rule.
    pub fn keeps_staged(self) -> bool
        ensures { result ≡ keeps_staged self self.staged }
    {
        self.staged.map_or(true, |v| self.staged_version_fits(v))
    }
}

pub(crate) fn bad_id(id: u8) -> bool
    ensures { result ≡ bad_id id }
{
    (id < 1) | (ID_LIMIT < id)
}

pub(crate) fn bad_region(n: usize, r: Region) -> bool
    ensures { result ≡ bad_region n r }
{
    (r.len < REGION_LEAST) | ((n as u64) < (r.base.number() as u64) + (r.len as u64))
}

pub(crate) fn overlaps(r: Region, other: Region) -> bool
    ensures { result ≡ overlap r other }
{
    let base = r.base.number() as u64;
    let next = other.base.number() as u64;
    (base < next + (other.len as u64)) & (next < base + (r.len as u64))
}

pub(crate) fn bad_floor(floor: Version) -> bool
    ensures { result ≡ bad_floor floor }
{
    floor.variant() != 0
}

// D1, of one component: S3, S4 for a buffer of so many bytes, S5, or its staged version does not fit the running one and the floor.
pub fn flawed(n: usize, c: Component) -> bool
    ensures { result ≡ is_flawed n c }
{
    let region = c.fixed.region;
    let floor = c.fixed.floor;
    bad_id(c.fixed.id) | (bad_region(n, region) | (bad_floor(floor) | !c.keeps_staged()))
}

// D1, of two: the same id, or regions that overlap.
pub fn clash(c: Component, other: Component) -> bool
    ensures { result ≡ clashes c other }
{
    let region = c.fixed.region;
    let next = other.fixed.region;
    (c.fixed.id == other.fixed.id) | overlaps(region, next)
}
