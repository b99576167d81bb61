// Checks 1 to 9 of an offer (document 01, "The device"; document 02, A1), over a device's platform and stage, the component that it is for and the one that it
// needs.
ghost use Rattle.std.specs.Prelude.{◌≡◌};
ghost use Rattle.wire.specs.Checks.{first_of};
ghost use Rattle.device_offering.specs.Offer.{rejections_at, need_unmet_at, verdict_at};

use crate::verdict::OfferVerdict;
use device_session::stage::Stage;
use device_slots::standing::Standing;
use wire::codes;
use wire_offer::offer::OfferFields;

// Check 8: byte 8 is not 0, and that component is absent or its effective version is below.
fn need_unmet(needed: Standing, o: OfferFields) -> bool
    ensures { result ≡ need_unmet_at needed o }
{
    let f = needed.at;
    let component = needed.component;
    let version = component.effective();
    (o.need != 0) & (f.is_none() | (version.release() < o.least))
}

// Checks 2 to 7, that of the variant between 6 and 7, from the last to the first; where none rejects the offer, the verdict of the checks after them.
fn unless_rejected(
    platform: u16,
    target: Standing,
    o: OfferFields,
    passed: OfferVerdict,
) -> OfferVerdict
    ensures { result ≡ first_of (rejections_at platform target o) passed }
{
    let version = o.version;
    let f = target.at;
    let component = target.component;
    let low = component.is_too_low(version);
    let seven = passed.unless(low, OfferVerdict::Reject(codes::REJECT_OLD_FW));
    let wrong = component.is_wrong_variant(version);
    let variant = seven.unless(wrong, OfferVerdict::Reject(codes::REJECT_WRONG_VARIANT));
    let six = variant.unless(
        component.is_pending(),
        OfferVerdict::Reject(codes::REJECT_SWAP_PENDING),
    );
    let five = six.unless(
        o.segment != 0,
        OfferVerdict::Reject(codes::REJECT_WRONG_SEGMENT),
    );
    let four = five.unless(
        o.platform != platform,
        OfferVerdict::Reject(codes::REJECT_INV_COMPONENT),
    );
    let three = four.unless(
        f.is_none(),
        OfferVerdict::Reject(codes::REJECT_INV_COMPONENT),
    );
    three.unless(
        o.protocol != codes::PROTOCOL,
        OfferVerdict::Reject(codes::REJECT_WRONG_PROTOCOL),
    )
}

// Checks 1 to 9, from the last to the first.
pub fn judge_offer(
    platform: u16,
    stage: Stage,
    target: Standing,
    needed: Standing,
    o: OfferFields,
) -> OfferVerdict
    ensures { result ≡ verdict_at platform stage target needed o }
{
    let found = target.at;
    let nine = OfferVerdict::Accept(found.unwrap_or(0));
    let eight = nine.unless(need_unmet(needed, o), OfferVerdict::Skip);
    let two = unless_rejected(platform, target, o, eight);
    two.unless(stage.is_open(), OfferVerdict::Busy)
}
