// The verdict of the checks of an offer (document 01, "The device"), and the status and reason of its reply.
ghost use Rattle.std.specs.Prelude.{◌≡◌, cond};
ghost use Rattle.device_offering.specs.Offer.{status_of, reason_of};

use wire::codes;

// The first check that applies.
#[derive(Clone, Copy)]
pub enum OfferVerdict {
    Busy,
    // With its reason.
    Reject(u8),
    Skip,
    // For the component in this slot.
    Accept(u8),
}

impl OfferVerdict {
    // The answer of a check that applies, and otherwise the verdict of the checks after it.
    pub(crate) fn unless(self, applies: bool, answer: OfferVerdict) -> OfferVerdict
        ensures { result ≡ cond applies answer self }
    {
        if applies { answer } else { self }
    }

    pub fn status(self) -> u8
        ensures { result ≡ status_of self }
    {
        match self {
            OfferVerdict::Busy => codes::OFFER_BUSY,
            OfferVerdict::Reject(_) => codes::OFFER_REJECT,
            OfferVerdict::Skip => codes::OFFER_SKIP,
            OfferVerdict::Accept(_) => codes::OFFER_ACCEPT,
        }
    }

    // Zero unless REJECT.
    pub fn reason(self) -> u8
        ensures { result ≡ reason_of self }
    {
        match self {
            OfferVerdict::Reject(r) => r,
            _ => 0,
        }
    }
}
