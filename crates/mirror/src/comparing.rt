//! The kept log beside an offered one.

ghost use Rattle.mirror.specs.Offering.{IsOffering};

use crate::Offer;
use git_object::ObjectId;

/// What an offered log is to the kept one, of which both are lists of the ids of their entries, oldest first.
pub fn compare(kept: &[ObjectId], offered: &[ObjectId]) -> Offer
    ensures { IsOffering kept.now offered.now result }
{
    'entries: for at in 0..kept.len() {
        if at >= offered.len() {
            return Offer::Behind {
                kept: kept.len() as u64,
                offered: offered.len() as u64,
            };
        }
        let (ours, theirs) = (kept[at], offered[at]);
        if ours != theirs {
            return Offer::Forked {
                number: at as u64 + 1,
                kept: ours,
                offered: theirs,
            };
        }
    }
    if kept.len() == offered.len() {
        return Offer::Same {
            count: kept.len() as u64,
        };
    }
    Offer::Taken {
        from: kept.len() as u64,
        to: offered.len() as u64,
    }
}
