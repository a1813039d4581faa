//! The verdict on a reference, by what is kept.

ghost use Rattle.std.specs.Prelude.{◌≡◌, ℕ, Some, None, IfNone, IfOk, IfSome};
ghost use Rattle.recovery.specs.Lanes.{first_of, lane_of};
ghost use Rattle.judging.specs.Books.{kept_fault};
ghost use Rattle.judging.specs.Tips.{IsTip};
ghost use Rattle.judging.specs.declared.verdicts.Verdict.TheVariants.{Violation};

use crate::Verdict;
use crate::book::Book;
use crate::references::place_before;
use git_object::{ObjectId, RefName};
use octets::{Copied, Memory};

/// The first entry pending of a reference, and its fault.
pub fn violation<F: Copied>(book: &Book<F>, name: &RefName) -> Result<Option<Verdict<F>>, Memory>
    ensures some { IfOk result (λ found. IfSome found (λ verdict. (number : ℕ) × (fault : F)
        × (verdict ≡ Violation number fault) × (first_of (lane_of book.now.marks name.now).pending ≡ Some number)
        × (kept_fault book.now number ≡ Some fault))) }
    ensures none { IfOk result (λ found. IfNone found ((number : ℕ) → first_of (lane_of book.now.marks name.now).pending
        ≡ Some number → kept_fault book.now number ≡ None)) }
{
    let Some(number) = book.first_pending(name) else {
        return Ok(None);
    };
    let Some(fault) = book.fault(number) else {
        return Ok(None);
    };
    let fault = fault.copied()?;
    Ok(Some(Verdict::Violation { number, fault }))
}

/// Whether a reference of this value stands where its entries put it.
pub fn tip<F>(book: &Book<F>, name: &RefName, kept: &ObjectId) -> Verdict<F>
    ensures { IsTip book.now name.now kept.now result }
{
    let stands = place_before(book, name);
    if stands.from != *kept {
        return Verdict::TipDiffers {
            kept: *kept,
            recorded: stands.from,
        };
    }
    Verdict::Accepted {
        count: book.count(name),
    }
}
