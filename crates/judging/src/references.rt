//! How an entry of a reference is judged, before it is kept.

ghost use Rattle.std.specs.Prelude.{◌≡◌, ◌+◌, ◌≤◌, ℕ, Some, true, IfOk, OnOk, if◌then◌else◌, is_some, nat_lt};
ghost use Rattle.std.specs.List.{list_any};
ghost use Rattle.std.specs.Option.{unwrap_or};
ghost use Rattle.octets.specs.Causes.{HasCause};
ghost use Rattle.git_object.specs.Repository.{Repository};
ghost use Rattle.recovery.specs.Lanes.{lane_of};
ghost use Rattle.judging.specs.Decisions.{IsFinish};
ghost use Rattle.judging.specs.Judges.{KeepsStore, judge_failed};
ghost use Rattle.judging.specs.Standings.{standing_of};

use crate::book::Book;
use crate::deciding::Decision;
use crate::{Judge, JudgeFault};
use git_object::{ObjectId, RefName};
use std::alloc::Global;

/// Where a reference stands: the number of its last entry that is not skipped, or 0, and its target, or zeros.
#[derive(Clone, Copy)]
pub struct Standing {
    pub above: u64,
    pub from: ObjectId,
}

/// Where a reference stands.
pub fn place_before<F>(book: &Book<F>, name: &RefName) -> Standing
    ensures { result ≡ standing_of book.now name.now }
{
    let Some(above) = book.prior(name) else {
        return Standing {
            above: 0,
            from: ObjectId::zeros(),
        };
    };
    let from = match book.target(above) {
        Some(target) => target,
        None => ObjectId::zeros(),
    };
    Standing { above, from }
}

/// Whether an entry completes a recovery. The store is asked only where a recovery would take something in.
pub fn finishes<P, F, S, J: Judge<P, F, S>>(
    alloc: Global,
    judge: &J,
    store: &mut S,
    book: &Book<F>,
    found: &Decision<P, F>,
    name: &RefName,
    stands: &Standing,
    target: &ObjectId,
) -> Result<bool, JudgeFault>
    requires trusts { (r : Repository) → J.content store.old ≡ Some r → J.trusts judge.now r }
    ensures answer { IfOk result (λ finishes. (r : Repository) → J.content store.new ≡ Some r
        → IsFinish (J.rules judge.now) r book.now found.now name.now stands.now target.now finishes) }
    ensures same { KeepsStore J.content J.tells_left J.left J.comes store.old store.new }
    ensures cause { HasCause judge_failed (J.faults store.old) (J.faults store.new) result }
    ensures reads { OnOk result ((r : Repository) → J.content store.new ≡ Some r
        → (J.rules judge.now).bounded r stands.now.from target.now ≡ true → J.reads store.new ≤ J.reads store.old
        + (if list_any (nat_lt stands.now.above) (lane_of book.now.marks name.now).pending then
        (J.rules judge.now).tree_reads r stands.now.from target.now else 0)) }
    ensures spared { is_some found.now.fault ≡ true → J.reads store.new ≡ J.reads store.old }
{
    if found.fault.is_some() {
        return Ok(false);
    }
    if !book.is_pending_after(name, stands.above) {
        return Ok(false);
    }
    judge.has_same_tree(alloc, store, &stands.from, target)
}
