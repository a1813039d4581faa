//! What is found of an entry of a reference, before anything is kept.

ghost use Rattle.std.specs.Prelude.{◌≡◌, ◌+◌, ◌≤◌, Some, true, IfOk, OnOk};
ghost use Rattle.std.specs.Option.{option_copied};
ghost use Rattle.octets.specs.Causes.{HasCause};
ghost use Rattle.git_object.specs.Repository.{Repository};
ghost use Rattle.rsl_chain.specs.Entries.{target_of};
ghost use Rattle.judging.specs.Decisions.{decision, decision_reads, epoch_decision, ordinary_decision, ordinary_reads};
ghost use Rattle.judging.specs.Judges.{KeepsStore, judge_failed};

use crate::{Judge, JudgeFault, KeyIds};
use git_object::{ObjectId, RefName};
use rsl_chain::Entry;
use std::alloc::Global;

/// What is found of an entry: the policy that it opens, its fault, who signed for it.
#[derive(Drop)]
pub struct Decision<P, F> {
    pub opened: Option<P>,
    pub fault: Option<F>,
    pub signers: KeyIds,
}

// Of an entry of the policy's reference.
fn decide_epoch<P, F, S, J: Judge<P, F, S>>(
    alloc: Global,
    judge: &J,
    store: &mut S,
    policy: Option<&P>,
    entry: &Entry,
) -> Result<Decision<P, F>, JudgeFault>
    ensures answer { IfOk result (λ found. (r : Repository) → J.content store.new ≡ Some r
        → found ≡ epoch_decision (J.rules judge.now) r
        ((J.rules judge.now).epoch r (option_copied policy.entry) entry.now)) }
    ensures same { KeepsStore J.content J.tells_left J.left J.comes store.old store.new }
    ensures cause { HasCause judge_failed (J.faults store.old) (J.faults store.new) result }
    ensures reads { (r : Repository) → J.content store.new ≡ Some r → J.reads store.new ≤ J.reads store.old
        + (J.rules judge.now).epoch_reads r (option_copied policy.entry) entry.now }
{
    match judge.epoch(alloc, store, policy, entry)? {
        Ok(policy) => Ok(Decision {
            opened: Some(policy),
            fault: None,
            signers: KeyIds::new(alloc),
        }),
        Err(fault) => Ok(Decision {
            opened: None,
            fault: Some(fault),
            signers: KeyIds::new(alloc),
        }),
    }
}

// Of an entry of another reference.
fn decide_ordinary<P, F, S, J: Judge<P, F, S>>(
    alloc: Global,
    judge: &J,
    store: &mut S,
    policy: Option<&P>,
    entry: &Entry,
    from: &ObjectId,
    attested: Option<&ObjectId>,
) -> Result<Decision<P, F>, JudgeFault>
    requires trusts { (r : Repository) → J.content store.old ≡ Some r → J.trusts judge.now r }
    ensures answer { IfOk result (λ found. (r : Repository) → J.content store.new ≡ Some r
        → found ≡ ordinary_decision (J.rules judge.now) r (option_copied policy.entry) entry.now from.now
        (option_copied attested.entry)) }
    ensures same { KeepsStore J.content J.tells_left J.left J.comes store.old store.new }
    ensures cause { HasCause judge_failed (J.faults store.old) (J.faults store.new) result }
    ensures reads { OnOk result ((r : Repository) → J.content store.new ≡ Some r
        → (J.rules judge.now).bounded r from.now (target_of entry.now.body) ≡ true
        → J.reads store.new ≤ J.reads store.old + ordinary_reads (J.rules judge.now) r (option_copied policy.entry)
        entry.now from.now (option_copied attested.entry)) }
{
    let Some(policy) = policy else {
        return Ok(Decision {
            opened: None,
            fault: Some(judge.no_policy()),
            signers: KeyIds::new(alloc),
        });
    };
    let found = judge.find(alloc, store, policy, entry, from, attested)?;
    Ok(Decision {
        opened: None,
        fault: found.fault,
        signers: found.signers,
    })
}

/// What is found of an entry of a reference, by the policy in force, where the reference stood before it and the
/// attestations before it.
pub fn decide<P, F, S, J: Judge<P, F, S>>(
    alloc: Global,
    judge: &J,
    store: &mut S,
    policy: Option<&P>,
    entry: &Entry,
    name: &RefName,
    from: &ObjectId,
    attested: Option<&ObjectId>,
) -> Result<Decision<P, F>, JudgeFault>
    requires trusts { (r : Repository) → J.content store.old ≡ Some r → J.trusts judge.now r }
    ensures answer { IfOk result (λ found. (r : Repository) → J.content store.new ≡ Some r
        → found ≡ decision (J.rules judge.now) r (option_copied policy.entry) entry.now name.now from.now
        (option_copied attested.entry)) }
    ensures same { KeepsStore J.content J.tells_left J.left J.comes store.old store.new }
    ensures cause { HasCause judge_failed (J.faults store.old) (J.faults store.new) result }
    ensures reads { OnOk result ((r : Repository) → J.content store.new ≡ Some r
        → (J.rules judge.now).bounded r from.now (target_of entry.now.body) ≡ true
        → J.reads store.new ≤ J.reads store.old + decision_reads (J.rules judge.now) r (option_copied policy.entry)
        entry.now name.now from.now (option_copied attested.entry)) }
{
    if name.is_policy() {
        return decide_epoch(alloc, judge, store, policy, entry);
    }
    decide_ordinary(alloc, judge, store, policy, entry, from, attested)
}
