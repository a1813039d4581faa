//! The judge.

ghost use Rattle.std.specs.Prelude.{◌≡◌, ◌↔◌, ◌+◌, ◌≤◌, Some, false, ⊤, IfOk, IsErrOf, IsTrue};
ghost use Rattle.std.specs.Option.{option_copied};
ghost use Rattle.octets.specs.Calls.{after_call, fails_next};
ghost use Rattle.octets.specs.Causes.{HasCause};
ghost use Rattle.git_object.specs.Repository.{empty_repository};
ghost use Rattle.judging.specs.Judges.{judge_failed};
ghost use Rattle.judging.specs.Rules.{same_tree};
ghost use Rattle.rsl_chain.specs.Entries.{target_of};
ghost use Rattle.small_judge.specs.SmallRules.{epoch, fault, opened_key, signers, signs, small_rules, tree};

use crate::{Holder, SmallFault};
use git_object::{KeyId, ObjectId, RefName};
use judging::{Finding, Judge, JudgeFault, KeyIds};
use octets::{FailingCalls, Memory};
use rsl_chain::{Entry, EntryBody};
use std::alloc::Global;

/// Answers the small rules.
#[derive(Clone, Copy, Drop)]
pub struct SmallJudge;

/// An empty repository. The calls for which the judge may ask it are counted from 1.
#[derive(Drop)]
pub struct SmallStore {
    calls: FailingCalls,
}

impl SmallStore {
    /// A store of whose calls none fails. It takes no memory.
    pub fn new(alloc: Global) -> SmallStore {
        SmallStore {
            calls: FailingCalls::none(alloc),
        }
    }

    /// A store of whose calls those with these numbers fail.
    pub fn failing(calls: Vec<u64>) -> SmallStore {
        SmallStore {
            calls: FailingCalls::listed(calls),
        }
    }

    // Counts a call, and refuses it where it is one that fails.
    fn call(&mut self) -> Result<(), JudgeFault>
        ensures cause { HasCause judge_failed self.old.calls.faults self.new.calls.faults result }
        ensures listed { IsErrOf result JudgeFault.Failed ↔ IsTrue (fails_next self.old.calls) }
        ensures after { self.new.calls ≡ after_call self.old.calls }
    {
        if self.calls.fails() {
            return Err(JudgeFault::Failed);
        }
        Ok(())
    }
}

// Whether the key is the signer's.
fn is_signed_by(entry: &Entry, key: &KeyId) -> bool
    ensures { result ≡ signs entry.now.signer key.now }
{
    match &entry.signer {
        Some(signer) => signer.as_bytes() == key.as_bytes(),
        None => false,
    }
}

fn target_of(entry: &Entry) -> ObjectId
    ensures { result ≡ target_of entry.now.body }
{
    match &entry.body {
        EntryBody::Reference { name: _, target } => *target,
        EntryBody::Annotation {
            ids: _,
            skip: _,
            message: _,
        } => ObjectId::zeros(),
    }
}

fn opened(entry: &Entry) -> Holder
    ensures { result ≡ opened_key entry.now }
{
    let target = target_of(entry);
    Holder {
        key: KeyId(target.0),
    }
}

fn epoch(policy: Option<&Holder>, entry: &Entry) -> Result<Holder, SmallFault>
    ensures { result ≡ epoch (option_copied policy.entry) entry.now }
{
    match policy {
        None => match &entry.signer {
            None => Err(SmallFault::Unsigned),
            Some(_) => Ok(opened(entry)),
        },
        Some(holder) => {
            if is_signed_by(entry, &holder.key) {
                Ok(opened(entry))
            } else {
                Err(SmallFault::Stranger)
            }
        }
    }
}

fn fault(holder: &Holder, entry: &Entry) -> Option<SmallFault>
    ensures { result ≡ fault holder.now entry.now }
{
    if is_signed_by(entry, &holder.key) {
        None
    } else {
        Some(SmallFault::Stranger)
    }
}

fn signers(alloc: Global, holder: &Holder, entry: &Entry) -> Result<KeyIds, Memory>
    ensures { IfOk result (λ ids. ids ≡ signers holder.now entry.now) }
{
    let mut ids = KeyIds::new(alloc);
    if is_signed_by(entry, &holder.key) {
        ids.push(holder.key)?;
    }
    Ok(ids)
}

fn tree(target: &ObjectId) -> &[u8]
    ensures { result.now ≡ tree target.now }
{
    &target.as_bytes()[..31]
}

impl Judge<Holder, SmallFault, SmallStore> for SmallJudge {
    ghost rules = { λ j. small_rules };

    ghost trusts = { λ j r. ⊤ };

    ghost content = { λ s. Some empty_repository };

    ghost tells_left = { λ s. false };

    ghost left = { λ s r. ⊥ };

    ghost faults = { λ j. j.calls.faults };

    ghost reads = { λ j. 0 };

    ghost comes = { λ s t. ⊤ };

    fn epoch(
        &self,
        _alloc: Global,
        store: &mut SmallStore,
        policy: Option<&Holder>,
        entry: &Entry,
    ) -> Result<Result<Holder, SmallFault>, JudgeFault> {
        store.call()?;
        Ok(epoch(policy, entry))
    }

    fn find(
        &self,
        alloc: Global,
        store: &mut SmallStore,
        policy: &Holder,
        entry: &Entry,
        _from: &ObjectId,
        _attested: Option<&ObjectId>,
    ) -> Result<Finding<SmallFault>, JudgeFault> {
        store.call()?;
        let fault = fault(policy, entry);
        let signers = signers(alloc, policy, entry)?;
        Ok(Finding { fault, signers })
    }

    fn has_same_tree(
        &self,
        _alloc: Global,
        store: &mut SmallStore,
        from: &ObjectId,
        to: &ObjectId,
    ) -> Result<bool, JudgeFault> {
        store.call()?;
        Ok(tree(from) == tree(to))
    }

    fn no_policy(&self) -> SmallFault {
        SmallFault::NoPolicy
    }

    fn skipper(&self, policy: &Holder, annotation: &Entry) -> Option<KeyId> {
        if is_signed_by(annotation, &policy.key) {
            Some(policy.key)
        } else {
            None
        }
    }

    fn may_skip(&self, policy: &Holder, key: &KeyId, _name: &RefName) -> bool {
        policy.key.as_bytes() == key.as_bytes()
    }
}
