//! The rules of entries as a judge.

ghost use Rattle.std.specs.Prelude.{◌≡◌, ◌≤◌, ◌+◌, Some, true, IfOk, OnOk};
ghost use Rattle.std.specs.Option.{option_copied};
ghost use Rattle.octets.specs.Causes.{HasCause};
ghost use Rattle.git_object.specs.Repository.{Repository};
ghost use Rattle.keeper_api.specs.Faults.{keeper_failed};
ghost use Rattle.keeper_api.specs.Undisturbed.{Undisturbed};
ghost use Rattle.rsl_chain.specs.Entries.{target_of};
ghost use Rattle.tree_paths.specs.Known as trees_;
ghost use Rattle.tree_paths.specs.Repositories.{readings_of};
ghost use Rattle.tree_paths.specs.States.{walk_of};
ghost use Rattle.policy_epochs.specs.Succession.{succession};
ghost use Rattle.policy_reading.specs.Policies.{policy_of, policy_reads};
ghost use Rattle.judging.specs.Rules.{is_same_tree};
ghost use Rattle.entry_rules.specs.Judged.{judge_result};
ghost use Rattle.entry_rules.specs.Learning.{AreKnownIn, Leads};
ghost use Rattle.entry_rules.specs.RealRules.{both_sound, comparison_reads, epoch_by, has_one_tree, opens, real_rules};
ghost use Rattle.entry_rules.specs.Signing.{tree_in};

use crate::Fault;
use crate::finding::find;
use crate::known_paths::KnownPaths;
use crate::learned::{Learned, LessonStore};
use crate::meeting::may_act;
use crate::signing::signer_among;
use crate::targets::compared;
use git_object::{KeyId, ObjectId, RefName};
use judging::{Finding, Judge, JudgeFault};
use keeper_api::{Keeper, KeeperFault};
use known_signers::KnownSigners;
use octets::Memory;
use policy_epochs::{Policy, PolicyFault, succession_fault};
use policy_reading::check_policy;
use root_metadata::KeyIds;
use rsl_chain::{Entry, EntryBody};
use std::alloc::Global;
use tree_paths::{Comparison, KnownTrees};

/// The rules by which the entries of a log are judged, each with what is known then, as `KnowingRules`.
#[derive(Drop)]
pub struct EntryRules {
    anchor: Option<KeyIds>,
    pub(crate) signed: KnownSigners,
    pub(crate) paths: KnownPaths,
}

impl EntryRules {
    /// Where ids are given, the first policy's root role must have exactly their keys.
    pub fn new(anchor: Option<KeyIds>) -> EntryRules
        ensures { result.anchor ≡ anchor }
    {
        EntryRules {
            anchor,
            signed: KnownSigners::new(),
            paths: KnownPaths::new(None),
        }
    }
}

// What a store answers, as a judge answers it.
fn judged<T>(outcome: Result<T, KeeperFault>) -> Result<T, JudgeFault>
    ensures { result ≡ judge_result outcome }
{
    match outcome {
        Ok(answer) => Ok(answer),
        Err(KeeperFault::Failed) => Err(JudgeFault::Failed),
        Err(KeeperFault::Memory) => Err(JudgeFault::Memory),
    }
}

fn target_of(entry: &Entry) -> ObjectId
    ensures { result ≡ target_of entry.now.body }
{
    match &entry.body {
        EntryBody::Reference { name: _, target } => *target,
        EntryBody::Annotation {
            ids: _,
            skip: _,
            message: _,
        } => ObjectId::zeros(),
    }
}

// What becomes of a valid policy.
fn opened(policy: Policy, fault: Option<PolicyFault>) -> Result<Policy, Fault>
    ensures { result ≡ opens policy fault }
{
    match fault {
        None => Ok(policy),
        Some(why) => Err(Fault::NotEpoch { why }),
    }
}

// What becomes of what was found of a policy under the one in force.
fn epoch_by(
    alloc: Global,
    known: &KnownSigners,
    anchor: &Option<KeyIds>,
    current: Option<&Policy>,
    found: Result<Policy, PolicyFault>,
) -> Result<Result<Policy, Fault>, Memory>
    ensures { IfOk result (λ epoch. epoch ≡ epoch_by anchor.now (option_copied current.entry) found) }
{
    match found {
        Err(why) => Ok(Err(Fault::NotEpoch { why })),
        Ok(policy) => {
            let fault = succession_fault(alloc, known, anchor, current, &policy)?;
            Ok(opened(policy, fault))
        }
    }
}

// The policy that an entry of the policy's reference opens, or its fault.
fn epoch<R: Keeper>(
    alloc: Global,
    keeper: &mut R,
    rules: &EntryRules,
    current: Option<&Policy>,
    entry: &Entry,
) -> Result<Result<Policy, Fault>, KeeperFault>
    ensures epoch { IfOk result (λ epoch. (r : Repository) → R.content keeper.new ≡ Some r
        → epoch ≡ epoch_by rules.now.anchor (option_copied current.entry) (policy_of r (target_of entry.now.body))) }
    ensures same { Undisturbed R.Keeper keeper.old keeper.new }
    ensures cause { HasCause keeper_failed (R.faults keeper.old) (R.faults keeper.new) result }
    ensures reads { (r : Repository) → R.content keeper.new ≡ Some r → R.reads keeper.new ≤ R.reads keeper.old
        + policy_reads r (target_of entry.now.body) }
{
    let target = target_of(entry);
    let known = &rules.signed;
    let found = check_policy(alloc, keeper, known, &target)?;
    Ok(epoch_by(alloc, known, &rules.anchor, current, found)?)
}

// Whether two states that were compared have one tree.
fn has_one_tree(comparison: &Comparison) -> bool
    ensures { result ≡ has_one_tree comparison.now }
{
    match comparison {
        Comparison::Broken { id: _ } => false,
        Comparison::Changed { from, to, paths: _ } => from.as_bytes() == to.as_bytes(),
    }
}

// Whether the states of two targets have one tree.
fn has_same_tree<R: Keeper>(
    alloc: Global,
    keeper: &mut R,
    known: &KnownTrees,
    from: &ObjectId,
    to: &ObjectId,
) -> Result<bool, KeeperFault>
    requires known { (r : Repository) → R.content keeper.old ≡ Some r → trees_.AreKnownIn r known.now }
    ensures answer { IfOk result (λ same. (r : Repository) → R.content keeper.new ≡ Some r
        → same ≡ is_same_tree (tree_in (walk_of (readings_of r) from.now)) (tree_in (walk_of (readings_of r) to.now))) }
    ensures same { Undisturbed R.Keeper keeper.old keeper.new }
    ensures cause { HasCause keeper_failed (R.faults keeper.old) (R.faults keeper.new) result }
    ensures reads { OnOk result ((r : Repository) → R.content keeper.new ≡ Some r
        → both_sound (readings_of r) from.now to.now ≡ true → R.reads keeper.new ≤ R.reads keeper.old + comparison_reads
        (readings_of r) from.now to.now) }
{
    let comparison = compared(alloc, keeper, known, from, to)?;
    Ok(has_one_tree(&comparison))
}

/// The rules with what was learned of the repository that is judged.
#[derive(Clone, Copy)]
pub struct KnowingRules<'a> {
    pub rules: &'a EntryRules,
    pub known: &'a Learned,
}

impl<'a, 's, R: Keeper> Judge<Policy, Fault, LessonStore<'s, R>> for KnowingRules<'a> {
    ghost rules = { λ j. real_rules j.rules.now.anchor };

    ghost trusts = { λ j r. AreKnownIn r j.known.now };

    ghost content = { λ s. R.content s.keeper.now };

    ghost tells_left = { λ s. R.tells_left s.keeper.now };

    ghost left = { λ s. R.left s.keeper.now };

    ghost faults = { λ s. R.faults s.keeper.now };

    ghost reads = { λ s. R.reads s.keeper.now };

    ghost comes = { λ s t. Leads R.Keeper s.keeper.ghost_name t.keeper.ghost_name s.lesson.ghost_name
        t.lesson.ghost_name s.keeper.now t.keeper.now s.lesson.now t.lesson.now };

    fn epoch(
        &self,
        alloc: Global,
        store: &mut LessonStore<'s, R>,
        policy: Option<&Policy>,
        entry: &Entry,
    ) -> Result<Result<Policy, Fault>, JudgeFault> {
        judged(epoch(alloc, store.keeper, self.rules, policy, entry))
    }

    fn find(
        &self,
        alloc: Global,
        store: &mut LessonStore<'s, R>,
        policy: &Policy,
        entry: &Entry,
        from: &ObjectId,
        attested: Option<&ObjectId>,
    ) -> Result<Finding<Fault>, JudgeFault> {
        let found = judged(find(alloc, store.keeper, self, policy, entry, from, attested))?;
        *store.lesson = found.lesson;
        Ok(found.finding)
    }

    fn has_same_tree(
        &self,
        alloc: Global,
        store: &mut LessonStore<'s, R>,
        from: &ObjectId,
        to: &ObjectId,
    ) -> Result<bool, JudgeFault> {
        judged(has_same_tree(alloc, store.keeper, &self.known.trees, from, to))
    }

    fn no_policy(&self) -> Fault {
        Fault::NoPolicy
    }

    fn skipper(&self, policy: &Policy, annotation: &Entry) -> Option<KeyId> {
        signer_among(&policy.keys, annotation)
    }

    fn may_skip(&self, policy: &Policy, key: &KeyId, name: &RefName) -> bool {
        may_act(&policy.rules, name.text(), key)
    }
}
