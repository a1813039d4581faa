//! Who answers the rules for a store.

ghost use Rattle.std.specs.Prelude.{◌≡◌, ◌+◌, ◌≤◌, ℕ, Bool, Option, Some, true, IfOk, OnOk};
ghost use Rattle.std.specs.Option.{option_copied};
ghost use Rattle.octets.specs.Causes.{HasCause};
ghost use Rattle.git_object.specs.Repository.{Repository};
ghost use Rattle.rsl_chain.specs.Entries.{target_of};
ghost use Rattle.judging.specs.Rules.{Rules, same_tree};
ghost use Rattle.judging.specs.Judges.{KeepsStore, judge_failed};

use git_object::{Items, KeyId, ObjectId, RefName};
use octets::Memory;
use rsl_chain::Entry;
use std::alloc::Global;

/// Ids of keys.
pub type KeyIds = Items<KeyId>;

/// Why a judge did not answer.
#[derive(Clone, Copy, Debug, PartialEq, Eq, Drop)]
pub enum JudgeFault {
    /// The store failed. It comes exactly where it counted a fault.
    Failed,
    Memory,
}

impl From<Memory> for JudgeFault {
    ghost use Rattle.std.specs.Prelude.{◌≡◌};
    ghost use Rattle.judging.specs.declared.judges.JudgeFault.TheVariants as fault;

    ghost from_gives = { λ _ e. e ≡ fault.Memory };

    fn from(_error: Memory) -> JudgeFault {
        JudgeFault::Memory
    }
}

/// What is found of an entry under a policy: its fault, if it has one, and the keys that signed for it.
#[derive(Drop)]
pub struct Finding<F> {
    pub fault: Option<F>,
    pub signers: KeyIds,
}

/// Answers the rules over policies `P` and faults `F` for the repository that a store `S` holds. No call changes what
/// it holds, nor what a stop may leave of it. A call that the store refuses answers `Failed` and counts one fault, and
/// no other call counts any.
pub trait Judge<P, F, S> {
    /// The rules by which it answers.
    ghost rules: { Self → Rules P F };

    /// What the judge takes for granted of a repository.
    ghost trusts: { Self → Repository → Type 0 };

    /// The repository that a store holds, where it tells it. Telling may end, and never begins.
    ghost content: { S → Option Repository };

    /// Whether a store tells what a stop may leave of it.
    ghost tells_left: { S → Bool };

    /// What a stop may leave of it, where that is told.
    ghost left: { S → Repository → Type 0 };

    /// How many faults a store has counted.
    ghost faults: { S → ℕ };

    /// How often an object of a store was read.
    ghost reads: { S → ℕ };

    /// Whether the second store comes of the first by calls that make no commit.
    ghost comes: { S → S → Type 0 };

    /// The policy that an entry of the policy's reference opens under the one in force, or the entry's fault.
    fn epoch(
        &self,
        alloc: Global,
        store: &mut S,
        policy: Option<&P>,
        entry: &Entry,
    ) -> Result<Result<P, F>, JudgeFault>
        ensures answer { IfOk result (λ epoch. (r : Repository) → content store.new ≡ Some r
            → epoch ≡ (rules self.now).epoch r (option_copied policy.entry) entry.now) }
        ensures same { KeepsStore content tells_left left comes store.old store.new }
        ensures cause { HasCause judge_failed (faults store.old) (faults store.new) result }
        ensures reads { (r : Repository) → content store.new ≡ Some r → reads store.new ≤ reads store.old
            + (rules self.now).epoch_reads r (option_copied policy.entry) entry.now };

    /// The fault of another entry under a policy, and its signers, by where its reference stood before it and by
    /// the attestations before it.
    fn find(
        &self,
        alloc: Global,
        store: &mut S,
        policy: &P,
        entry: &Entry,
        from: &ObjectId,
        attested: Option<&ObjectId>,
    ) -> Result<Finding<F>, JudgeFault>
        requires trusts { (r : Repository) → content store.old ≡ Some r → trusts self.now r }
        ensures fault { IfOk result (λ found. (r : Repository) → content store.new ≡ Some r
            → found.fault ≡ (rules self.now).fault r policy.now entry.now from.now (option_copied attested.entry)) }
        ensures signers { IfOk result (λ found. (r : Repository) → content store.new ≡ Some r
            → found.signers ≡ (rules self.now).signers r policy.now entry.now from.now (option_copied attested.entry)) }
        ensures same { KeepsStore content tells_left left comes store.old store.new }
        ensures cause { HasCause judge_failed (faults store.old) (faults store.new) result }
        ensures reads { OnOk result ((r : Repository) → content store.new ≡ Some r
            → (rules self.now).bounded r from.now (target_of entry.now.body) ≡ true
            → reads store.new ≤ reads store.old + (rules self.now).fault_reads r policy.now entry.now from.now
            (option_copied attested.entry)) };

    /// Whether the states of two targets have one tree.
    fn has_same_tree(
        &self,
        alloc: Global,
        store: &mut S,
        from: &ObjectId,
        to: &ObjectId,
    ) -> Result<bool, JudgeFault>
        requires trusts { (r : Repository) → content store.old ≡ Some r → trusts self.now r }
        ensures answer { IfOk result (λ same. (r : Repository) → content store.new ≡ Some r
            → same ≡ same_tree (rules self.now) r from.now to.now) }
        ensures same { KeepsStore content tells_left left comes store.old store.new }
        ensures cause { HasCause judge_failed (faults store.old) (faults store.new) result }
        ensures reads { OnOk result ((r : Repository) → content store.new ≡ Some r
            → (rules self.now).bounded r from.now to.now ≡ true → reads store.new ≤ reads store.old
            + (rules self.now).tree_reads r from.now to.now) };

    /// The fault of an entry where no policy is in force.
    fn no_policy(&self) -> F
        ensures { result ≡ (rules self.now).no_policy };

    /// The key of a policy that signed an annotation.
    fn skipper(&self, policy: &P, annotation: &Entry) -> Option<KeyId>
        ensures { result ≡ (rules self.now).skipper policy.now annotation.now };

    /// Whether a key may skip entries of a reference.
    fn may_skip(&self, policy: &P, key: &KeyId, name: &RefName) -> bool
        ensures { result ≡ (rules self.now).may_skip policy.now key.now name.now };
}
