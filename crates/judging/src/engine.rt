//! One forward pass over a log.

ghost use Rattle.std.specs.Prelude.{◌≡◌, ◌↔◌, ◌<◌, ◌≤◌, ◌+◌, [], ℕ, List, Bool, Option, Some, None, true, false, IfOk};
ghost use Rattle.std.specs.Prelude.{IsTrue, OnErr, OnOk, length};
ghost use Rattle.std.specs.Option.{option_copied};
ghost use Rattle.octets.specs.Causes.{HasCause};
ghost use Rattle.git_object.specs.Repository.{Repository};
ghost use Rattle.rsl_chain.specs.Entries.{Taken};
ghost use Rattle.judging.specs.Judges.{KeepsStore, judge_failed};
ghost use Rattle.judging.specs.Rules.{Rules};
ghost use Rattle.judging.specs.Logs.{entry_at, has_id, is_entry_of, last_signers, pending, policy_after, prior};
ghost use Rattle.judging.specs.Logs.{prior_target, skipped};

use crate::book::Book;
use crate::judged::{tip, violation};
use crate::noting::take_note;
use crate::references::place_before;
use crate::taking::{look_reference, take_reference};
use crate::{EntryVerdict, Judge, JudgeFault, KeyIds, Verdict};
use git_object::{ObjectId, RefName};
use octets::{Copied, Memory};
use rsl_chain::{Entry, EntryBody};
use std::alloc::Global;

/// Judges the entries of a log one after the other, under policies `P` and with faults `F`, and keeps of each what
/// later ones need: the policy and the attestations' target now in force, the lanes of references, the target and
/// the id of each entry, and the faults of those that were refused.
#[derive(Drop)]
pub struct Engine<P, F> {
    pub(crate) policy: Option<P>,
    pub(crate) attested: Option<ObjectId>,
    pub(crate) signers: KeyIds,
    pub(crate) book: Book<F>,
}

impl<P, F> Engine<P, F> {
    ghost use Rattle.judging.specs.Engines.{Stands, has_taken, taken};
    ghost use Rattle.judging.specs.Reads.{may_rescue};

    /// An engine that took no entry. It takes no memory.
    pub fn new(alloc: Global) -> Engine<P, F>
        ensures { (rules : Rules P F) → Stands rules [] result }
    {
        Engine {
            policy: None,
            attested: None,
            signers: KeyIds::new(alloc),
            book: Book::new(alloc),
        }
    }

    /// How many entries were taken.
    pub fn len(&self) -> u64
        ensures { result ≡ taken self.now }
    {
        self.book.len()
    }

    /// Whether an entry of this id was taken.
    pub fn has(&self, id: &ObjectId) -> bool
        ensures { result ≡ has_taken self.now id.now }
    {
        self.book.place(id).is_some()
    }

    /// The number of the entry of an id.
    pub fn place(&self, id: &ObjectId) -> Option<u64>
        ensures { (rules : Rules P F) (log : List Taken) → Stands rules log self.now
            → (i : ℕ) → (result ≡ Some i) ↔ ((0 < i) × (i ≤ length log) × (has_id (entry_at log i) id.now ≡ true)) }
    {
        self.book.place(id)
    }

    /// The number of a reference's last entry that is not skipped.
    pub fn prior(&self, name: &RefName) -> Option<u64>
        ensures { (rules : Rules P F) (log : List Taken) → Stands rules log self.now
            → result ≡ prior rules log name.now }
    {
        self.book.prior(name)
    }

    /// The target of a reference's last entry that is not skipped.
    pub fn prior_target(&self, name: &RefName) -> Option<ObjectId>
        ensures { (rules : Rules P F) (log : List Taken) → Stands rules log self.now
            → result ≡ prior_target rules log name.now }
    {
        let prior = self.book.prior(name)?;
        self.book.target(prior)
    }

    /// Whether an entry of a reference that is neither authorised nor rescued comes after its last one that is not
    /// skipped, so that the reference's next entry may rescue it.
    pub fn may_rescue(&self, name: &RefName) -> bool
        ensures { (rules : Rules P F) (log : List Taken) → Stands rules log self.now
            → result ≡ may_rescue rules log name.now }
    {
        let stands = place_before(&self.book, name);
        self.book.is_pending_after(name, stands.above)
    }

    /// Whether the entry of a number is a reference's and is skipped.
    pub fn skipped(&self, number: u64) -> bool
        ensures { (rules : Rules P F) (log : List Taken) → Stands rules log self.now
            → IsTrue result ↔ ((0 < number) × (name : List ℕ) × (is_entry_of (entry_at log number) name ≡ true)
            × (skipped rules log number ≡ true)) }
    {
        self.book.is_skipped(number)
    }

    /// Whether the entry of a number is a reference's that is neither authorised nor rescued.
    pub fn pending(&self, number: u64) -> bool
        ensures { (rules : Rules P F) (log : List Taken) → Stands rules log self.now
            → IsTrue result ↔ ((0 < number) × (name : List ℕ) × (is_entry_of (entry_at log number) name ≡ true)
            × (pending rules log number ≡ true)) }
    {
        match self.book.name_of(number) {
            Some(name) => self.book.is_pending(name, number),
            None => false,
        }
    }

    /// The policy in force after the entries taken.
    pub fn policy(&self) -> Option<&P>
        ensures { (rules : Rules P F) (log : List Taken) → Stands rules log self.now
            → option_copied result ≡ policy_after rules log }
    {
        self.policy.as_ref()
    }

    /// The keys that signed for the last entry taken. There are none for an annotation, for an entry of the
    /// policy's reference, and where no policy was in force.
    pub fn signers(&self) -> &KeyIds
        ensures { (rules : Rules P F) (log : List Taken) → Stands rules log self.now
            → result.now ≡ last_signers rules log }
    {
        &self.signers
    }
}

impl<P: Drop, F: Copied> Engine<P, F> {
    ghost use Rattle.std.specs.Prelude.{◌++◌, ◌∷◌, unwrap_or};
    ghost use Rattle.judging.specs.Engines.{IsTaken, Stands, has_taken, taken};
    ghost use Rattle.judging.specs.Reads.{decision_reads_of, is_bounded, reads_of};
    ghost use Rattle.judging.specs.Verdicts.{IsJudged, verdict_of};

    /// Takes the next entry, of an id that no earlier one has, and answers whether it is authorised, refused for
    /// a fault, or an annotation. After a refusal the engine stands for the list that it stood for.
    pub fn extend<S, J: Judge<P, F, S>>(
        &mut self,
        alloc: Global,
        judge: &J,
        store: &mut S,
        entry: &Entry,
    ) -> Result<EntryVerdict<F>, JudgeFault>
        requires next { entry.now.number ≡ taken self.old + 1 }
        requires fresh { has_taken self.old entry.now.id ≡ false }
        requires trusts { (r : Repository) → J.content store.old ≡ Some r → J.trusts judge.now r }
        ensures taken { IfOk result (λ verdict. (r : Repository) (log : List Taken) → J.content store.new ≡ Some r
            → Stands (J.rules judge.now) log self.old
            → IsTaken (J.rules judge.now) log (record { entry = entry.now; repository = r }) self.new verdict) }
        ensures count { OnOk result (taken self.new ≡ entry.now.number) }
        ensures refused { OnErr result ((rules : Rules P F) (log : List Taken) → Stands rules log self.old
            → Stands rules log self.new) }
        ensures same { KeepsStore J.content J.tells_left J.left J.comes store.old store.new }
        ensures cause { HasCause judge_failed (J.faults store.old) (J.faults store.new) result }
        ensures reads { OnOk result ((r : Repository) (log : List Taken) → J.content store.new ≡ Some r
            → Stands (J.rules judge.now) log self.old
            → is_bounded (J.rules judge.now) log (record { entry = entry.now; repository = r }) ≡ true
            → J.reads store.new ≤ J.reads store.old + reads_of (J.rules judge.now) log
            (record { entry = entry.now; repository = r })) }
    {
        match &entry.body {
            EntryBody::Reference { name, target } => {
                take_reference(alloc, self, judge, store, entry, name, target)
            }
            EntryBody::Annotation {
                ids,
                skip,
                message: _,
            } => {
                take_note::<P, F, S, J>(alloc, self, judge, entry, ids.as_slice(), *skip)?;
                Ok(EntryVerdict::Noted)
            }
        }
    }

    /// What `extend` would answer of the next entry. Nothing changes.
    pub fn look<S, J: Judge<P, F, S>>(
        &self,
        alloc: Global,
        judge: &J,
        store: &mut S,
        entry: &Entry,
    ) -> Result<EntryVerdict<F>, JudgeFault>
        requires next { entry.now.number ≡ taken self.now + 1 }
        requires fresh { has_taken self.now entry.now.id ≡ false }
        requires trusts { (r : Repository) → J.content store.old ≡ Some r → J.trusts judge.now r }
        ensures answer { IfOk result (λ verdict. (r : Repository) (log : List Taken) → J.content store.new ≡ Some r
            → Stands (J.rules judge.now) log self.now
            → verdict ≡ verdict_of (J.rules judge.now) log (record { entry = entry.now; repository = r })) }
        ensures same { KeepsStore J.content J.tells_left J.left J.comes store.old store.new }
        ensures cause { HasCause judge_failed (J.faults store.old) (J.faults store.new) result }
        ensures reads { OnOk result ((r : Repository) (log : List Taken) → J.content store.new ≡ Some r
            → Stands (J.rules judge.now) log self.now
            → is_bounded (J.rules judge.now) log (record { entry = entry.now; repository = r }) ≡ true
            → J.reads store.new ≤ J.reads store.old + decision_reads_of (J.rules judge.now) log
            (record { entry = entry.now; repository = r })) }
    {
        match &entry.body {
            EntryBody::Reference { name, target: _ } => {
                look_reference(alloc, self, judge, store, entry, name)
            }
            EntryBody::Annotation {
                ids: _,
                skip: _,
                message: _,
            } => Ok(EntryVerdict::Noted),
        }
    }

    /// The verdict on a reference that has this value, by the entries taken: the first entry that is neither
    /// authorised nor rescued; else whether the reference stands where its last entry that is not skipped put it.
    pub fn verdict(&self, name: &RefName, kept: &ObjectId) -> Result<Verdict<F>, Memory>
        ensures { IfOk result (λ verdict. (rules : Rules P F) (log : List Taken) → Stands rules log self.now
            → IsJudged rules log name.now kept.now verdict) }
    {
        match violation(&self.book, name)? {
            Some(verdict) => Ok(verdict),
            None => Ok(tip(&self.book, name, kept)),
        }
    }
}
