//! The engine of judging with the rules by which it judges, for whoever takes entries as they come.

ghost use Rattle.std.specs.Prelude.{◌≡◌, ◌≤◌, ◌<◌, ◌+◌, ◌↔◌, [], ℕ, List, Some, true, false, IfOk, IsTrue, OnErr, OnOk};
ghost use Rattle.std.specs.Option.{option_copied};
ghost use Rattle.octets.specs.Causes.{HasCause};
ghost use Rattle.git_object.specs.Repository.{Repository, value_of};
ghost use Rattle.keeper_api.specs.Faults.{keeper_failed};
ghost use Rattle.keeper_api.specs.Undisturbed.{Undisturbed};
ghost use Rattle.rsl_chain.specs.Entries.{Taken};
ghost use Rattle.judging.specs.Engines.{has_taken, taken};
ghost use Rattle.judging.specs.Logs.{entry_at, is_entry_of, last_signers, policy_after, prior_target, skipped};
ghost use Rattle.judging.specs.Reads.{decision_reads_of, is_bounded};
ghost use Rattle.judging.specs.Verdicts.{IsJudged, verdict_of};
ghost use Rattle.entry_rules.specs.Learning.{AreKnownIn};
ghost use Rattle.entry_rules.specs.RealRules.{real_rules};
ghost use Rattle.verify_ref.specs.Following.{Follows, TakesOne};
ghost use Rattle.verify_ref.specs.Logs.{comes_next};
ghost use Rattle.verify_ref.specs.Reading.{extending_reads};

use crate::next_entry::{LogEngine, comes_next, extend_by, look_by};
use crate::verifying::{RefVerdict, conclude};
use entry_rules::{EntryRules, Fault, Learned};
use git_object::{ObjectId, RefName};
use judging::{EntryVerdict, KeyIds as KeyIdList};
use keeper_api::{Keeper, KeeperFault};
use policy_epochs::Policy;
use root_metadata::KeyIds;
use rsl_chain::Entry;
use std::alloc::Global;

/// Takes the entries of a log one after the other, each to be judged in the repository that the store holds then, and
/// answers for those that it took. What it learned of a store serves later entries, so a store that it is
/// given may have more objects than an earlier one, and not others in their place.
#[derive(Drop)]
pub struct Engine {
    rules: EntryRules,
    known: Learned,
    entries: LogEngine,
}

impl Engine {
    /// An engine that took no entry. Where ids are given, the first policy's root role must have exactly their keys. It
    /// takes no memory.
    pub fn new(alloc: Global, anchor: Option<KeyIds>) -> Engine
        ensures anchor { result.rules.anchor ≡ anchor }
        ensures follows { Follows [] result }
        ensures known { (r : Repository) → AreKnownIn r result.known }
    {
        Engine {
            rules: EntryRules::new(anchor),
            known: Learned::new(alloc),
            entries: LogEngine::new(alloc),
        }
    }

    /// How many entries were taken.
    pub fn len(&self) -> u64
        ensures { result ≡ taken self.now.entries }
    {
        self.entries.len()
    }

    /// Whether an entry is the next that may be taken: its number is one more than those taken, and none of these has
    /// its id.
    pub fn comes_next(&self, entry: &Entry) -> bool
        ensures { result ≡ comes_next self.now.entries entry.now }
    {
        comes_next(&self.entries, entry)
    }

    /// The target of a reference's last entry that is not skipped, by the entries taken.
    pub fn prior_target(&self, name: &RefName) -> Option<ObjectId>
        ensures { (log : List Taken) → Follows log self.now
            → result ≡ prior_target (real_rules self.now.rules.anchor) log name.now }
    {
        self.entries.prior_target(name)
    }

    /// Takes the next entry, and answers whether it is authorised, refused for a fault, or an annotation. After a
    /// refusal the engine followed what it followed before. Where neither the reference's target before nor the entry's
    /// is broken, it makes at most 64 reads, two for each tree of both, and one for each rule file of a policy
    /// (`laws::few_reads`).
    pub fn extend<R: Keeper>(
        &mut self,
        alloc: Global,
        keeper: &mut R,
        entry: &Entry,
    ) -> Result<EntryVerdict<Fault>, KeeperFault>
        requires next { entry.now.number ≡ taken self.old.entries + 1 }
        requires fresh { has_taken self.old.entries entry.now.id ≡ false }
        requires known { (r : Repository) → R.content keeper.old ≡ Some r → AreKnownIn r self.old.known }
        ensures taken { IfOk result (λ verdict. (r : Repository) (log : List Taken) → R.content keeper.new ≡ Some r
            → Follows log self.old
            → TakesOne log (record { entry = entry.now; repository = r }) self.new verdict) }
        ensures count { OnOk result (taken self.new.entries ≡ entry.now.number) }
        ensures refused { OnErr result ((log : List Taken) → Follows log self.old → Follows log self.new) }
        ensures rules { self.new.rules ≡ self.old.rules }
        ensures known { (r : Repository) → R.content keeper.new ≡ Some r → AreKnownIn r self.new.known }
        ensures same { Undisturbed R.Keeper keeper.old keeper.new }
        ensures cause { HasCause keeper_failed (R.faults keeper.old) (R.faults keeper.new) result }
        ensures reads { OnOk result ((r : Repository) (log : List Taken) → R.content keeper.new ≡ Some r
            → Follows log self.old
            → is_bounded (real_rules self.old.rules.anchor) log (record { entry = entry.now; repository = r }) ≡ true
            → R.reads keeper.new ≤ R.reads keeper.old + extending_reads (real_rules self.old.rules.anchor) log
            (record { entry = entry.now; repository = r })) }
    {
        extend_by(
            alloc,
            keeper,
            &self.rules,
            &mut self.known,
            &mut self.entries,
            entry,
        )
    }

    /// Whether the entry of a number is a reference's and is skipped, by the entries taken. It takes no memory.
    pub fn skipped(&self, number: u64) -> bool
        ensures { (log : List Taken) → Follows log self.now
            → IsTrue result ↔ ((0 < number) × (name : List ℕ) × (is_entry_of (entry_at log number) name ≡ true)
            × (skipped (real_rules self.now.rules.anchor) log number ≡ true)) }
    {
        self.entries.skipped(number)
    }

    /// The policy in force after the entries taken. It takes no memory.
    pub fn policy(&self) -> Option<&Policy>
        ensures { (log : List Taken) → Follows log self.now
            → option_copied result ≡ policy_after (real_rules self.now.rules.anchor) log }
    {
        self.entries.policy()
    }

    /// The keys that signed for the last entry taken. There are none for an annotation, for an entry of the policy's
    /// reference, and where no policy was in force. It takes no memory.
    pub fn signers(&self) -> &KeyIdList
        ensures { (log : List Taken) → Follows log self.now
            → result.now ≡ last_signers (real_rules self.now.rules.anchor) log }
    {
        self.entries.signers()
    }

    /// The engine of judging that took the entries, lent: it answers what is asked of them under the rules of the
    /// anchor. It takes no memory.
    pub fn entries(&self) -> &LogEngine
        ensures { result.now ≡ self.now.entries }
    {
        &self.entries
    }

    /// Lets go what was learned of a store, so that the next one may hold others in their place. It takes no
    /// memory.
    pub fn forget(&mut self, alloc: Global)
        ensures known { (r : Repository) → AreKnownIn r self.new.known }
        ensures rules { self.new.rules ≡ self.old.rules }
        ensures follows { (log : List Taken) → Follows log self.old → Follows log self.new }
        ensures entries { self.new.entries ≡ self.old.entries }
        ensures count { taken self.new.entries ≡ taken self.old.entries }
    {
        self.known = Learned::new(alloc);
    }

    /// What `extend` would answer of the next entry. Nothing changes.
    pub fn look<R: Keeper>(
        &self,
        alloc: Global,
        keeper: &mut R,
        entry: &Entry,
    ) -> Result<EntryVerdict<Fault>, KeeperFault>
        requires next { entry.now.number ≡ taken self.now.entries + 1 }
        requires fresh { has_taken self.now.entries entry.now.id ≡ false }
        requires known { (r : Repository) → R.content keeper.old ≡ Some r → AreKnownIn r self.now.known }
        ensures answer { IfOk result (λ verdict. (r : Repository) (log : List Taken) → R.content keeper.new ≡ Some r
            → Follows log self.now
            → verdict ≡ verdict_of (real_rules self.now.rules.anchor) log
            (record { entry = entry.now; repository = r })) }
        ensures same { Undisturbed R.Keeper keeper.old keeper.new }
        ensures cause { HasCause keeper_failed (R.faults keeper.old) (R.faults keeper.new) result }
        ensures reads { OnOk result ((r : Repository) (log : List Taken) → R.content keeper.new ≡ Some r
            → Follows log self.now
            → is_bounded (real_rules self.now.rules.anchor) log (record { entry = entry.now; repository = r }) ≡ true
            → R.reads keeper.new ≤ R.reads keeper.old + decision_reads_of (real_rules self.now.rules.anchor) log
            (record { entry = entry.now; repository = r })) }
    {
        look_by(
            alloc,
            keeper,
            &self.rules,
            &self.known,
            &self.entries,
            entry,
        )
    }

    /// The verdict on a reference by the entries taken and by its value in the store. It reads no object.
    pub fn verdict<R: Keeper>(
        &self,
        alloc: Global,
        keeper: &mut R,
        name: &RefName,
    ) -> Result<RefVerdict, KeeperFault>
        ensures judged { IfOk result (λ verdict. (r : Repository) (log : List Taken) → R.content keeper.new ≡ Some r
            → Follows log self.now
            → IsJudged (real_rules self.now.rules.anchor) log name.now (value_of r name.now) verdict) }
        ensures same { Undisturbed R.Keeper keeper.old keeper.new }
        ensures cause { HasCause keeper_failed (R.faults keeper.old) (R.faults keeper.new) result }
        ensures reads { R.reads keeper.new ≡ R.reads keeper.old }
    {
        conclude(alloc, keeper, &self.entries, name)
    }
}
