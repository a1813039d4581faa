//! The engine over the entries of a log in a store that judges those from a number on.

ghost use Rattle.std.specs.Prelude.{◌≡◌, ◌≤◌, ◌<◌, ◌+◌, [], List, Some, true, false, IfOk, IsTrue, OnOk};
ghost use Rattle.std.specs.Option.{option_copied};
ghost use Rattle.octets.specs.Causes.{HasCause};
ghost use Rattle.git_object.specs.Repository.{Repository};
ghost use Rattle.keeper_api.specs.Faults.{keeper_failed};
ghost use Rattle.keeper_api.specs.Undisturbed.{Undisturbed};
ghost use Rattle.rsl_chain.specs.Entries.{Taken};
ghost use Rattle.tree_paths.specs.Repositories.{readings_of};
ghost use Rattle.judging.specs.Engines.{IsTaken, Stands, has_taken, taken};
ghost use Rattle.judging.specs.Logs.{above, policy_after};
ghost use Rattle.judging.specs.Reads.{is_bounded, reads_of};
ghost use Rattle.judging.specs.Rules.{Rules};
ghost use Rattle.policy_epochs.specs.declared.policies.Policy.{Policy};
ghost use Rattle.entry_rules.specs.Learning.{AreKnownIn, IsLesson};
ghost use Rattle.entry_rules.specs.RealRules.{real_rules};
ghost use Rattle.entry_rules.specs.declared.faults.Fault.{Fault};
ghost use Rattle.verify_ref.specs.Logs.{comes_next};
ghost use Rattle.verify_ref.specs.Reading.{extending_reads, learning_reads};
ghost use Rattle.judged_logs.specs.LaterRules.{AreNumbered, rules_from};

use entry_rules::{EntryRules, Fault, KnowingRules, Learned, Lesson, LessonStore};
use git_object::RefName;
use judged_logs::LaterRules;
use judging::{EntryVerdict, JudgeFault};
use keeper_api::{Keeper, KeeperFault};
use policy_epochs::Policy;
use root_metadata::KeyIds;
use rsl_chain::{Entry, EntryBody};
use std::alloc::Global;
use verify_ref::LogEngine;

/// Takes the entries of a log one after the other, and judges those from a number on, and the policy's; with what is
/// learned of the store.
#[derive(Drop)]
pub struct LaterEngine {
    first: u64,
    rules: EntryRules,
    known: Learned,
    entries: LogEngine,
}

// Whether a reference stands at an entry that was judged.
fn stands_later(entries: &LogEngine, first: u64, name: &RefName) -> bool
    ensures { IsTrue result → (rules : Rules Policy Fault) (log : List Taken) → Stands rules log entries.now
        → first ≤ above rules log name.now }
{
    match entries.prior(name) {
        Some(number) => first <= number,
        None => false,
    }
}

// Learns the trees of where the reference of an entry stands, where the entry that put it there was judged and the next
// may rescue none.
fn learn_before<R: Keeper>(
    alloc: Global,
    keeper: &mut R,
    known: &mut Learned,
    entries: &LogEngine,
    first: u64,
    entry: &Entry,
) -> Result<(), KeeperFault>
    requires known { (r : Repository) → R.content keeper.old ≡ Some r → AreKnownIn r known.old }
    ensures known { (r : Repository) → R.content keeper.new ≡ Some r → AreKnownIn r known.new }
    ensures same { Undisturbed R.Keeper keeper.old keeper.new }
    ensures cause { HasCause keeper_failed (R.faults keeper.old) (R.faults keeper.new) result }
    ensures reads { (r : Repository) (rules : Rules Policy Fault) (log : List Taken) → R.content keeper.new ≡ Some r
        → Stands (rules_from first rules) log entries.now → AreNumbered log
        → R.reads keeper.new ≤ R.reads keeper.old + learning_reads rules r log entry.now.body }
{
    match &entry.body {
        EntryBody::Reference { name, target: _ } => {
            if !stands_later(entries, first, name) {
                return Ok(());
            }
            if entries.may_rescue(name) {
                return Ok(());
            }
            match entries.prior_target(name) {
                Some(from) => known.learn(alloc, keeper, &from),
                None => Ok(()),
            }
        }
        EntryBody::Annotation {
            ids: _,
            skip: _,
            message: _,
        } => Ok(()),
    }
}

// Takes the next entry in a store that learns of it.
fn extend_in<R: Keeper>(
    alloc: Global,
    store: &mut LessonStore<'_, R>,
    judge: &LaterRules<KnowingRules<'_>>,
    entries: &mut LogEngine,
    entry: &Entry,
) -> Result<EntryVerdict<Fault>, KeeperFault>
    requires next { entry.now.number ≡ taken entries.old + 1 }
    requires fresh { has_taken entries.old entry.now.id ≡ false }
    requires known { (r : Repository) → R.content store.old.keeper.now ≡ Some r → AreKnownIn r judge.now.judge.known.now }
    ensures same_store { store.new.keeper.ghost_name ≡ store.old.keeper.ghost_name }
    ensures same_lesson { store.new.lesson.ghost_name ≡ store.old.lesson.ghost_name }
    ensures taken { IfOk result (λ verdict. (r : Repository) (log : List Taken)
        → R.content store.new.keeper.now ≡ Some r
        → Stands (rules_from judge.now.first (real_rules judge.now.judge.rules.now.anchor)) log entries.old
        → IsTaken (rules_from judge.now.first (real_rules judge.now.judge.rules.now.anchor)) log
        (record { entry = entry.now; repository = r }) entries.new verdict) }
    ensures lesson { (r : Repository) → R.content store.new.keeper.now ≡ Some r
        → IsLesson (readings_of r).trees store.old.lesson.now
        → IsLesson (readings_of r).trees store.new.lesson.now }
    ensures same { Undisturbed R.Keeper store.old.keeper.now store.new.keeper.now }
    ensures cause { HasCause keeper_failed (R.faults store.old.keeper.now) (R.faults store.new.keeper.now) result }
    ensures reads { OnOk result ((r : Repository) (log : List Taken) → R.content store.new.keeper.now ≡ Some r
        → Stands (rules_from judge.now.first (real_rules judge.now.judge.rules.now.anchor)) log entries.old
        → is_bounded (rules_from judge.now.first (real_rules judge.now.judge.rules.now.anchor)) log
        (record { entry = entry.now; repository = r }) ≡ true
        → R.reads store.new.keeper.now ≤ R.reads store.old.keeper.now
        + reads_of (rules_from judge.now.first (real_rules judge.now.judge.rules.now.anchor)) log
        (record { entry = entry.now; repository = r })) }
{
    match entries.extend(alloc, judge, store, entry) {
        Ok(verdict) => Ok(verdict),
        Err(JudgeFault::Failed) => Err(KeeperFault::Failed),
        Err(JudgeFault::Memory) => Err(KeeperFault::Memory),
    }
}

impl LaterEngine {
    ghost use Rattle.accounts.specs.Later.{FollowsFrom};

    /// An engine that took no entry, and judges those from a number on.
    pub(crate) fn new(alloc: Global, anchor: Option<KeyIds>, first: u64) -> LaterEngine
        ensures first { result.first ≡ first }
        ensures anchor { result.rules.anchor ≡ anchor }
        ensures follows { FollowsFrom [] result }
        ensures known { (r : Repository) → AreKnownIn r result.known }
    {
        LaterEngine {
            first,
            rules: EntryRules::new(anchor),
            known: Learned::new(alloc),
            entries: LogEngine::new(alloc),
        }
    }

    /// The number from which on entries are judged.
    pub(crate) fn first(&self) -> u64
        ensures { result ≡ self.now.first }
    {
        self.first
    }

    /// The engine of judging that took the entries, lent.
    pub(crate) fn entries(&self) -> &LogEngine
        ensures { result.now ≡ self.now.entries }
    {
        &self.entries
    }

    /// Whether an entry is the next that may be taken.
    pub(crate) fn comes_next(&self, entry: &Entry) -> bool
        ensures { result ≡ comes_next self.now.entries entry.now }
    {
        let len = self.entries.len();
        entry.number > len && entry.number - len == 1 && !self.entries.has(&entry.id)
    }

    /// The policy in force behind the entries taken, for what is known of an entry that is judged.
    pub(crate) fn policy_for(&self, entry: &Entry) -> Option<&Policy>
        ensures { self.now.first ≤ entry.now.number → (log : List Taken) → FollowsFrom log self.now
            → option_copied result ≡ policy_after (real_rules self.now.rules.anchor) log }
    {
        if entry.number < self.first {
            None
        } else {
            self.entries.policy()
        }
    }

    /// Takes the next entry.
    pub(crate) fn extend<R: Keeper>(
        &mut self,
        alloc: Global,
        keeper: &mut R,
        entry: &Entry,
    ) -> Result<EntryVerdict<Fault>, KeeperFault>
        requires next { entry.now.number ≡ taken self.old.entries + 1 }
        requires fresh { has_taken self.old.entries entry.now.id ≡ false }
        requires known { (r : Repository) → R.content keeper.old ≡ Some r → AreKnownIn r self.old.known }
        ensures taken { IfOk result (λ verdict. (r : Repository) (log : List Taken) → R.content keeper.new ≡ Some r
            → FollowsFrom log self.old
            → IsTaken (rules_from self.old.first (real_rules self.old.rules.anchor)) log
            (record { entry = entry.now; repository = r }) self.new.entries verdict) }
        ensures first { self.new.first ≡ self.old.first }
        ensures rules { self.new.rules ≡ self.old.rules }
        ensures known { (r : Repository) → R.content keeper.new ≡ Some r → AreKnownIn r self.new.known }
        ensures same { Undisturbed R.Keeper keeper.old keeper.new }
        ensures cause { HasCause keeper_failed (R.faults keeper.old) (R.faults keeper.new) result }
        ensures reads { OnOk result ((r : Repository) (log : List Taken) → R.content keeper.new ≡ Some r
            → FollowsFrom log self.old → AreNumbered log
            → is_bounded (real_rules self.old.rules.anchor) log (record { entry = entry.now; repository = r }) ≡ true
            → R.reads keeper.new ≤ R.reads keeper.old + extending_reads (real_rules self.old.rules.anchor) log
            (record { entry = entry.now; repository = r })) }
    {
        match learn_before(
            alloc,
            keeper,
            &mut self.known,
            &self.entries,
            self.first,
            entry,
        ) {
            Ok(()) => {}
            Err(fault) => return Err(fault),
        }
        let mut lesson = Lesson::none();
        let mut store = LessonStore {
            keeper,
            lesson: &mut lesson,
        };
        let judge = LaterRules {
            judge: KnowingRules {
                rules: &self.rules,
                known: &self.known,
            },
            first: self.first,
        };
        let verdict = extend_in(alloc, &mut store, &judge, &mut self.entries, entry);
        let LessonStore {
            keeper: _,
            lesson: _,
        } = store;
        self.known.take(alloc, lesson);
        verdict
    }
}
