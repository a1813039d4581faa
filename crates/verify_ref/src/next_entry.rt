//! The next entry of a log, taken by the engine in a store.

ghost use Rattle.std.specs.Prelude.{◌≡◌, ◌≤◌, ◌+◌, ◌==◌, ◌&&◌, List, Some, true, false};
ghost use Rattle.std.specs.Prelude.{IfOk, OnErr, OnOk};
ghost use Rattle.octets.specs.Causes.{HasCause};
ghost use Rattle.git_object.specs.Repository.{Repository};
ghost use Rattle.keeper_api.specs.Faults.{keeper_failed};
ghost use Rattle.keeper_api.specs.Undisturbed.{Undisturbed};
ghost use Rattle.rsl_chain.specs.Entries.{Taken};
ghost use Rattle.rsl_chain.specs.declared.entries.Entry.{Entry};
ghost use Rattle.tree_paths.specs.Repositories.{readings_of};
ghost use Rattle.judging.specs.Engines.{IsTaken, Stands, has_taken, taken};
ghost use Rattle.judging.specs.Reads.{decision_reads_of, is_bounded, reads_of};
ghost use Rattle.judging.specs.Verdicts.{verdict_of};
ghost use Rattle.judging.specs.Rules.{Rules};
ghost use Rattle.policy_epochs.specs.declared.policies.Policy.{Policy};
ghost use Rattle.entry_rules.specs.declared.faults.Fault.{Fault};
ghost use Rattle.entry_rules.specs.Learning.{AreKnownIn, IsLesson};
ghost use Rattle.entry_rules.specs.RealRules.{real_rules};
ghost use Rattle.verify_ref.specs.Logs.{comes_next};
ghost use Rattle.verify_ref.specs.Reading.{extending_reads, learning_reads};

use entry_rules::{EntryRules, Fault, KnowingRules, Learned, Lesson, LessonStore};
use judging::{Engine, EntryVerdict, JudgeFault};
use keeper_api::{Keeper, KeeperFault};
use policy_epochs::Policy;
use rsl_chain::{Entry, EntryBody};
use std::alloc::Global;

/// The engine of judging over policies.
pub type LogEngine = Engine<Policy, Fault>;

/// Whether an entry is the next that an engine may take.
pub(crate) fn comes_next(engine: &LogEngine, entry: &Entry) -> bool
    ensures { result ≡ comes_next engine.now entry.now }
{
    let len = engine.len();
    entry.number > len && entry.number - len == 1 && !engine.has(&entry.id)
}

// Learns the trees of where the reference of an entry stands, with which the entry's are compared then. Where the entry
// may rescue others the two are compared twice, and nothing is learned for that.
fn learn_before<R: Keeper>(
    alloc: Global,
    keeper: &mut R,
    known: &mut Learned,
    engine: &LogEngine,
    entry: &Entry,
) -> Result<(), KeeperFault>
    requires known { (r : Repository) → R.content keeper.old ≡ Some r → AreKnownIn r known.old }
    ensures known { (r : Repository) → R.content keeper.new ≡ Some r → AreKnownIn r known.new }
    ensures same { Undisturbed R.Keeper keeper.old keeper.new }
    ensures cause { HasCause keeper_failed (R.faults keeper.old) (R.faults keeper.new) result }
    ensures reads { (r : Repository) (rules : Rules Policy Fault) (log : List Taken) → R.content keeper.new ≡ Some r
        → Stands rules log engine.now → R.reads keeper.new ≤ R.reads keeper.old
        + learning_reads rules r log entry.now.body }
{
    match &entry.body {
        EntryBody::Reference { name, target: _ } => {
            if engine.may_rescue(name) {
                return Ok(());
            }
            match engine.prior_target(name) {
                Some(from) => known.learn(alloc, keeper, &from),
                None => Ok(()),
            }
        }
        EntryBody::Annotation {
            ids: _,
            skip: _,
            message: _,
        } => Ok(()),
    }
}

// Takes the next entry in a store that learns of it.
fn extend_in<R: Keeper>(
    alloc: Global,
    store: &mut LessonStore<'_, R>,
    judge: &KnowingRules<'_>,
    engine: &mut LogEngine,
    entry: &Entry,
) -> Result<EntryVerdict<Fault>, KeeperFault>
    requires next { entry.now.number ≡ taken engine.old + 1 }
    requires fresh { has_taken engine.old entry.now.id ≡ false }
    requires known { (r : Repository) → R.content store.old.keeper.now ≡ Some r → AreKnownIn r judge.now.known.now }
    ensures same_store { store.new.keeper.ghost_name ≡ store.old.keeper.ghost_name }
    ensures same_lesson { store.new.lesson.ghost_name ≡ store.old.lesson.ghost_name }
    ensures taken { IfOk result (λ verdict. (r : Repository) (log : List Taken)
        → R.content store.new.keeper.now ≡ Some r → Stands (real_rules judge.now.rules.now.anchor) log engine.old
        → IsTaken (real_rules judge.now.rules.now.anchor) log (record { entry = entry.now; repository = r }) engine.new
        verdict) }
    ensures count { OnOk result (taken engine.new ≡ entry.now.number) }
    ensures refused { OnErr result ((rules : Rules Policy Fault) (log : List Taken) → Stands rules log engine.old
        → Stands rules log engine.new) }
    ensures lesson { (r : Repository) → R.content store.new.keeper.now ≡ Some r
        → IsLesson (readings_of r).trees store.old.lesson.now
        → IsLesson (readings_of r).trees store.new.lesson.now }
    ensures same { Undisturbed R.Keeper store.old.keeper.now store.new.keeper.now }
    ensures cause { HasCause keeper_failed (R.faults store.old.keeper.now) (R.faults store.new.keeper.now) result }
    ensures reads { OnOk result ((r : Repository) (log : List Taken) → R.content store.new.keeper.now ≡ Some r
        → Stands (real_rules judge.now.rules.now.anchor) log engine.old
        → is_bounded (real_rules judge.now.rules.now.anchor) log (record { entry = entry.now; repository = r }) ≡ true
        → R.reads store.new.keeper.now ≤ R.reads store.old.keeper.now + reads_of (real_rules judge.now.rules.now.anchor)
        log (record { entry = entry.now; repository = r })) }
{
    match engine.extend(alloc, judge, store, entry) {
        Ok(verdict) => Ok(verdict),
        Err(JudgeFault::Failed) => Err(KeeperFault::Failed),
        Err(JudgeFault::Memory) => Err(KeeperFault::Memory),
    }
}

// What that would answer.
fn look_in<R: Keeper>(
    alloc: Global,
    store: &mut LessonStore<'_, R>,
    judge: &KnowingRules<'_>,
    engine: &LogEngine,
    entry: &Entry,
) -> Result<EntryVerdict<Fault>, KeeperFault>
    requires next { entry.now.number ≡ taken engine.now + 1 }
    requires fresh { has_taken engine.now entry.now.id ≡ false }
    requires known { (r : Repository) → R.content store.old.keeper.now ≡ Some r → AreKnownIn r judge.now.known.now }
    ensures same_store { store.new.keeper.ghost_name ≡ store.old.keeper.ghost_name }
    ensures same_lesson { store.new.lesson.ghost_name ≡ store.old.lesson.ghost_name }
    ensures answer { IfOk result (λ verdict. (r : Repository) (log : List Taken)
        → R.content store.new.keeper.now ≡ Some r → Stands (real_rules judge.now.rules.now.anchor) log engine.now
        → verdict ≡ verdict_of (real_rules judge.now.rules.now.anchor) log (record { entry = entry.now; repository = r })) }
    ensures same { Undisturbed R.Keeper store.old.keeper.now store.new.keeper.now }
    ensures cause { HasCause keeper_failed (R.faults store.old.keeper.now) (R.faults store.new.keeper.now) result }
    ensures reads { OnOk result ((r : Repository) (log : List Taken) → R.content store.new.keeper.now ≡ Some r
        → Stands (real_rules judge.now.rules.now.anchor) log engine.now
        → is_bounded (real_rules judge.now.rules.now.anchor) log (record { entry = entry.now; repository = r }) ≡ true
        → R.reads store.new.keeper.now ≤ R.reads store.old.keeper.now
        + decision_reads_of (real_rules judge.now.rules.now.anchor) log (record { entry = entry.now; repository = r })) }
{
    match engine.look(alloc, judge, store, entry) {
        Ok(verdict) => Ok(verdict),
        Err(JudgeFault::Failed) => Err(KeeperFault::Failed),
        Err(JudgeFault::Memory) => Err(KeeperFault::Memory),
    }
}

/// Takes the next entry by the rules, with what was learned before it, and learns of it. After a refusal the engine stands for the
/// list that it stood for.
pub(crate) fn extend_by<R: Keeper>(
    alloc: Global,
    keeper: &mut R,
    rules: &EntryRules,
    known: &mut Learned,
    engine: &mut LogEngine,
    entry: &Entry,
) -> Result<EntryVerdict<Fault>, KeeperFault>
    requires next { entry.now.number ≡ taken engine.old + 1 }
    requires fresh { has_taken engine.old entry.now.id ≡ false }
    requires known { (r : Repository) → R.content keeper.old ≡ Some r → AreKnownIn r known.old }
    ensures taken { IfOk result (λ verdict. (r : Repository) (log : List Taken) → R.content keeper.new ≡ Some r
        → Stands (real_rules rules.now.anchor) log engine.old
        → IsTaken (real_rules rules.now.anchor) log (record { entry = entry.now; repository = r }) engine.new verdict) }
    ensures count { OnOk result (taken engine.new ≡ entry.now.number) }
    ensures refused { OnErr result ((rules : Rules Policy Fault) (log : List Taken) → Stands rules log engine.old
        → Stands rules log engine.new) }
    ensures known { (r : Repository) → R.content keeper.new ≡ Some r → AreKnownIn r known.new }
    ensures same { Undisturbed R.Keeper keeper.old keeper.new }
    ensures cause { HasCause keeper_failed (R.faults keeper.old) (R.faults keeper.new) result }
    ensures reads { OnOk result ((r : Repository) (log : List Taken) → R.content keeper.new ≡ Some r
        → Stands (real_rules rules.now.anchor) log engine.old
        → is_bounded (real_rules rules.now.anchor) log (record { entry = entry.now; repository = r }) ≡ true
        → R.reads keeper.new ≤ R.reads keeper.old + extending_reads (real_rules rules.now.anchor) log
        (record { entry = entry.now; repository = r })) }
{
    match learn_before(alloc, keeper, known, engine, entry) {
        Ok(()) => {}
        Err(fault) => return Err(fault),
    }
    let mut lesson = Lesson::none();
    let mut store = LessonStore {
        keeper,
        lesson: &mut lesson,
    };
    let judge = KnowingRules { rules, known };
    let verdict = extend_in(alloc, &mut store, &judge, engine, entry);
    let LessonStore {
        keeper: _,
        lesson: _,
    } = store;
    known.take(alloc, lesson);
    verdict
}

/// What `extend_by` would answer of the next entry. Nothing changes.
pub(crate) fn look_by<R: Keeper>(
    alloc: Global,
    keeper: &mut R,
    rules: &EntryRules,
    known: &Learned,
    engine: &LogEngine,
    entry: &Entry,
) -> Result<EntryVerdict<Fault>, KeeperFault>
    requires next { entry.now.number ≡ taken engine.now + 1 }
    requires fresh { has_taken engine.now entry.now.id ≡ false }
    requires known { (r : Repository) → R.content keeper.old ≡ Some r → AreKnownIn r known.now }
    ensures answer { IfOk result (λ verdict. (r : Repository) (log : List Taken) → R.content keeper.new ≡ Some r
        → Stands (real_rules rules.now.anchor) log engine.now
        → verdict ≡ verdict_of (real_rules rules.now.anchor) log (record { entry = entry.now; repository = r })) }
    ensures same { Undisturbed R.Keeper keeper.old keeper.new }
    ensures cause { HasCause keeper_failed (R.faults keeper.old) (R.faults keeper.new) result }
    ensures reads { OnOk result ((r : Repository) (log : List Taken) → R.content keeper.new ≡ Some r
        → Stands (real_rules rules.now.anchor) log engine.now
        → is_bounded (real_rules rules.now.anchor) log (record { entry = entry.now; repository = r }) ≡ true
        → R.reads keeper.new ≤ R.reads keeper.old + decision_reads_of (real_rules rules.now.anchor) log
        (record { entry = entry.now; repository = r })) }
{
    let mut lesson = Lesson::none();
    let mut store = LessonStore {
        keeper,
        lesson: &mut lesson,
    };
    let judge = KnowingRules { rules, known };
    let verdict = look_in(alloc, &mut store, &judge, engine, entry);
    let LessonStore {
        keeper: _,
        lesson: _,
    } = store;
    verdict
}
