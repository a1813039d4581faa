//! A desk's log with an engine that lags behind it.

ghost use Rattle.std.specs.Prelude.{◌≡◌, ◌≤◌, ◌+◌, [], List, length, unwrap_or, None, Some, IfErr, IfOk, OnErr, OnOk};
ghost use Rattle.std.specs.Option.{is_some};
ghost use Rattle.octets.specs.Causes.{HasCause};
ghost use Rattle.git_object.specs.Ids.{zeros};
ghost use Rattle.git_object.specs.Repository.{Repository};
ghost use Rattle.keeper_api.specs.Undisturbed.{Undisturbed};
ghost use Rattle.rsl_chain.specs.Entries.{Taken};
ghost use Rattle.rsl_chain.specs.Logs.{IsBrokenAs, log_failed};
ghost use Rattle.entry_rules.specs.RealRules.{real_rules};
ghost use Rattle.verify_ref.specs.Following.{Follows};
ghost use Rattle.verify_ref.specs.Logs.{AreEntries};
ghost use Rattle.verify_ref.specs.Reading.{reads_behind};
ghost use Rattle.pushes.specs.Pushes.{IsSpelled};
ghost use Rattle.pushes.specs.Steps.{tip_of};
ghost use Rattle.desk_turns.specs.Settling.{Settles, is_unsettled, settled_as};
ghost use Rattle.desk_turns.specs.States.{Fits, Refuses, Steps, answered, id_at, is_fault};
ghost use Rattle.desk_core.specs.Lagging.{AreBoundedBehind, BreaksBehind, Judges, TakesFront, ids_behind};
ghost use Rattle.desk_core.specs.Loading.{IsUnjudged};

use crate::catching_up::verdict_behind;
use desk_turns::{DeskLog, Settled};
use git_object::{ObjectId, RefName};
use keeper_api::Keeper;
use pushes::{Push, Reply, Row};
use rsl_chain::LogFault;
use std::alloc::Global;
use verify_ref::{Engine, RefVerdict};

/// A desk's log, and an engine that took some of its entries. Verdicts go by no anchor: the first policy's root role
/// may have any keys.
#[derive(Drop)]
pub struct DeskState {
    log: DeskLog,
    engine: Engine,
}

impl DeskState {
    /// The state of a store's log. Nobody put its entries there, and none is judged yet. It reads each entry's commit
    /// once.
    pub fn load<R: Keeper>(alloc: Global, keeper: &mut R) -> Result<DeskState, LogFault>
        ensures loaded { IfOk result (IsUnjudged (R.content keeper.new)) }
        ensures broken { IfErr result (λ fault. (r : Repository) → R.content keeper.new ≡ Some r → IsBrokenAs r fault) }
        ensures same { Undisturbed R.Keeper keeper.old keeper.new }
        ensures cause { HasCause log_failed (R.faults keeper.old) (R.faults keeper.new) result }
    {
        match DeskLog::load(alloc, keeper) {
            Ok(log) => Ok(DeskState {
                log,
                engine: Engine::new(alloc, None),
            }),
            Err(fault) => Err(fault),
        }
    }

    /// How many entries the log has, and the id of the last, or zeros. It takes no memory.
    pub fn tip(&self) -> (u64, ObjectId)
        ensures count { result.0 ≡ length self.now.log.log }
        ensures id { result.1 ≡ unwrap_or (tip_of self.now.log.log) zeros }
    {
        self.log.tip()
    }

    /// Whether an entry is in doubt. It takes no memory.
    pub fn in_doubt(&self) -> bool
        ensures { result ≡ is_some self.now.log.doubt }
    {
        self.log.in_doubt()
    }

    /// The entries in their order, each with its seat, lent.
    pub fn rows(&self) -> &[Row]
        ensures { result.now ≡ self.now.log.log }
    {
        self.log.rows()
    }

    /// The id of the entry of a number, counted from 1, or None where there is none. It takes no memory.
    pub fn id_at(&self, number: u64) -> Option<ObjectId>
        ensures { result ≡ id_at self.now.log.log number }
    {
        self.log.id_at(number)
    }

    /// Whether a push would be taken, or the reply that it would have. Nothing changes.
    pub fn check<R: Keeper>(&self, alloc: Global, keeper: &mut R, push: &Push) -> Result<(), Reply>
        requires spelled { IsSpelled push.now }
        ensures fits { OnOk result (Fits (R.content keeper.new) self.now.log.log push.now) }
        ensures refused { IfErr result (Refuses (R.content keeper.new) self.now.log.log push.now) }
        ensures same { Undisturbed R.Keeper keeper.old keeper.new }
        ensures cause { HasCause is_fault (R.faults keeper.old) (R.faults keeper.new) result }
    {
        self.log.check(alloc, keeper, push)
    }

    /// Answers a push, and takes it where it is the next entry and nothing that it needs is missing. Then there is one
    /// commit; where it fails the entry is in doubt. No entry is judged.
    pub fn step<R: Keeper>(
        &mut self,
        alloc: Global,
        keeper: &mut R,
        seat: u32,
        push: &Push,
    ) -> Reply
        requires clear { self.old.log.doubt ≡ None }
        requires spelled { IsSpelled push.now }
        ensures steps { Steps R.Keeper keeper.old keeper.new self.old.log self.new.log push.now seat result }
        ensures engine { self.new.engine ≡ self.old.engine }
        ensures cause { HasCause is_fault (R.faults keeper.old) (R.faults keeper.new) (answered result) }
    {
        self.log.step(alloc, keeper, seat, push)
    }

    /// Ends a doubt where the log's reference is at the tip or at the entry in doubt. It puts the reference there
    /// again, so that a stop leaves nothing else. Where nothing is in doubt it calls nothing. No entry is judged.
    pub fn settle<R: Keeper>(&mut self, alloc: Global, keeper: &mut R) -> Settled
        ensures settles { Settles R.Keeper keeper.old keeper.new self.old.log self.new.log result }
        ensures engine { self.new.engine ≡ self.old.engine }
        ensures free { self.old.log.doubt ≡ None → keeper.new ≡ keeper.old }
        ensures cause { HasCause is_unsettled (R.faults keeper.old) (R.faults keeper.new) (settled_as result) }
    {
        self.log.settle(alloc, keeper)
    }

    /// The verdict on a reference by all entries of the log and by its value in the store. First the engine takes the
    /// entries that came since, each to be judged in the repository that the store holds; they stay taken after a
    /// refusal too, up to where it came. `Broken` names the first of them at which no entry stands that comes next.
    /// What was learned of trees is let go first, since the store may hold others now. Where no target of these entries
    /// is broken, it reads what taking them costs, and nothing where there are none.
    pub fn verdict<R: Keeper>(
        &mut self,
        alloc: Global,
        keeper: &mut R,
        name: &RefName,
    ) -> Result<RefVerdict, LogFault>
        ensures log { self.new.log ≡ self.old.log }
        ensures judges { IfOk result (λ verdict. (r : Repository) (log : List Taken) → R.content keeper.new ≡ Some r
            → Follows log self.old.engine
            → Judges r log (ids_behind self.old.log.log self.old.engine) self.new.engine name.now verdict) }
        ensures front { OnErr result ((r : Repository) (log : List Taken) → R.content keeper.new ≡ Some r
            → Follows log self.old.engine
            → TakesFront r log (ids_behind self.old.log.log self.old.engine) self.new.engine) }
        ensures broken { IfErr result (λ fault. (r : Repository) (log : List Taken) → R.content keeper.new ≡ Some r
            → Follows log self.old.engine
            → BreaksBehind r log (ids_behind self.old.log.log self.old.engine) fault) }
        ensures rules { self.new.engine.rules ≡ self.old.engine.rules }
        ensures same { Undisturbed R.Keeper keeper.old keeper.new }
        ensures cause { HasCause log_failed (R.faults keeper.old) (R.faults keeper.new) result }
        ensures reads { OnOk result ((r : Repository) (log more : List Taken) → R.content keeper.new ≡ Some r
            → Follows log self.old.engine → AreEntries r (ids_behind self.old.log.log self.old.engine) more
            → AreBoundedBehind (real_rules self.old.engine.rules.anchor) log more
            → R.reads keeper.new ≤ R.reads keeper.old
            + reads_behind (real_rules self.old.engine.rules.anchor) log more) }
        ensures free { ids_behind self.old.log.log self.old.engine ≡ [] → R.reads keeper.new ≡ R.reads keeper.old }
    {
        verdict_behind(alloc, keeper, self.log.rows(), &mut self.engine, name)
    }
}
