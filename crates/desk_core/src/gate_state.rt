//! The state of a gate beside a store.

ghost use Rattle.std.specs.Prelude.{◌≡◌, ◌≤◌, is_some, List, length, unwrap_or, false, None, Some, IfErr, IfOk};
ghost use Rattle.octets.specs.Causes.{HasCause};
ghost use Rattle.git_object.specs.Ids.{zeros};
ghost use Rattle.git_object.specs.Repository.{Repository, value_of};
ghost use Rattle.keeper_api.specs.Faults.{keeper_failed};
ghost use Rattle.keeper_api.specs.Undisturbed.{Undisturbed};
ghost use Rattle.rsl_chain.specs.Entries.{Taken};
ghost use Rattle.rsl_chain.specs.Logs.{IsBrokenAs, log_failed};
ghost use Rattle.judging.specs.Verdicts.{IsJudged};
ghost use Rattle.entry_rules.specs.RealRules.{real_rules};
ghost use Rattle.verify_ref.specs.Logs.{AreEntries};
ghost use Rattle.pushes.specs.Steps.{ids_of, tip_of};
ghost use Rattle.desk_turns.specs.Settling.{Settles, is_unsettled, settled_as};
ghost use Rattle.desk_turns.specs.States.{IsLoaded, id_at};
ghost use Rattle.desk_core.specs.States.{IsGateSettled, Judges, JudgesAt, KnowsStore, is_clear};

use crate::gate_catching_up::take_rows;
use desk_turns::{DeskLog, Settled};
use git_object::{ObjectId, RefName};
use keeper_api::{Keeper, KeeperFault};
use pushes::Row;
use rsl_chain::{Entry, LogFault};
use std::alloc::Global;
use verify_ref::{Engine, RefVerdict};

/// A desk's log, an engine that judged its entries, and the one entry that it may not have judged yet. It judges by no
/// anchor: the first policy's root role may have any keys.
#[derive(Drop)]
pub struct GateState {
    pub(crate) log: DeskLog,
    pub(crate) engine: Engine,
    pub(crate) waiting: Option<Entry>,
}

fn is_clear(settled: &Settled) -> bool
    ensures { result ≡ is_clear settled.now }
{
    match settled {
        Settled::Clear => true,
        Settled::TookIn { id: _ } => false,
        Settled::Moved {
            found: _,
            expected: _,
        } => false,
        Settled::Fault => false,
        Settled::Memory => false,
    }
}

impl GateState {
    /// The state of a store's log. Nobody put its entries there, and each is judged in the repository that the store
    /// holds. It reads each entry's commit twice, and what judging reads.
    pub fn load<R: Keeper>(alloc: Global, keeper: &mut R) -> Result<GateState, LogFault>
        ensures loaded { IfOk result (λ state. IsLoaded (R.content keeper.new) state.log) }
        ensures few { IfOk result (λ state. length state.log.log ≤ 1000000) }
        ensures judges { IfOk result (λ state. (r : Repository) → R.content keeper.new ≡ Some r
            → (log : List Taken) × AreEntries r (ids_of state.log.log) log × Judges r log state) }
        ensures known { IfOk result (λ state. KnowsStore R.Keeper keeper.new state.engine) }
        ensures broken { IfErr result (λ fault. (r : Repository) → R.content keeper.new ≡ Some r → IsBrokenAs r fault) }
        ensures same { Undisturbed R.Keeper keeper.old keeper.new }
        ensures cause { HasCause log_failed (R.faults keeper.old) (R.faults keeper.new) result }
    {
        let log = DeskLog::load(alloc, keeper)?;
        let mut engine = Engine::new(alloc, None);
        match take_rows(alloc, keeper, &mut engine, log.rows()) {
            Ok(()) => {}
            Err(fault) => return Err(fault),
        }
        Ok(GateState {
            log,
            engine,
            waiting: None,
        })
    }

    /// How many entries the log has, and the id of the last, or zeros. It takes no memory.
    pub fn tip(&self) -> (u64, ObjectId)
        ensures count { result.0 ≡ length self.now.log.log }
        ensures id { result.1 ≡ unwrap_or (tip_of self.now.log.log) zeros }
    {
        self.log.tip()
    }

    /// Whether an entry is in doubt. It takes no memory.
    pub fn in_doubt(&self) -> bool
        ensures { result ≡ is_some self.now.log.doubt }
    {
        self.log.in_doubt()
    }

    /// The entries in their order, each with its seat, lent.
    pub fn rows(&self) -> &[Row]
        ensures { result.now ≡ self.now.log.log }
    {
        self.log.rows()
    }

    /// The id of the entry of a number, counted from 1, or None where there is none. It takes no memory.
    pub fn id_at(&self, number: u64) -> Option<ObjectId>
        ensures { result ≡ id_at self.now.log.log number }
    {
        self.log.id_at(number)
    }

    /// Ends a doubt where the log's reference is at the tip or at the entry in doubt. It puts the reference there
    /// again, so that a stop leaves nothing else. Where nothing is in doubt it calls nothing. No entry is judged.
    pub fn settle<R: Keeper>(&mut self, alloc: Global, keeper: &mut R) -> Settled
        ensures settles { Settles R.Keeper keeper.old keeper.new self.old.log self.new.log result }
        ensures settled { (r' : Repository) (log : List Taken) → R.content keeper.new ≡ Some r'
            → JudgesAt (R.content keeper.old) log self.old → IsGateSettled self.old self.new log r' result }
        ensures waits { is_clear result ≡ false → self.new.waiting ≡ self.old.waiting }
        ensures known { KnowsStore R.Keeper keeper.old self.old.engine
            → KnowsStore R.Keeper keeper.new self.new.engine }
        ensures free { self.old.log.doubt ≡ None → keeper.new ≡ keeper.old }
        ensures cause { HasCause is_unsettled (R.faults keeper.old) (R.faults keeper.new) (settled_as result) }
    {
        let drops = self.log.in_doubt();
        let settled = self.log.settle(alloc, keeper);
        if drops && is_clear(&settled) {
            self.waiting = None;
            return settled;
        }
        settled
    }

    /// The verdict on a reference by all entries of the log and by its value in the store.
    pub fn verdict<R: Keeper>(
        &mut self,
        alloc: Global,
        keeper: &mut R,
        name: &RefName,
    ) -> Result<RefVerdict, KeeperFault>
        requires clear { self.old.log.doubt ≡ None }
        requires known { KnowsStore R.Keeper keeper.old self.old.engine }
        ensures judged { IfOk result (λ verdict. (r : Repository) (log : List Taken) → R.content keeper.new ≡ Some r
            → Judges r log self.old → IsJudged (real_rules None) log name.now (value_of r name.now) verdict) }
        ensures judges { (r : Repository) (log : List Taken) → R.content keeper.new ≡ Some r → Judges r log self.old
            → Judges r log self.new }
        ensures log { self.new.log ≡ self.old.log }
        ensures known { KnowsStore R.Keeper keeper.new self.new.engine }
        ensures same { Undisturbed R.Keeper keeper.old keeper.new }
        ensures cause { HasCause keeper_failed (R.faults keeper.old) (R.faults keeper.new) result }
    {
        match self.judge_kept(alloc, keeper) {
            Ok(()) => {}
            Err(fault) => return Err(fault),
        }
        match self.engine.verdict(alloc, keeper, name) {
            Ok(verdict) => Ok(verdict),
            Err(fault) => Err(fault),
        }
    }
}
