//! A push at a gate.

ghost use Rattle.std.specs.Prelude.{◌≡◌, ◌||◌, is_some, List, None, Some, IfErr, OnOk};
ghost use Rattle.octets.specs.Causes.{HasCause};
ghost use Rattle.git_object.specs.Repository.{Repository};
ghost use Rattle.keeper_api.specs.Changes.{changed};
ghost use Rattle.keeper_api.specs.Faults.{keeper_failed};
ghost use Rattle.keeper_api.specs.Undisturbed.{Undisturbed};
ghost use Rattle.entry_rules.specs.Learning.{AreKnownIn};
ghost use Rattle.rsl_chain.specs.Entries.{Taken};
ghost use Rattle.pushes.specs.Pushes.{IsSpelled};
ghost use Rattle.pushes.specs.Steps.{change_of};
ghost use Rattle.desk_turns.specs.States.{Fits, Steps, answered, is_fault};
ghost use Rattle.desk_core.specs.Adding.{IsAllowed};
ghost use Rattle.desk_core.specs.States.{GateRefuses, GateSteps, IsGateStep, Judges, JudgesAt, KnowsStore, SaysWhy};
ghost use Rattle.desk_core.specs.States.{gate_answered, is_done, is_gate_fault, kept_where};

use crate::copying::copied_entry;
use crate::gate_catching_up::catch_up;
use crate::weighing::violation_of;
use crate::{GateReply, GateState};
use keeper_api::{Keeper, KeeperFault};
use pushes::{Push, Reply};
use std::alloc::Global;

fn is_done(reply: &Reply) -> bool
    ensures { result ≡ is_done reply.now }
{
    match reply {
        Reply::Done { .. } => true,
        Reply::Already { .. } => false,
        Reply::Stale { .. } => false,
        Reply::Malformed { .. } => false,
        Reply::Incomplete { .. } => false,
        Reply::TooLarge { .. } => false,
        Reply::Misnumbered { .. } => false,
        Reply::Moved { .. } => false,
        Reply::Fault => false,
        Reply::Memory => false,
    }
}

impl GateState {
    /// Judges the entry that is kept.
    pub(crate) fn judge_kept<R: Keeper>(
        &mut self,
        alloc: Global,
        keeper: &mut R,
    ) -> Result<(), KeeperFault>
        requires clear { self.old.log.doubt ≡ None }
        requires known { KnowsStore R.Keeper keeper.old self.old.engine }
        ensures judges { (r : Repository) (log : List Taken) → R.content keeper.new ≡ Some r → Judges r log self.old
            → Judges r log self.new }
        ensures none { OnOk result (self.new.waiting ≡ None) }
        ensures log { self.new.log ≡ self.old.log }
        ensures known { KnowsStore R.Keeper keeper.new self.new.engine }
        ensures same { Undisturbed R.Keeper keeper.old keeper.new }
        ensures cause { HasCause keeper_failed (R.faults keeper.old) (R.faults keeper.new) result }
    {
        match catch_up(alloc, keeper, &mut self.engine, &self.waiting) {
            Ok(()) => {
                self.waiting = None;
                Ok(())
            }
            Err(fault) => Err(fault),
        }
    }

    // Why a push that could be taken is not: its entry would be a violation.
    fn look<R: Keeper>(
        &mut self,
        alloc: Global,
        keeper: &mut R,
        push: &Push,
    ) -> Result<(), GateReply>
        requires clear { self.old.log.doubt ≡ None }
        requires none { self.old.waiting ≡ None }
        requires fits { Fits (R.content keeper.old) self.old.log.log push.now }
        requires known { KnowsStore R.Keeper keeper.old self.old.engine }
        ensures allowed { OnOk result ((r : Repository) (log : List Taken) → R.content keeper.new ≡ Some r
            → Judges r log self.old → IsAllowed log self.old.log.log r push.now) }
        ensures grown { OnOk result ((r : Repository) → R.content keeper.new ≡ Some r
            → AreKnownIn (changed (change_of self.old.log.log push.now) r) self.new.engine.known) }
        ensures refused { IfErr result (GateRefuses (R.content keeper.new) self.old.log.log push.now) }
        ensures why { IfErr result (λ reply. (r : Repository) (log : List Taken) → R.content keeper.new ≡ Some r
            → Judges r log self.old → SaysWhy log self.old.log.log r push.now reply) }
        ensures judges { (r : Repository) (log : List Taken) → R.content keeper.new ≡ Some r → Judges r log self.old
            → Judges r log self.new }
        ensures none { self.new.waiting ≡ None }
        ensures log { self.new.log ≡ self.old.log }
        ensures known { KnowsStore R.Keeper keeper.new self.new.engine }
        ensures same { Undisturbed R.Keeper keeper.old keeper.new }
        ensures cause { HasCause is_gate_fault (R.faults keeper.old) (R.faults keeper.new) result }
    {
        match violation_of(alloc, keeper, &mut self.engine, push) {
            Ok(None) => Ok(()),
            Ok(Some(line)) => Err(GateReply::Denied {
                number: push.entry.number,
                line,
            }),
            Err(KeeperFault::Failed) => Err(GateReply::Desk(Reply::Fault)),
            Err(KeeperFault::Memory) => Err(GateReply::Desk(Reply::Memory)),
        }
    }

    // Lets the engine judge what it lacks, and says why a push is not taken.
    fn weigh<R: Keeper>(
        &mut self,
        alloc: Global,
        keeper: &mut R,
        push: &Push,
    ) -> Result<(), GateReply>
        requires clear { self.old.log.doubt ≡ None }
        requires spelled { IsSpelled push.now }
        requires known { KnowsStore R.Keeper keeper.old self.old.engine }
        ensures fits { OnOk result (Fits (R.content keeper.new) self.old.log.log push.now) }
        ensures allowed { OnOk result ((r : Repository) (log : List Taken) → R.content keeper.new ≡ Some r
            → Judges r log self.old → IsAllowed log self.old.log.log r push.now) }
        ensures grown { OnOk result ((r : Repository) → R.content keeper.new ≡ Some r
            → AreKnownIn (changed (change_of self.old.log.log push.now) r) self.new.engine.known) }
        ensures none { OnOk result (self.new.waiting ≡ None) }
        ensures refused { IfErr result (GateRefuses (R.content keeper.new) self.old.log.log push.now) }
        ensures why { IfErr result (λ reply. (r : Repository) (log : List Taken) → R.content keeper.new ≡ Some r
            → Judges r log self.old → SaysWhy log self.old.log.log r push.now reply) }
        ensures judges { (r : Repository) (log : List Taken) → R.content keeper.new ≡ Some r → Judges r log self.old
            → Judges r log self.new }
        ensures log { self.new.log ≡ self.old.log }
        ensures known { KnowsStore R.Keeper keeper.new self.new.engine }
        ensures same { Undisturbed R.Keeper keeper.old keeper.new }
        ensures cause { HasCause is_gate_fault (R.faults keeper.old) (R.faults keeper.new) result }
    {
        match self.judge_kept(alloc, keeper) {
            Ok(()) => {}
            Err(KeeperFault::Failed) => return Err(GateReply::Desk(Reply::Fault)),
            Err(KeeperFault::Memory) => return Err(GateReply::Desk(Reply::Memory)),
        }
        match self.log.check(alloc, keeper, push) {
            Ok(()) => {}
            Err(reply) => return Err(GateReply::Desk(reply)),
        }
        match self.look(alloc, keeper, push) {
            Ok(()) => Ok(()),
            Err(reply) => Err(reply),
        }
    }

    // Adds the entry of a push, and keeps it where it is done or in doubt.
    fn take<R: Keeper>(&mut self, alloc: Global, keeper: &mut R, seat: u32, push: &Push) -> Reply
        requires clear { self.old.log.doubt ≡ None }
        requires none { self.old.waiting ≡ None }
        requires spelled { IsSpelled push.now }
        ensures steps { Steps R.Keeper keeper.old keeper.new self.old.log self.new.log push.now seat result }
        ensures engine { self.new.engine ≡ self.old.engine }
        ensures waits { self.new.waiting ≡ kept_where (is_done result || is_some self.new.log.doubt) push.now.entry }
        ensures cause { HasCause is_fault (R.faults keeper.old) (R.faults keeper.new) (answered result) }
    {
        let Ok(entry) = copied_entry(&push.entry) else {
            return Reply::Memory;
        };
        let reply = self.log.step(alloc, keeper, seat, push);
        if is_done(&reply) || self.log.in_doubt() {
            self.waiting = Some(entry);
            return reply;
        }
        reply
    }

    /// Answers a push, and takes it where it is the next entry, nothing that it needs is missing, and its entry has no
    /// fault in the repository that the push makes. Then there is one commit; where it fails the entry is in doubt.
    /// `Denied` changes nothing, and never comes of an annotation. An entry that came before is judged first.
    pub fn step<R: Keeper>(
        &mut self,
        alloc: Global,
        keeper: &mut R,
        seat: u32,
        push: &Push,
    ) -> GateReply
        requires clear { self.old.log.doubt ≡ None }
        requires spelled { IsSpelled push.now }
        requires known { KnowsStore R.Keeper keeper.old self.old.engine }
        ensures steps { GateSteps R.Keeper keeper.old keeper.new self.old.log self.new.log push.now seat result }
        ensures gate { (r' : Repository) (log : List Taken) → R.content keeper.new ≡ Some r'
            → JudgesAt (R.content keeper.old) log self.old
            → IsGateStep R.Keeper keeper.old keeper.new self.old self.new log r' push.now seat result }
        ensures known { KnowsStore R.Keeper keeper.new self.new.engine }
        ensures cause { HasCause is_gate_fault (R.faults keeper.old) (R.faults keeper.new) (gate_answered result) }
    {
        match self.weigh(alloc, keeper, push) {
            Ok(()) => GateReply::Desk(self.take(alloc, keeper, seat, push)),
            Err(reply) => reply,
        }
    }
}
