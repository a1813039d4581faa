//! Shops.

ghost use Rattle.std.specs.Prelude.{◌≡◌, ◌<◌, true, Some, None, unwrap_or, IfErr, IfOk};
ghost use Rattle.std.specs.Option.{is_some};
ghost use Rattle.octets.specs.Causes.{HasCause};
ghost use Rattle.git_object.specs.Ids.{zeros};
ghost use Rattle.git_object.specs.Repository.{Repository};
ghost use Rattle.keeper_api.specs.Undisturbed.{Undisturbed};
ghost use Rattle.rsl_chain.specs.Logs.{IsUnbroken, log_failed};
ghost use Rattle.pushes.specs.Pushes.{IsSpelled};
ghost use Rattle.desk_turns.specs.Histories.{History, count};
ghost use Rattle.pushes.specs.Steps.{tip_of};
ghost use Rattle.desk_turns.specs.Settling.{is_unsettled, settled_as};
ghost use Rattle.desk_turns.specs.States.{answered, is_fault};
ghost use Rattle.desk_core.specs.Loading.{IsUnjudged};
ghost use Rattle.desk_turns.specs.Legal.{last, rows};
ghost use Rattle.desk_shops.specs.Texts.{IsTextOf, text_keeper_failed};
ghost use Rattle.desk_shops.specs.Calls.{IsLeftAlone, Opens, Replies, StandsAfterPush, StandsAfterSettling};
ghost use Rattle.desk_shops.specs.Desks.{done_reply};
ghost use Rattle.desk_shops.specs.Standing.{IsVerdictOf, Stands};

use crate::{TextFault, stream_text};
use desk_core::DeskState;
use desk_turns::{Chronicle, Settled};
use git_object::{ObjectId, RefName};
use keeper_api::Keeper;
use octets::Octets;
use pushes::{Push, Reply};
use rsl_chain::LogFault;
use std::alloc::Global;
use verify_ref::RefVerdict;

/// A store, and the state of a desk beside it: its log, an entry in doubt, and an engine that lags behind the log.
#[derive(Drop)]
pub struct Shop<R> {
    state: DeskState,
    keeper: R,
}

impl<R: Keeper> Chronicle for Shop<R> {
    ghost use Rattle.desk_turns.specs.Legal.{IsLegal};
    ghost use Rattle.desk_shops.specs.Standing.{Stands};

    ghost is_legal = { IsLegal };

    ghost stands = { λ s h. Stands R.Keeper s.keeper s.state h };

    ghost counted = { λ s. R.faults s.keeper };

    fn len(&self) -> u64 {
        self.state.tip().0
    }

    fn faults(&self) -> u64 {
        self.keeper.faults()
    }

    ghost stands_legal = { λ s h is. is.desk.legal };
}

impl<R: Keeper> Shop<R> {
    /// The shop of a store and a state beside it. Where the state was just loaded from the store, and a stop leaves of
    /// the store what it holds, the shop stands for a history with the entries of the log, all of nobody.
    pub fn new(state: DeskState, keeper: R) -> Shop<R>
        ensures state { result.state ≡ state }
        ensures keeper { result.keeper ≡ keeper }
        ensures opens { IsUnjudged (R.content keeper) state → IsLeftAlone R.Keeper keeper
            → (h : History) × Opens R.Keeper keeper state h }
    {
        Shop { state, keeper }
    }

    /// How many entries the log has, and the id of the last, or zeros. It takes no memory.
    pub fn tip(&self) -> (u64, ObjectId)
        ensures count { (h : History) → Stands R.Keeper self.now.keeper self.now.state h → result.0 ≡ count h }
        ensures id { (h : History) → Stands R.Keeper self.now.keeper self.now.state h
            → result.1 ≡ unwrap_or (tip_of (rows h)) zeros }
    {
        self.state.tip()
    }

    /// Whether an entry is in doubt. It takes no memory.
    pub fn in_doubt(&self) -> bool
        ensures { result ≡ is_some self.now.state.log.doubt }
    {
        self.state.in_doubt()
    }

    /// Ends a doubt where the log's reference is at the last entry or at the one in doubt, which then is taken in, of
    /// nobody. Where nothing is in doubt it calls nothing. `Moved` never comes over a store that tells what it holds.
    pub fn settle(&mut self, alloc: Global) -> Settled
        ensures stands { (h : History) → Stands R.Keeper self.old.keeper self.old.state h
            → StandsAfterSettling R.Keeper self.new.keeper self.new.state h result }
        ensures free { self.old.state.log.doubt ≡ None → self.new.keeper ≡ self.old.keeper }
        ensures cause { HasCause is_unsettled (R.faults self.old.keeper) (R.faults self.new.keeper) (settled_as result) }
    {
        self.state.settle(alloc, &mut self.keeper)
    }

    /// Answers a push of a seat, and takes it where it is the next entry and nothing that it needs is missing. Where
    /// its commit fails it is in doubt.
    pub fn push(&mut self, alloc: Global, seat: u32, push: &Push) -> Reply
        requires clear { self.old.state.log.doubt ≡ None }
        requires spelled { IsSpelled push.now }
        requires seat { 0 < seat }
        ensures stands { (h : History) → Stands R.Keeper self.old.keeper self.old.state h
            → StandsAfterPush R.Keeper self.new.keeper self.new.state h push.now seat result }
        ensures replies { (h : History) → Stands R.Keeper self.old.keeper self.old.state h
            → Replies R.Keeper self.new.keeper h push.now result }
        ensures clear { done_reply result ≡ true → self.new.state.log.doubt ≡ None }
        ensures cause { HasCause is_fault (R.faults self.old.keeper) (R.faults self.new.keeper) (answered result) }
    {
        self.state.step(alloc, &mut self.keeper, seat, push)
    }

    /// The verdict on a reference by all entries of the history and by its value in the last repository. The entries
    /// that came since the last verdict are judged now. `Broken` never comes over a store that tells what it holds.
    pub fn verdict(&mut self, alloc: Global, name: &RefName) -> Result<RefVerdict, LogFault>
        requires clear { self.old.state.log.doubt ≡ None }
        ensures stands { (h : History) → Stands R.Keeper self.old.keeper self.old.state h
            → Stands R.Keeper self.new.keeper self.new.state h }
        ensures judged { IfOk result (λ verdict. (h : History) (r : Repository)
            → Stands R.Keeper self.old.keeper self.old.state h → R.content self.new.keeper ≡ Some r
            → IsVerdictOf h name.now verdict) }
        ensures unbroken { IfErr result (λ fault. (h : History) (r : Repository)
            → Stands R.Keeper self.old.keeper self.old.state h → R.content self.new.keeper ≡ Some r
            → IsUnbroken fault) }
        ensures log { self.new.state.log ≡ self.old.state.log }
        ensures same { Undisturbed R.Keeper self.old.keeper self.new.keeper }
        ensures cause { HasCause log_failed (R.faults self.old.keeper) (R.faults self.new.keeper) result }
    {
        self.state.verdict(alloc, &mut self.keeper, name)
    }

    /// The stream of the last repository as one text, of 256 MiB at most.
    pub fn stream(&mut self, alloc: Global) -> Result<Octets, TextFault>
        requires clear { self.old.state.log.doubt ≡ None }
        ensures stands { (h : History) → Stands R.Keeper self.old.keeper self.old.state h
            → Stands R.Keeper self.new.keeper self.new.state h }
        ensures told { (h : History) (r : Repository) → Stands R.Keeper self.old.keeper self.old.state h
            → R.content self.new.keeper ≡ Some r → (last h ≡ Some r) × IsTextOf r result }
        ensures state { self.new.state ≡ self.old.state }
        ensures same { Undisturbed R.Keeper self.old.keeper self.new.keeper }
        ensures cause { HasCause text_keeper_failed (R.faults self.old.keeper) (R.faults self.new.keeper) result }
    {
        stream_text(alloc, &mut self.keeper)
    }
}
