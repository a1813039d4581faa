//! What an approval goes from, and to.

ghost use Rattle.std.specs.Prelude.{◌≡◌, ◌≤◌, ◌+◌, List, Some, IfErr, IfOk, OnOk};
ghost use Rattle.octets.specs.Causes.{HasCause};
ghost use Rattle.git_object.specs.Repository.{Repository};
ghost use Rattle.keeper_api.specs.Faults.{keeper_failed};
ghost use Rattle.keeper_api.specs.Undisturbed.{Undisturbed};
ghost use Rattle.rsl_chain.specs.Entries.{Taken};
ghost use Rattle.judging.specs.Engines.{Stands};
ghost use Rattle.judging.specs.Logs.{from};
ghost use Rattle.judging.specs.Rules.{Rules};
ghost use Rattle.policy_epochs.specs.declared.policies.Policy.{Policy};
ghost use Rattle.entry_rules.specs.declared.faults.Fault.{Fault};
ghost use Rattle.rsl_chain.specs.Logs.{IsLogOf, IsUnbroken, fault_of_keeper, log_failed};
ghost use Rattle.commands_approve.specs.Ends.{ComesFrom, HasTree, IsBrokenAt, WhyNoEnds, not_failed};
ghost use Rattle.commands_approve.specs.Reads.{ReadsEntries, state_reads};

use entry_rules::EntryRules;
use git_object::{Ids, ObjectId, RefName};
use keeper_api::{Keeper, KeeperFault};
use rsl_chain::LogFault;
use std::alloc::Global;
use tree_paths::{State, state_of};
use verify_ref::{LogEngine, judge_entries};

/// From where an approval lets its reference go, and to which tree. Zeros stand for what is not there.
#[derive(Clone, Copy, Debug, PartialEq, Eq)]
pub struct Ends {
    pub from: ObjectId,
    pub tree: ObjectId,
}

/// Why there is no approval to be signed. Nothing was changed.
#[derive(Clone, Copy, Debug, PartialEq, Eq)]
pub enum NotWanted {
    /// The log or the store was not read, or memory was wanting.
    Log { fault: LogFault },
    /// This object of the target is not readable, or it is in the way of the approval's place.
    Unreadable { id: ObjectId },
    /// The approval has 64 signatures, and none is of the key.
    Full,
    /// With a signature of the key the approval's text would have more than 1 MiB.
    TooLong,
}

// Where a reference stood after the entries that an engine took.
fn prior_of(engine: &LogEngine, name: &RefName) -> ObjectId
    ensures { (rules : Rules Policy Fault) (log : List Taken) → Stands rules log engine.now
        → result ≡ from rules log name.now }
{
    engine.prior_target(name).unwrap_or(ObjectId::zeros())
}

// Where a reference stood after the entries at these ids.
fn read_from<R: Keeper>(
    alloc: Global,
    name: &RefName,
    ids: &Ids,
    keeper: &mut R,
) -> Result<ObjectId, LogFault>
    ensures from { IfOk result (λ from. (r : Repository) → R.content keeper.new ≡ Some r
        → ComesFrom r ids.now name.now from) }
    ensures unbroken { IfErr result (λ fault. (r : Repository) → R.content keeper.new ≡ Some r → IsLogOf r ids.now
        → IsUnbroken fault) }
    ensures same { Undisturbed R.Keeper keeper.old keeper.new }
    ensures cause { HasCause log_failed (R.faults keeper.old) (R.faults keeper.new) result }
    ensures reads { OnOk result ((r : Repository) → R.content keeper.new ≡ Some r
        → ReadsEntries r ids.now 0 (R.reads keeper.old) (R.reads keeper.new)) }
{
    let rules = EntryRules::new(None);
    match judge_entries(alloc, keeper, &rules, ids.as_slice()) {
        Ok(engine) => Ok(prior_of(&engine, name)),
        Err(fault) => Err(fault),
    }
}

// The tree of a target, zeros where it is nothing; or the object that breaks its state.
fn read_tree<R: Keeper>(
    alloc: Global,
    target: &ObjectId,
    keeper: &mut R,
) -> Result<Result<ObjectId, ObjectId>, KeeperFault>
    ensures tree { IfOk result (λ found. IfOk found (λ tree. (r : Repository) → R.content keeper.new ≡ Some r
        → HasTree r target.now tree)) }
    ensures broken { IfOk result (λ found. IfErr found (λ id. (r : Repository) → R.content keeper.new ≡ Some r
        → IsBrokenAt r target.now id)) }
    ensures same { Undisturbed R.Keeper keeper.old keeper.new }
    ensures cause { HasCause keeper_failed (R.faults keeper.old) (R.faults keeper.new) result }
    ensures reads { (r : Repository) → R.content keeper.new ≡ Some r → R.reads keeper.new ≤ R.reads keeper.old
        + state_reads r target.now }
{
    match state_of(alloc, keeper, target)? {
        State::Absent => Ok(Ok(ObjectId::zeros())),
        State::Whole {
            tree,
            paths: _,
            dirs: _,
        } => Ok(Ok(tree)),
        State::Broken { id } => Ok(Err(id)),
    }
}

fn of_store(fault: KeeperFault) -> LogFault
    ensures { result ≡ fault_of_keeper fault }
{
    match fault {
        KeeperFault::Failed => LogFault::Failed,
        KeeperFault::Memory => LogFault::Memory,
    }
}

/// From where an approval of a reference goes behind the entries at these ids, and to which tree a target leads.
pub fn read_ends<R: Keeper>(
    alloc: Global,
    name: &RefName,
    target: &ObjectId,
    ids: &Ids,
    keeper: &mut R,
) -> Result<Ends, NotWanted>
    ensures ends { IfOk result (λ ends. (r : Repository) → R.content keeper.new ≡ Some r
        → ComesFrom r ids.now name.now ends.from × HasTree r target.now ends.tree) }
    ensures why { IfErr result (λ why. (r : Repository) → R.content keeper.new ≡ Some r → IsLogOf r ids.now
        → WhyNoEnds r target.now why) }
    ensures same { Undisturbed R.Keeper keeper.old keeper.new }
    ensures cause { HasCause not_failed (R.faults keeper.old) (R.faults keeper.new) result }
    ensures reads { OnOk result ((r : Repository) → R.content keeper.new ≡ Some r
        → ReadsEntries r ids.now (state_reads r target.now) (R.reads keeper.old) (R.reads keeper.new)) }
{
    let from = match read_from(alloc, name, ids, keeper) {
        Ok(from) => from,
        Err(fault) => return Err(NotWanted::Log { fault }),
    };
    match read_tree(alloc, target, keeper) {
        Ok(Ok(tree)) => Ok(Ends { from, tree }),
        Ok(Err(id)) => Err(NotWanted::Unreadable { id }),
        Err(fault) => Err(NotWanted::Log {
            fault: of_store(fault),
        }),
    }
}
