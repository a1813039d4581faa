//! The push of an entry of the store's log.

ghost use Rattle.std.specs.Prelude.{◌≡◌, ◌≢◌, ◌+◌, ◌++◌, ◌∷◌, ℕ, List, length, Some, IfOk, IfErr, IfSome, IfNone};
ghost use Rattle.octets.specs.Causes.{HasCause};
ghost use Rattle.git_object.specs.Repository.{Repository};
ghost use Rattle.keeper_api.specs.Undisturbed.{Undisturbed};
ghost use Rattle.pushes.specs.Making.{IsPushOf};
ghost use Rattle.commands_desk.specs.Faults.{keeper_failed, of_log, of_making};
ghost use Rattle.commands_desk.specs.Preparing.{Prepares, StandsAt};

use crate::faults::PushFault;
use git_object::ObjectId;
use keeper_api::Keeper;
use octets::Octets;
use pushes::{MakeFault, make_push};
use rsl_chain::{Log, LogFault};
use std::alloc::Global;

// Why no log was loaded.
fn of_log(fault: LogFault) -> PushFault
    ensures { result ≡ of_log fault }
{
    match fault {
        LogFault::Broken { id } => PushFault::LogBroken { id },
        LogFault::Failed => PushFault::KeeperFailed,
        LogFault::Memory => PushFault::Memory,
    }
}

// Why no push was made.
fn of_making(fault: MakeFault) -> PushFault
    ensures { result ≡ of_making fault }
{
    match fault {
        MakeFault::Broken { id } => PushFault::LogBroken { id },
        MakeFault::Missing { id } => PushFault::Missing { id },
        MakeFault::TooLarge => PushFault::TooLarge,
        MakeFault::KeeperFailed => PushFault::KeeperFailed,
        MakeFault::Memory => PushFault::Memory,
    }
}

// The id at a place counted from 1, and those before it.
fn entry_at(ids: &[ObjectId], number: u64) -> Option<(&[ObjectId], &ObjectId)>
    ensures some { IfSome result (λ parts. StandsAt ids.now number parts.0.now parts.1.now) }
    ensures none { IfNone result ((before : List (List ℕ)) (id : List ℕ) → StandsAt ids.now number before id → ⊥) }
{
    if number == 0 || number > ids.len() as u64 {
        return None;
    }
    let place = (number - 1) as usize;
    let (before, _) = ids.split_at(place);
    Some((before, &ids[place]))
}

/// The text of the push of the entry of a number of the store's log, after those before it.
pub(crate) fn prepare<R: Keeper>(
    alloc: Global,
    keeper: &mut R,
    number: u64,
) -> Result<Octets, PushFault>
    ensures prepares { Prepares (R.content keeper.new) number result }
    ensures same { Undisturbed R.Keeper keeper.old keeper.new }
    ensures cause { HasCause keeper_failed (R.faults keeper.old) (R.faults keeper.new) result }
{
    let log = match Log::load(alloc, keeper) {
        Ok(log) => log,
        Err(fault) => return Err(of_log(fault)),
    };
    let Some((before, id)) = entry_at(log.ids.as_slice(), number) else {
        return Err(PushFault::NoEntry);
    };
    match make_push(alloc, keeper, before, id) {
        Ok(text) => Ok(text),
        Err(fault) => Err(of_making(fault)),
    }
}
