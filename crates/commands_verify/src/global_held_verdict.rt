//! Judging a reference of the repository that a keeper holds.

ghost use Rattle.std.specs.Prelude.{◌≡◌, IfOk};
ghost use Rattle.octets.specs.Causes.{HasCause};
ghost use Rattle.keeper_api.specs.Undisturbed.{Undisturbed};
ghost use Rattle.worlds.specs.Counts.{Faults, IsCounted};
ghost use Rattle.commands_verify.specs.GlobalJudging.{Judges, anchor_of, fault_of, judge_failed};
ghost use Rattle.commands_verify.specs.GlobalVerifying.{global_ending};

use crate::global_verifying::VerifyFault;
use git_object::{KeyId, RefName};
use global_verdicts::{GlobalVerdict, LogFault, judge};
use keeper_api::Keeper;
use octets::{Items, Memory};
use root_metadata::{KeyIds, id_set};
use std::alloc::Global;

// The ids that the first policy must have, as a set.
fn anchor_of(alloc: Global, root: &Option<Items<KeyId>>) -> Result<Option<KeyIds>, Memory>
    ensures { IfOk result (λ anchor. anchor ≡ anchor_of root.now) }
{
    match root {
        None => Ok(None),
        Some(ids) => {
            let ids = id_set(alloc, ids.as_slice())?;
            Ok(Some(ids))
        }
    }
}

fn fault_of(fault: &LogFault) -> VerifyFault
    ensures { result ≡ fault_of fault.now }
{
    match fault {
        LogFault::Broken { id } => VerifyFault::LogBroken { id: *id },
        LogFault::Failed => VerifyFault::KeeperFailed,
        LogFault::Memory => VerifyFault::Memory,
    }
}

// The verdict on a reference of the repository that the keeper holds. `LogBroken` comes exactly where its log breaks.
fn judge_under<R: Keeper>(
    alloc: Global,
    keeper: &mut R,
    name: &RefName,
    root: &Option<Items<KeyId>>,
) -> Result<GlobalVerdict, VerifyFault>
    ensures judges { Judges name.now root.now (R.content keeper.new) result }
    ensures same { Undisturbed R.Keeper keeper.old keeper.new }
    ensures cause { HasCause judge_failed (R.faults keeper.old) (R.faults keeper.new) result }
{
    let Ok(anchor) = anchor_of(alloc, root) else {
        return Err(VerifyFault::Memory);
    };
    match judge(alloc, keeper, name, anchor) {
        Ok(verdict) => Ok(verdict),
        Err(fault) => Err(fault_of(&fault)),
    }
}

/// The verdict on a reference of the repository that the keeper holds, which counts as the ending does. `LogBroken`
/// comes exactly where its log breaks.
pub(crate) fn judge_held<R: Keeper>(
    alloc: Global,
    keeper: &mut R,
    name: &RefName,
    root: &Option<Items<KeyId>>,
) -> Result<GlobalVerdict, VerifyFault>
    ensures judges { Judges name.now root.now (R.content keeper.new) result }
    ensures same { Undisturbed R.Keeper keeper.old keeper.new }
    ensures counted { (rest : Faults) → IsCounted (global_ending result) (record rest { keeper = R.faults keeper.old })
        (record rest { keeper = R.faults keeper.new }) }
{
    judge_under(alloc, keeper, name, root)
}
