//! The verdict on a reference by global rules.

ghost use Rattle.std.specs.Prelude.{◌≡◌, Some};
ghost use Rattle.octets.specs.Causes.{HasCause};
ghost use Rattle.git_object.specs.Repository.{Repository};
ghost use Rattle.keeper_api.specs.Undisturbed.{Undisturbed};
ghost use Rattle.rsl_chain.specs.Logs.{log_failed};
ghost use Rattle.global_verdicts.specs.Verdicts.{GlobalAnswers};

use crate::GlobalVerdict;
use crate::concluding::conclude;
use crate::pass::judge_log;
use git_object::RefName;
use keeper_api::Keeper;
use octets::{Copied, Memory};
use root_metadata::KeyIds;
use rsl_chain::LogFault;
use std::alloc::Global;

/// The verdict on a reference of the repository that the store holds, by the global rules of the policies of its log:
/// the first of its entries that no later one skips and that breaks a global rule of the policy in force at its number,
/// or that none does. Of the policy's own reference no entry is judged. Where ids are given, the first policy must have
/// exactly their keys. `Broken` comes exactly where the log is no chain, and names the commit at which it breaks. The
/// store is as before.
pub fn judge<R: Keeper>(
    alloc: Global,
    keeper: &mut R,
    name: &RefName,
    anchor: Option<KeyIds>,
) -> Result<GlobalVerdict, LogFault>
    ensures answers { (r : Repository) → R.content keeper.new ≡ Some r → GlobalAnswers r name.now anchor result }
    ensures same { Undisturbed R.Keeper keeper.old keeper.new }
    ensures cause { HasCause log_failed (R.faults keeper.old) (R.faults keeper.new) result }
{
    let name = name.copied()?;
    let pass = match judge_log(alloc, keeper, name, anchor) {
        Ok(pass) => pass,
        Err(fault) => return Err(fault),
    };
    match conclude(&pass) {
        Ok(verdict) => Ok(verdict),
        Err(Memory) => Err(LogFault::Memory),
    }
}
