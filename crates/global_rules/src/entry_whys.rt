//! Why a change breaks the global rules of a policy.

ghost use Rattle.std.specs.Prelude.{◌≡◌, IfOk, Some};
ghost use Rattle.octets.specs.Causes.{HasCause};
ghost use Rattle.git_object.specs.Repository.{Repository};
ghost use Rattle.keeper_api.specs.Faults.{keeper_failed};
ghost use Rattle.keeper_api.specs.Undisturbed.{Undisturbed};
ghost use Rattle.global_rules.specs.Whys.{IsFileWhy, IsFirstWhy, IsKindWhy};

use crate::changed_paths::changed_paths;
use crate::rewinds::rewind_why;
use crate::thresholds::threshold_why;
use crate::{Change, FoundFile, GlobalWhy};
use keeper_api::{Keeper, KeeperFault};
use octets::Octets;
use rule_delegations::Rules;
use rule_files::{GlobalKind, GlobalRule};
use std::alloc::Global;

// Why a change breaks one rule.
fn rule_why<R: Keeper>(
    alloc: Global,
    keeper: &mut R,
    rules: &Rules,
    rule: &GlobalRule,
    change: &Change,
    paths: &[Octets],
) -> Result<Option<GlobalWhy>, KeeperFault>
    ensures why { IfOk result (λ why. (r : Repository) → R.content keeper.new ≡ Some r
        → IsKindWhy r rules.now change.now paths.now rule.now rule.now.kind why) }
    ensures same { Undisturbed R.Keeper keeper.old keeper.new }
    ensures cause { HasCause keeper_failed (R.faults keeper.old) (R.faults keeper.new) result }
{
    match rule.kind {
        GlobalKind::Threshold { threshold } => {
            let why = threshold_why(alloc, rules, rule, threshold, change, paths)?;
            Ok(why)
        }
        GlobalKind::NoRewind => rewind_why(alloc, keeper, rule, change),
    }
}

// Why it breaks the first of the rules that it does.
fn first_why<R: Keeper>(
    alloc: Global,
    keeper: &mut R,
    rules: &Rules,
    all: &[GlobalRule],
    change: &Change,
    paths: &[Octets],
) -> Result<Option<GlobalWhy>, KeeperFault>
    ensures why { IfOk result (λ why. (r : Repository) → R.content keeper.new ≡ Some r
        → IsFirstWhy r rules.now change.now paths.now all.now why) }
    ensures same { Undisturbed R.Keeper keeper.old keeper.new }
    ensures cause { HasCause keeper_failed (R.faults keeper.old) (R.faults keeper.new) result }
{
    'all: for rule in all {
        if let Some(why) = rule_why(alloc, keeper, rules, rule, change, paths)? {
            return Ok(Some(why));
        }
    }
    Ok(None)
}

/// Why a change breaks the global rules of a policy that has these rules, by what was found of its file; None where it
/// breaks none. The first rule of the file that it breaks is told, and of one that asks for persons the first name: the
/// reference's, and then the paths that changed, in the order of their bytes. Where one of the two states is broken
/// there are no such paths.
pub fn why_of<R: Keeper>(
    alloc: Global,
    keeper: &mut R,
    rules: &Rules,
    file: &FoundFile,
    change: &Change,
) -> Result<Option<GlobalWhy>, KeeperFault>
    ensures why { IfOk result (λ why. (r : Repository) → R.content keeper.new ≡ Some r
        → IsFileWhy r rules.now change.now file.now why) }
    ensures same { Undisturbed R.Keeper keeper.old keeper.new }
    ensures cause { HasCause keeper_failed (R.faults keeper.old) (R.faults keeper.new) result }
{
    match file {
        FoundFile::Absent => Ok(None),
        FoundFile::Bad => Ok(Some(GlobalWhy::BadFile)),
        FoundFile::There { file } => {
            let paths = changed_paths(alloc, keeper, &change.from, &change.target)?;
            first_why(
                alloc,
                keeper,
                rules,
                file.rules.as_slice(),
                change,
                paths.as_slice(),
            )
        }
    }
}
