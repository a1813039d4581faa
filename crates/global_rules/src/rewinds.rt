//! Rules that a reference never goes back.

ghost use Rattle.std.specs.Prelude.{◌≡◌, IfOk, Some};
ghost use Rattle.octets.specs.Causes.{HasCause};
ghost use Rattle.git_object.specs.Repository.{Repository};
ghost use Rattle.keeper_api.specs.Faults.{keeper_failed};
ghost use Rattle.keeper_api.specs.Undisturbed.{Undisturbed};
ghost use Rattle.global_rules.specs.Whys.{IsRewindWhy, rewind_why};

use crate::thresholds::speak_of;
use crate::{Change, Descent, GlobalWhy, descends};
use keeper_api::{Keeper, KeeperFault};
use octets::Memory;
use ref_patterns::Space;
use rule_files::GlobalRule;
use std::alloc::Global;

/// The most ancestors among which a commit is looked for.
const MOST_ANCESTORS: u64 = 1000000;

// What a descent makes of a rule.
fn told(rule: &GlobalRule, descent: Descent) -> Result<Option<GlobalWhy>, Memory>
    ensures { IfOk result (λ why. why ≡ rewind_why rule.now descent) }
{
    match descent {
        Descent::Yes => Ok(None),
        Descent::No => {
            let rule = rule.name.copy()?;
            Ok(Some(GlobalWhy::Rewound { rule }))
        }
        Descent::TooFar => {
            let rule = rule.name.copy()?;
            Ok(Some(GlobalWhy::TooFar { rule }))
        }
    }
}

/// That a reference of which the rule speaks went back, or that it is too far to tell.
pub(crate) fn rewind_why<R: Keeper>(
    alloc: Global,
    keeper: &mut R,
    rule: &GlobalRule,
    change: &Change,
) -> Result<Option<GlobalWhy>, KeeperFault>
    ensures why { IfOk result (λ why. (r : Repository) → R.content keeper.new ≡ Some r
        → IsRewindWhy r rule.now change.now why) }
    ensures same { Undisturbed R.Keeper keeper.old keeper.new }
    ensures cause { HasCause keeper_failed (R.faults keeper.old) (R.faults keeper.new) result }
{
    if !speak_of(&rule.paths, Space::Git, change.name.text()) {
        return Ok(None);
    }
    let descent = descends(alloc, keeper, &change.target, &change.from, MOST_ANCESTORS)?;
    Ok(told(rule, descent)?)
}
