//! What would be found of a change under a policy.

ghost use Rattle.std.specs.Prelude.{◌≡◌, [], Some, IfOk};
ghost use Rattle.octets.specs.Causes.{HasCause};
ghost use Rattle.git_object.specs.Repository.{Repository};
ghost use Rattle.keeper_api.specs.Faults.{keeper_failed};
ghost use Rattle.keeper_api.specs.Undisturbed.{Undisturbed};
ghost use Rattle.tree_paths.specs.Changes.{IsComparison};
ghost use Rattle.tree_paths.specs.Repositories.{readings_of};
ghost use Rattle.tree_paths.specs.States.{walk_of};
ghost use Rattle.would_be.specs.Would.{IsChange, one};

use crate::signing::{listed, signers_to};
use crate::telling::{add, all_told};
use crate::{Proposed, Stood, Would};
use entry_rules::Fault;
use git_object::ObjectId;
use keeper_api::{Keeper, KeeperFault};
use octets::{Items, Memory};
use policy_epochs::Policy;
use std::alloc::Global;
use tree_paths::{Comparison, compare};

// What changed between two targets.
fn compared<R: Keeper>(
    alloc: Global,
    keeper: &mut R,
    from: &ObjectId,
    to: &ObjectId,
) -> Result<Comparison, KeeperFault>
    ensures compared { IfOk result (λ c. (r : Repository) → R.content keeper.new ≡ Some r
        → IsComparison (walk_of (readings_of r) from.now) (walk_of (readings_of r) to.now) c) }
    ensures same { Undisturbed R.Keeper keeper.old keeper.new }
    ensures cause { HasCause keeper_failed (R.faults keeper.old) (R.faults keeper.new) result }
{
    compare(alloc, keeper, from, to)
}

/// One fault, or none, of which no key is told.
pub(crate) fn alone(alloc: Global, fault: Option<Fault>) -> Result<Would, Memory>
    ensures { IfOk result (λ found. found ≡ record { faults = one fault; signers = [] }) }
{
    let mut faults = Items::new(alloc);
    add(&mut faults, fault)?;
    Ok(Would {
        faults,
        signers: Items::new(alloc),
    })
}

/// What would be found of a change under a policy.
pub(crate) fn find_change<R: Keeper>(
    alloc: Global,
    keeper: &mut R,
    policy: &Policy,
    stood: &Stood,
    proposed: &Proposed,
) -> Result<Would, KeeperFault>
    ensures found { IfOk result (λ found. (r : Repository) → R.content keeper.new ≡ Some r
        → IsChange r policy.now stood.now proposed.now found) }
    ensures same { Undisturbed R.Keeper keeper.old keeper.new }
    ensures cause { HasCause keeper_failed (R.faults keeper.old) (R.faults keeper.new) result }
{
    match compared(alloc, keeper, &stood.from, &proposed.target)? {
        Comparison::Broken { id } => Ok(alone(alloc, Some(Fault::Broken { id }))?),
        Comparison::Changed { from: _, to, paths } => {
            let signers = signers_to(alloc, keeper, policy, stood, proposed, &to)?;
            let paths = paths.as_slice();
            let faults = all_told(alloc, &policy.rules, &proposed.name, paths, &signers)?;
            let signers = listed(alloc, &signers)?;
            Ok(Would { faults, signers })
        }
    }
}
