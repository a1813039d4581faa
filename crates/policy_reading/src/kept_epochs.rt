//! The epochs of a log over a store.

ghost use Rattle.std.specs.Prelude.{◌≡◌, ◌≤◌, ◌+◌, ℕ, List, IfOk, OnErr, OnOk, Some};
ghost use Rattle.octets.specs.Causes.{HasCause};
ghost use Rattle.git_object.specs.Repository.{Repository};
ghost use Rattle.keeper_api.specs.Faults.{keeper_failed};
ghost use Rattle.keeper_api.specs.Undisturbed.{Undisturbed};
ghost use Rattle.policy_epochs.specs.Epochs.{AreEpochs, below, fault_under, policy_in};
ghost use Rattle.policy_epochs.specs.Standing.{Found, IsNext, Stands, verdict_of};
ghost use Rattle.policy_epochs.specs.Succession.{succession};
ghost use Rattle.policy_reading.specs.Policies.{policy_of, policy_reads};

use crate::check_policy;
use git_object::ObjectId;
use keeper_api::{Keeper, KeeperFault};
use known_signers::KnownSigners;
use policy_epochs::{EpochVerdict, Epochs};
use std::alloc::Global;

/// Takes the next entry for the policy, of this target: of whatever log the epochs stand for, they stand for that log
/// with it afterwards. After an error they are as before.
pub fn extend<R: Keeper>(
    alloc: Global,
    epochs: &mut Epochs,
    keeper: &mut R,
    known: &KnownSigners,
    target: &ObjectId,
) -> Result<EpochVerdict, KeeperFault>
    ensures anchor { epochs.new.anchor ≡ epochs.old.anchor }
    ensures verdict { IfOk result (λ verdict. (r : Repository) → R.content keeper.new ≡ Some r
        → verdict ≡ verdict_of (fault_under (succession epochs.old.anchor) epochs.old.current (policy_of r target.now))) }
    ensures stands { OnOk result ((r : Repository) → R.content keeper.new ≡ Some r → (checked : Found) (n number : ℕ)
        → IsNext checked n number (policy_of r target.now) → Stands epochs.old checked n
        → Stands epochs.new checked number) }
    ensures epoch { IfOk result (λ verdict. (r : Repository) → R.content keeper.new ≡ Some r
        → (checked : Found) (n number : ℕ) (list : List ℕ) → IsNext checked n number (policy_of r target.now)
        → Stands epochs.old checked n → AreEpochs checked (succession epochs.old.anchor) number list
        → verdict ≡ verdict_of (fault_under (succession epochs.old.anchor) (policy_in checked (below number list))
        (policy_of r target.now))) }
    ensures kept { OnErr result (epochs.new ≡ epochs.old) }
    ensures same { Undisturbed R.Keeper keeper.old keeper.new }
    ensures cause { HasCause keeper_failed (R.faults keeper.old) (R.faults keeper.new) result }
    ensures reads { (r : Repository) → R.content keeper.new ≡ Some r → R.reads keeper.new ≤ R.reads keeper.old
        + policy_reads r target.now }
{
    let found = check_policy(alloc, keeper, known, target)?;
    Ok(epochs.take(alloc, known, found)?)
}

/// What `extend` would answer. Nothing is kept.
pub fn look<R: Keeper>(
    alloc: Global,
    epochs: &Epochs,
    keeper: &mut R,
    known: &KnownSigners,
    target: &ObjectId,
) -> Result<EpochVerdict, KeeperFault>
    ensures verdict { IfOk result (λ verdict. (r : Repository) → R.content keeper.new ≡ Some r
        → verdict ≡ verdict_of (fault_under (succession epochs.now.anchor) epochs.now.current (policy_of r target.now))) }
    ensures same { Undisturbed R.Keeper keeper.old keeper.new }
    ensures cause { HasCause keeper_failed (R.faults keeper.old) (R.faults keeper.new) result }
    ensures reads { (r : Repository) → R.content keeper.new ≡ Some r → R.reads keeper.new ≤ R.reads keeper.old
        + policy_reads r target.now }
{
    let found = check_policy(alloc, keeper, known, target)?;
    Ok(epochs.judge(alloc, known, found)?)
}
