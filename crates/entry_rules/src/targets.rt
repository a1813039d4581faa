//! What two targets come to: what changed between them, who signed for it, and that one is broken.

ghost use Rattle.std.specs.Prelude.{◌≡◌, ◌≤◌, ◌+◌, Some, true, IfOk, OnOk};
ghost use Rattle.std.specs.Option.{option_copied};
ghost use Rattle.octets.specs.Causes.{HasCause};
ghost use Rattle.git_object.specs.Repository.{Repository};
ghost use Rattle.keeper_api.specs.Faults.{keeper_failed};
ghost use Rattle.keeper_api.specs.Undisturbed.{Undisturbed};
ghost use Rattle.rsl_chain.specs.declared.entries.EntryBody.TheVariants.{Reference};
ghost use Rattle.tree_paths.specs.Changes.{IsComparison};
ghost use Rattle.tree_paths.specs.Known.{AreKnownIn};
ghost use Rattle.tree_paths.specs.Repositories.{readings_of};
ghost use Rattle.tree_paths.specs.States.{walk_of};
ghost use Rattle.tree_paths.specs.declared.states.Comparison.TheVariants as comparison;
ghost use Rattle.entry_rules.specs.Faults.{body_fault, body_signers};
ghost use Rattle.entry_rules.specs.RealRules.{approval_reads, both_sound, comparison_reads};
ghost use Rattle.entry_rules.specs.Signing.{approved, joined, signer_among, tree_in};

use crate::Fault;
use crate::known_changes::Lesson;
use crate::signing::{approved, joined, known_signer, listed_ids};
use git_object::{ObjectId, RefName};
use judging::Finding;
use keeper_api::{Keeper, KeeperFault};
use known_signers::KnownSigners;
use policy_epochs::Policy;
use policy_reading::own_state;
use rsl_chain::Entry;
use std::alloc::Global;
use tree_paths::{Comparison, KnownTrees, State, compare_known};

/// What is found of an entry, and what it taught.
#[derive(Drop)]
pub struct Found {
    pub finding: Finding<Fault>,
    pub lesson: Lesson,
}

/// What changed between two targets, where something is known of the trees.
pub fn compared<R: Keeper>(
    alloc: Global,
    keeper: &mut R,
    known: &KnownTrees,
    from: &ObjectId,
    to: &ObjectId,
) -> Result<Comparison, KeeperFault>
    requires known { (r : Repository) → R.content keeper.old ≡ Some r → AreKnownIn r known.now }
    ensures compared { IfOk result (λ c. (r : Repository) → R.content keeper.new ≡ Some r
        → IsComparison (walk_of (readings_of r) from.now) (walk_of (readings_of r) to.now) c) }
    ensures same { Undisturbed R.Keeper keeper.old keeper.new }
    ensures cause { HasCause keeper_failed (R.faults keeper.old) (R.faults keeper.new) result }
    ensures reads { OnOk result ((r : Repository) → R.content keeper.new ≡ Some r
        → both_sound (readings_of r) from.now to.now ≡ true → R.reads keeper.new ≤ R.reads keeper.old + comparison_reads
        (readings_of r) from.now to.now) }
{
    compare_known(alloc, keeper, known, from, to)
}

// The tree of a target: zeros where there is nothing, and None where it is broken.
fn tree_of<R: Keeper>(
    alloc: Global,
    keeper: &mut R,
    target: &ObjectId,
) -> Result<Option<ObjectId>, KeeperFault>
    ensures tree { IfOk result (λ tree. (r : Repository) → R.content keeper.new ≡ Some r
        → tree ≡ tree_in (walk_of (readings_of r) target.now)) }
    ensures same { Undisturbed R.Keeper keeper.old keeper.new }
    ensures cause { HasCause keeper_failed (R.faults keeper.old) (R.faults keeper.new) result }
{
    match own_state(alloc, keeper, target)? {
        State::Absent => Ok(Some(ObjectId::zeros())),
        State::Whole {
            tree,
            paths: _,
            dirs: _,
        } => Ok(Some(tree)),
        State::Broken { id: _ } => Ok(None),
    }
}

/// The keys of a policy that signed for a change to a tree.
pub fn signers_for<R: Keeper>(
    alloc: Global,
    keeper: &mut R,
    signed: &KnownSigners,
    policy: &Policy,
    entry: &Entry,
    name: &RefName,
    from: &ObjectId,
    attested: Option<&ObjectId>,
    tree: Option<ObjectId>,
) -> Result<root_metadata::KeyIds, KeeperFault>
    ensures signers { IfOk result (λ ids. (r : Repository) → R.content keeper.new ≡ Some r
        → ids ≡ joined (signer_among policy.now.keys entry.now)
        (approved r policy.now.keys name.now from.now (option_copied attested.entry) tree)) }
    ensures same { Undisturbed R.Keeper keeper.old keeper.new }
    ensures cause { HasCause keeper_failed (R.faults keeper.old) (R.faults keeper.new) result }
    ensures reads { R.reads keeper.new ≤ R.reads keeper.old + approval_reads (option_copied attested.entry) }
{
    let approvers = approved(
        alloc,
        keeper,
        signed,
        &policy.keys,
        name,
        from,
        attested,
        tree,
    )?;
    let signer = known_signer(alloc, signed, &policy.keys, entry);
    Ok(joined(alloc, signer, &approvers)?)
}

/// Of a change of which a state is broken at this object.
pub fn find_broken<R: Keeper>(
    alloc: Global,
    keeper: &mut R,
    signed: &KnownSigners,
    policy: &Policy,
    entry: &Entry,
    name: &RefName,
    target: &ObjectId,
    from: &ObjectId,
    attested: Option<&ObjectId>,
    id: ObjectId,
) -> Result<Finding<Fault>, KeeperFault>
    ensures fault { IfOk result (λ found. (r : Repository) → R.content keeper.new ≡ Some r
        → IsComparison (walk_of (readings_of r) from.now) (walk_of (readings_of r) target.now) (comparison.Broken id)
        → found.fault ≡ body_fault r policy.now entry.now from.now (option_copied attested.entry)
        (Reference name.now target.now)) }
    ensures signers { IfOk result (λ found. (r : Repository) → R.content keeper.new ≡ Some r
        → found.signers ≡ body_signers r policy.now entry.now from.now (option_copied attested.entry)
        (Reference name.now target.now)) }
    ensures same { Undisturbed R.Keeper keeper.old keeper.new }
    ensures cause { HasCause keeper_failed (R.faults keeper.old) (R.faults keeper.new) result }
{
    let tree = tree_of(alloc, keeper, target)?;
    let signers = signers_for(
        alloc, keeper, signed, policy, entry, name, from, attested, tree,
    )?;
    let signers = listed_ids(alloc, &signers)?;
    Ok(Finding {
        fault: Some(Fault::Broken { id }),
        signers,
    })
}
