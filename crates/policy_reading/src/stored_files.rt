//! The trees of a policy as a store holds them.

ghost use Rattle.std.specs.Prelude.{◌≡◌, ◌≤◌, ◌+◌, IfOk, Some};
ghost use Rattle.octets.specs.Causes.{HasCause};
ghost use Rattle.git_object.specs.Repository.{Repository};
ghost use Rattle.keeper_api.specs.Faults.{keeper_failed};
ghost use Rattle.keeper_api.specs.Undisturbed.{Undisturbed};
ghost use Rattle.tree_paths.specs.Listings.{walk_visits};
ghost use Rattle.tree_paths.specs.States.{state_at, walk_of};
ghost use Rattle.policy_reading.specs.Metadata.{metadata_entries};
ghost use Rattle.tree_paths.specs.Repositories.{readings_of};

use crate::found_files::find_metadata;
use git_object::{ObjectId, TreeEntries};
use keeper_api::{Keeper, KeeperFault};
use std::alloc::Global;
use tree_paths::{State, load_tree, state_of};

/// The state of a target. It makes at most nine reads beside one for each tree of its walk.
pub fn own_state<R: Keeper>(
    alloc: Global,
    keeper: &mut R,
    target: &ObjectId,
) -> Result<State, KeeperFault>
    ensures state { IfOk result (λ state. (r : Repository) → R.content keeper.new ≡ Some r
        → state ≡ state_at (walk_of (readings_of r) target.now)) }
    ensures same { Undisturbed R.Keeper keeper.old keeper.new }
    ensures cause { HasCause keeper_failed (R.faults keeper.old) (R.faults keeper.new) result }
    ensures reads { (r : Repository) → R.content keeper.new ≡ Some r → R.reads keeper.new ≤ R.reads keeper.old + 9
        + walk_visits (readings_of r) target.now }
{
    state_of(alloc, keeper, target)
}

// The entries of the tree at an id, where there is a tree.
fn load_own_tree<R: Keeper>(
    alloc: Global,
    keeper: &mut R,
    id: &ObjectId,
) -> Result<Option<TreeEntries>, KeeperFault>
    ensures read { IfOk result (λ found. (r : Repository) → R.content keeper.new ≡ Some r
        → found ≡ (readings_of r).trees id.now) }
    ensures same { Undisturbed R.Keeper keeper.old keeper.new }
    ensures cause { HasCause keeper_failed (R.faults keeper.old) (R.faults keeper.new) result }
    ensures reads { R.reads keeper.new ≤ R.reads keeper.old + 1 }
{
    load_tree(alloc, keeper, id)
}

/// The entries of the directory `metadata` of a root's tree; none where it has no such directory. It makes at most two
/// reads.
#[tactic(auto, unfolding(crate::specs::Metadata::metadata_entries))]
pub fn load_metadata<R: Keeper>(
    alloc: Global,
    keeper: &mut R,
    tree: &ObjectId,
) -> Result<TreeEntries, KeeperFault>
    ensures read { IfOk result (λ entries. (r : Repository) → R.content keeper.new ≡ Some r
        → entries ≡ metadata_entries (readings_of r).trees tree.now) }
    ensures same { Undisturbed R.Keeper keeper.old keeper.new }
    ensures cause { HasCause keeper_failed (R.faults keeper.old) (R.faults keeper.new) result }
    ensures reads { R.reads keeper.new ≤ R.reads keeper.old + 2 }
{
    let Some(root) = load_own_tree(alloc, keeper, tree)? else {
        return Ok(TreeEntries::new(alloc));
    };
    let Some(directory) = find_metadata(root.as_slice()) else {
        return Ok(TreeEntries::new(alloc));
    };
    match load_own_tree(alloc, keeper, &directory.id)? {
        Some(entries) => Ok(entries),
        None => Ok(TreeEntries::new(alloc)),
    }
}
