//! The parents of commits.

ghost use Rattle.std.specs.Prelude.{◌≡◌, ◌≤◌, ◌+◌, Some, IfOk};
ghost use Rattle.octets.specs.Causes.{HasCause};
ghost use Rattle.git_object.specs.Repository.{Repository};
ghost use Rattle.keeper_api.specs.Faults.{keeper_failed};
ghost use Rattle.keeper_api.specs.Undisturbed.{Undisturbed};
ghost use Rattle.global_rules.specs.Commits.{commit_parents};

use git_object::{Commit, Ids, Kind, ObjectFault, ObjectId};
use keeper_api::{Keeper, KeeperFault, load_object};
use std::alloc::Global;

/// The parents of the commit at an id, or None where no commit is there. It makes one read.
pub(crate) fn load_parents<R: Keeper>(
    alloc: Global,
    keeper: &mut R,
    id: &ObjectId,
) -> Result<Option<Ids>, KeeperFault>
    ensures read { IfOk result (λ found. (r : Repository) → R.content keeper.new ≡ Some r
        → found ≡ commit_parents r id.now) }
    ensures same { Undisturbed R.Keeper keeper.old keeper.new }
    ensures cause { HasCause keeper_failed (R.faults keeper.old) (R.faults keeper.new) result }
    ensures reads { R.reads keeper.new ≤ R.reads keeper.old + 1 }
{
    let Some(object) = load_object(alloc, keeper, id)? else {
        return Ok(None);
    };
    match object.kind() {
        Kind::Commit => match Commit::read(alloc, object.body()) {
            Ok(commit) => Ok(Some(parents_in(commit))),
            Err(ObjectFault::Malformed { at: _ }) => Ok(None),
            Err(ObjectFault::Memory) => Err(KeeperFault::Memory),
        },
        Kind::Blob | Kind::Tree | Kind::Tag => Ok(None),
    }
}

// The parents that a commit names.
fn parents_in(commit: Commit) -> Ids
    ensures { result ≡ commit.parents }
{
    let Commit {
        tree: _,
        parents,
        rest: _,
    } = commit;
    parents
}
