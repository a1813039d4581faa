//! The commit of an entry.

ghost use Rattle.std.specs.Prelude.{◌≡◌, ◌∷◌, [], IfOk, Some};
ghost use Rattle.octets.specs.Causes.{HasCause};
ghost use Rattle.keeper_api.specs.Faults.{keeper_failed};
ghost use Rattle.log_appending.specs.Stores.{CommitEnds, entry_change};

use git_object::{Kind, Memory, Object, ObjectId, Objects, RefName, id_of};
use keeper_api::{Change, Keeper, KeeperFault, RefChange, RefChanges};
use octets::Octets;
use std::alloc::Global;

// The commit of this body, and the log's reference at it.
fn change_of(alloc: Global, text: Octets) -> Result<Change, Memory>
    ensures { IfOk result (λ change. change ≡ entry_change text) }
{
    let object = Object::new(alloc, Kind::Commit, text)?;
    let change = RefChange {
        name: RefName::of_log(alloc)?,
        to: Some(object.id()),
    };
    let mut refs = RefChanges::new(alloc);
    refs.push(change)?;
    let mut objects = Objects::new(alloc);
    objects.push(object)?;
    Ok(Change { objects, refs })
}

/// Commits an entry's body to a store: its commit and, at it, the log's reference.
pub fn commit_text<R: Keeper>(
    alloc: Global,
    text: Octets,
    keeper: &mut R,
) -> Result<ObjectId, KeeperFault>
    ensures ends { CommitEnds R.Keeper text keeper.old keeper.new result }
    ensures keeper { HasCause keeper_failed (R.faults keeper.old) (R.faults keeper.new) result }
    ensures reads { R.reads keeper.new ≡ R.reads keeper.old }
{
    let id = id_of(Kind::Commit, text.as_slice());
    let Ok(change) = change_of(alloc, text) else {
        return Err(KeeperFault::Memory);
    };
    match keeper.commit(alloc, &change) {
        Ok(()) => Ok(id),
        Err(KeeperFault::Failed) => Err(KeeperFault::Failed),
        Err(KeeperFault::Memory) => Err(KeeperFault::Memory),
    }
}
