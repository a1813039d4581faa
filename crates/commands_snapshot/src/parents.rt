//! Where a reference stands before a snapshot.

ghost use Rattle.std.specs.Prelude.{◌≡◌, ◌≤◌, ◌+◌, ◌↔◌, IfOk, IfErr, IsTrue, Some};
ghost use Rattle.octets.specs.Causes.{HasCause};
ghost use Rattle.git_object.specs.Commits.{IsCommit};
ghost use Rattle.git_object.specs.Repository.{Repository};
ghost use Rattle.keeper_api.specs.Faults.{keeper_failed};
ghost use Rattle.keeper_api.specs.Undisturbed.{Undisturbed};
ghost use Rattle.commands_snapshot.specs.Parents.{HasCommit, IsParent, WhyNoParent, is_commit, parent_failed};

use git_object::{Commit, Kind, ObjectFault, ObjectId, RefName};
use keeper_api::{Keeper, KeeperFault, load_object};
use octets::Memory;
use std::alloc::Global;

/// Why it is not known where a snapshot's commit belongs. Nothing was changed.
#[derive(Clone, Copy, Debug, PartialEq, Eq)]
pub enum ParentFault {
    Failed,
    /// The reference stands at this id, at which there is no commit that can be read.
    NoCommit { id: ObjectId },
    Memory,
}

fn is_commit(kind: Kind) -> bool
    ensures { result ≡ is_commit kind }
{
    match kind {
        Kind::Commit => true,
        Kind::Blob | Kind::Tree | Kind::Tag => false,
    }
}

// Whether a body can be read as a commit's.
fn reads_as_commit(alloc: Global, body: &[u8]) -> Result<bool, Memory>
    ensures { IfOk result (λ reads. IsTrue reads ↔ IsCommit body.now) }
{
    match Commit::read(alloc, body) {
        Ok(_) => Ok(true),
        Err(ObjectFault::Malformed { at: _ }) => Ok(false),
        Err(ObjectFault::Memory) => Err(Memory),
    }
}

// Whether a commit that can be read is kept at an id.
fn has_commit<R: Keeper>(alloc: Global, keeper: &mut R, id: &ObjectId) -> Result<bool, KeeperFault>
    ensures has { IfOk result (λ has. (r : Repository) → R.content keeper.new ≡ Some r
        → IsTrue has ↔ HasCommit r id.now) }
    ensures same { Undisturbed R.Keeper keeper.old keeper.new }
    ensures cause { HasCause keeper_failed (R.faults keeper.old) (R.faults keeper.new) result }
    ensures reads { R.reads keeper.new ≤ R.reads keeper.old + 1 }
{
    let Some(object) = load_object(alloc, keeper, id)? else {
        return Ok(false);
    };
    if !is_commit(object.kind()) {
        return Ok(false);
    }
    match reads_as_commit(alloc, object.body()) {
        Ok(reads) => Ok(reads),
        Err(Memory) => Err(KeeperFault::Memory),
    }
}

/// The commit at which a reference stands, or none where it is not there. It makes at most one read.
pub fn read_parent<R: Keeper>(
    alloc: Global,
    name: &RefName,
    keeper: &mut R,
) -> Result<Option<ObjectId>, ParentFault>
    ensures parent { IfOk result (λ parent. (r : Repository) → R.content keeper.new ≡ Some r
        → IsParent r name.now parent) }
    ensures why { IfErr result (λ fault. (r : Repository) → R.content keeper.new ≡ Some r
        → WhyNoParent name.now fault r) }
    ensures same { Undisturbed R.Keeper keeper.old keeper.new }
    ensures cause { HasCause parent_failed (R.faults keeper.old) (R.faults keeper.new) result }
    ensures reads { R.reads keeper.new ≤ R.reads keeper.old + 1 }
{
    let id = match keeper.read_ref(alloc, name) {
        Ok(Some(id)) => id,
        Ok(None) => return Ok(None),
        Err(KeeperFault::Failed) => return Err(ParentFault::Failed),
        Err(KeeperFault::Memory) => return Err(ParentFault::Memory),
    };
    match has_commit(alloc, keeper, &id) {
        Ok(true) => Ok(Some(id)),
        Ok(false) => Err(ParentFault::NoCommit { id }),
        Err(KeeperFault::Failed) => Err(ParentFault::Failed),
        Err(KeeperFault::Memory) => Err(ParentFault::Memory),
    }
}
