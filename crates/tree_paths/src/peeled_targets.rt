//! Peeling of a target to its tree.

ghost use Rattle.std.specs.Prelude.{◌≡◌, ◌≤◌, ◌+◌, Option, None, IfOk};
ghost use Rattle.octets.specs.Causes.{HasCause};
ghost use Rattle.keeper_api.specs.Faults.{keeper_failed};
ghost use Rattle.keeper_api.specs.Undisturbed.{Undisturbed};
ghost use Rattle.tree_paths.specs.Readings.{Readings, Told};
ghost use Rattle.tree_paths.specs.States.{may_be_commit, may_be_tag, peeled, root_of};

use crate::heads::{Peeled, TargetHead};
use crate::object_reads::load_head;
use git_object::{Kind, ObjectId};
use keeper_api::{Keeper, KeeperFault};
use std::alloc::Global;
use text_reader::same_bytes;

// The most tags that are peeled.
const MOST_TAGS: u32 = 8;

// Whether a commit is of the kind that the tag before it names, if there is one.
fn may_be_commit(wanted: Option<Kind>) -> bool
    ensures { result ≡ may_be_commit wanted }
{
    match wanted {
        None => true,
        Some(Kind::Commit) => true,
        Some(Kind::Blob) => false,
        Some(Kind::Tree) => false,
        Some(Kind::Tag) => false,
    }
}

// Whether a tag is.
fn may_be_tag(wanted: Option<Kind>) -> bool
    ensures { result ≡ may_be_tag wanted }
{
    match wanted {
        None => true,
        Some(Kind::Tag) => true,
        Some(Kind::Blob) => false,
        Some(Kind::Tree) => false,
        Some(Kind::Commit) => false,
    }
}

// Peels what is at an id, which a tag may have named as of a kind, while so many tags are left.
fn peel<R: Keeper>(
    alloc: Global,
    keeper: &mut R,
    id: &ObjectId,
    left: u32,
    wanted: Option<Kind>,
) -> Result<Peeled, KeeperFault>
    requires { left ≤ 8 }
    ensures peeled { IfOk result (λ end. (readings : Readings) → Told (R.content keeper.new) readings
        → end ≡ peeled readings.heads left wanted id.now) }
    ensures same { Undisturbed R.Keeper keeper.old keeper.new }
    ensures cause { HasCause keeper_failed (R.faults keeper.old) (R.faults keeper.new) result }
    ensures reads { R.reads keeper.new ≤ R.reads keeper.old + (left + 1) }
{
    match load_head(alloc, keeper, id)? {
        TargetHead::Other => Ok(Peeled::Bad(*id)),
        TargetHead::Root(tree) => {
            if may_be_commit(wanted) {
                return Ok(Peeled::At { commit: *id, tree });
            }
            Ok(Peeled::Bad(*id))
        }
        TargetHead::Next(object, kind) => {
            if left == 0 {
                return Ok(Peeled::Bad(*id));
            }
            if !may_be_tag(wanted) {
                return Ok(Peeled::Bad(*id));
            }
            let end = peel(alloc, keeper, &object, left - 1, Some(kind))?;
            Ok(end)
        }
    }
}

/// Where peeling of a target ends. It makes at most nine reads.
pub fn root_of<R: Keeper>(
    alloc: Global,
    keeper: &mut R,
    target: &ObjectId,
) -> Result<Peeled, KeeperFault>
    ensures root { IfOk result (λ end. (readings : Readings) → Told (R.content keeper.new) readings
        → end ≡ root_of readings.heads target.now) }
    ensures same { Undisturbed R.Keeper keeper.old keeper.new }
    ensures cause { HasCause keeper_failed (R.faults keeper.old) (R.faults keeper.new) result }
    ensures reads { R.reads keeper.new ≤ R.reads keeper.old + 9 }
{
    if same_bytes(target.as_bytes(), ObjectId::zeros().as_bytes()) {
        return Ok(Peeled::Nothing);
    }
    let end = peel(alloc, keeper, target, MOST_TAGS, None)?;
    Ok(end)
}
