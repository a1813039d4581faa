//! Files in the tree of a target.

ghost use Rattle.std.specs.Prelude.{◌≡◌, ◌≤◌, ◌+◌, length, Some, IfOk, IfSome};
ghost use Rattle.std.specs.Option.{option_map};
ghost use Rattle.octets.specs.Causes.{HasCause};
ghost use Rattle.git_object.specs.Names.{components};
ghost use Rattle.git_object.specs.Objects.{Pair};
ghost use Rattle.git_object.specs.Repository.{Repository};
ghost use Rattle.keeper_api.specs.Faults.{keeper_failed};
ghost use Rattle.keeper_api.specs.Undisturbed.{Undisturbed};
ghost use Rattle.tree_paths.specs.Readings.{Readings, Told};
ghost use Rattle.approvals.specs.Lookups.{entry_in, file_in, is_file};

use git_object::{Mode, Object, ObjectId};
use keeper_api::{Keeper, KeeperFault};
use std::alloc::Global;
use tree_paths::{Peeled, load_at, load_blob, root_of};

// Whether the mode is a file's.
fn is_file(mode: Mode) -> bool
    ensures { result ≡ is_file mode }
{
    match mode {
        Mode::File | Mode::Exec => true,
        Mode::Dir | Mode::Link | Mode::Module => false,
    }
}

// The mode and the id at a path of the tree of a target.
fn find_entry<R: Keeper>(
    alloc: Global,
    keeper: &mut R,
    target: &ObjectId,
    path: &[u8],
) -> Result<Option<(Mode, ObjectId)>, KeeperFault>
    ensures found { IfOk result (λ found. (readings : Readings) → Told (R.content keeper.new) readings
        → found ≡ entry_in readings target.now path.now) }
    ensures same { Undisturbed R.Keeper keeper.old keeper.new }
    ensures cause { HasCause keeper_failed (R.faults keeper.old) (R.faults keeper.new) result }
    ensures reads { R.reads keeper.new ≤ R.reads keeper.old + (9 + length (components path.now)) }
{
    match root_of(alloc, keeper, target)? {
        Peeled::Nothing => Ok(None),
        Peeled::Bad(_) => Ok(None),
        Peeled::At { commit: _, tree } => {
            let found = load_at(alloc, keeper, &tree, path)?;
            Ok(found)
        }
    }
}

/// The file at a path of the tree of a target: the target is peeled through at most 8 tags to a commit, directories of
/// all names of the path but the last lead to a file, executable or not, that is a blob of at most 1 MiB. None where
/// any of this fails. Its body has the file's bytes. It makes at most ten reads beside one for each name of the path.
pub fn load_file<R: Keeper>(
    alloc: Global,
    keeper: &mut R,
    target: &ObjectId,
    path: &[u8],
) -> Result<Option<Object>, KeeperFault>
    ensures found { IfOk result (λ found. (r : Repository) → R.content keeper.new ≡ Some r
        → option_map (λ (pair : Pair). pair.body) found ≡ file_in r target.now path.now) }
    ensures same { Undisturbed R.Keeper keeper.old keeper.new }
    ensures cause { HasCause keeper_failed (R.faults keeper.old) (R.faults keeper.new) result }
    ensures reads { R.reads keeper.new ≤ R.reads keeper.old + (10 + length (components path.now)) }
{
    let Some(entry) = find_entry(alloc, keeper, target, path)? else {
        return Ok(None);
    };
    if !is_file(entry.0) {
        return Ok(None);
    }
    let found = load_blob(alloc, keeper, &entry.1)?;
    Ok(found)
}
