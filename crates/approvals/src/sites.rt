//! Where an approval is put among the attestations: all that has to be read for it.

ghost use Rattle.std.specs.Prelude.{◌≡◌, ◌≤◌, ◌+◌, ℕ, List, length, Err, Ok, Some, Option, IfErr, IfNone, IfOk, IfSome};
ghost use Rattle.std.specs.Prelude.{OnOk};
ghost use Rattle.std.specs.List.{AllByRecursion};
ghost use Rattle.std.specs.Option.{option_copied};
ghost use Rattle.octets.specs.Causes.{HasCause};
ghost use Rattle.git_object.specs.Ids.{zeros};
ghost use Rattle.git_object.specs.Names.{components};
ghost use Rattle.git_object.specs.Repository.{Repository};
ghost use Rattle.git_object.specs.Trees.{IsEntryName};
ghost use Rattle.keeper_api.specs.Faults.{keeper_failed};
ghost use Rattle.keeper_api.specs.Undisturbed.{Undisturbed};
ghost use Rattle.tree_paths.specs.Readings.{Readings, Told};
ghost use Rattle.tree_paths.specs.States.{root_of};
ghost use Rattle.approvals.specs.Attesting.{approval_pair, attested_after, target_in};
ghost use Rattle.approvals.specs.Faults.{IfUnreadable, attest_failed};
ghost use Rattle.approvals.specs.Files.{Putting, put_file};
ghost use Rattle.approvals.specs.Levels.{AreLevels, IsFit, put_levels};
ghost use Rattle.approvals.specs.Placing.{IsMade};
ghost use Rattle.approvals.specs.Sites.{GivesAfter, IsFitSite, IsInWayOf, IsSiteOf, RefusesAfter, put_at};
ghost use Rattle.object_making.specs.Keeping.{Adds};

use crate::putting::{Placed, put_levels};
use crate::surveys::{Level, Levels, survey};
use crate::{AttestFault, path_of};
use git_object::{ObjectId, Objects, Octets, RefName};
use keeper_api::{Keeper, KeeperFault};
use octets::Memory;
use std::alloc::Global;
use tree_paths::{Peeled, root_of};

/// Where an approval is put among the attestations: its path, the commit that they stand at, if there is one, and the
/// directories on the way.
#[derive(Drop)]
pub struct Site {
    pub(crate) path: Octets,
    pub(crate) parent: Option<ObjectId>,
    pub(crate) levels: Levels,
}

// The id that the reference to the attestations stands at, or zeros where it is not there.
fn target_in(attestations: Option<&ObjectId>) -> ObjectId
    ensures { result ≡ target_in (option_copied attestations.entry) }
{
    match attestations {
        Some(id) => *id,
        None => ObjectId::zeros(),
    }
}

// The object that is in the way of a file at the path, whatever its id.
fn in_way(alloc: Global, levels: &[Level], path: &[u8]) -> Result<Option<ObjectId>, Memory>
    requires named { AllByRecursion IsEntryName (components path.now) }
    requires few { length (components path.now) ≤ 18 }
    requires levels { AreLevels (components path.now) levels.now }
    ensures fit { IfOk result (λ in_way. IfNone in_way (IsFit path.now levels.now)) }
    ensures in_way { IfOk result (λ in_way. IfSome in_way (λ id. put_levels zeros (components path.now) levels.now
        ≡ Err id)) }
{
    let mut trial = Objects::new(alloc);
    match put_levels(alloc, levels, path, &ObjectId::zeros(), &mut trial)? {
        Placed::Made(_) => Ok(None),
        Placed::InWay(id) => Ok(Some(id)),
    }
}

// The site at a path of an old tree, whose commit is the new one's parent; or the object in the way.
fn site_after<R: Keeper>(
    alloc: Global,
    keeper: &mut R,
    path: Octets,
    parent: Option<ObjectId>,
    old: Option<ObjectId>,
) -> Result<Result<Site, ObjectId>, KeeperFault>
    requires named { AllByRecursion IsEntryName (components path) }
    requires few { length (components path) ≤ 18 }
    ensures fit { IfOk result (λ found. IfOk found IsFitSite) }
    ensures made { IfOk result (λ found. IfOk found (λ site. (site.parent ≡ parent) × (site.path ≡ path)
        × ((readings : Readings) → Told (R.content keeper.new) readings
        → (blob : List ℕ) → put_file readings.trees blob (components path) old ≡ put_levels blob (components path)
        site.levels))) }
    ensures in_way { IfOk result (λ found. IfErr found (λ id. (readings : Readings)
        → Told (R.content keeper.new) readings
        → (blob : List ℕ) → length blob ≡ 32 → put_file readings.trees blob (components path) old ≡ Err id)) }
    ensures same { Undisturbed R.Keeper keeper.old keeper.new }
    ensures cause { HasCause keeper_failed (R.faults keeper.old) (R.faults keeper.new) result }
    ensures reads { R.reads keeper.new ≤ R.reads keeper.old + 18 }
{
    let mut levels = Levels::new(alloc);
    if let Some(id) = survey(alloc, keeper, path.as_slice(), &old, &mut levels)? {
        return Ok(Err(id));
    }
    if let Some(id) = in_way(alloc, levels.as_slice(), path.as_slice())? {
        return Ok(Err(id));
    }
    Ok(Ok(Site {
        path,
        parent,
        levels,
    }))
}

// The site after what the old target is peeled to; or the object in the way.
fn site_at<R: Keeper>(
    alloc: Global,
    keeper: &mut R,
    target: &ObjectId,
    path: Octets,
) -> Result<Result<Site, ObjectId>, KeeperFault>
    requires named { AllByRecursion IsEntryName (components path) }
    requires few { length (components path) ≤ 18 }
    ensures fit { IfOk result (λ found. IfOk found IsFitSite) }
    ensures made { IfOk result (λ found. IfOk found (λ site. (readings : Readings)
        → Told (R.content keeper.new) readings
        → GivesAfter readings.trees (components path) (root_of readings.heads target.now) site)) }
    ensures in_way { IfOk result (λ found. IfErr found (λ id. (readings : Readings)
        → Told (R.content keeper.new) readings
        → RefusesAfter readings.trees (components path) (root_of readings.heads target.now) id)) }
    ensures same { Undisturbed R.Keeper keeper.old keeper.new }
    ensures cause { HasCause keeper_failed (R.faults keeper.old) (R.faults keeper.new) result }
    ensures reads { R.reads keeper.new ≤ R.reads keeper.old + 27 }
{
    match root_of(alloc, keeper, target)? {
        Peeled::Bad(id) => Ok(Err(id)),
        Peeled::Nothing => {
            let found = site_after(alloc, keeper, path, None, None)?;
            Ok(found)
        }
        Peeled::At { commit, tree } => {
            let found = site_after(alloc, keeper, path, Some(commit), Some(tree))?;
            Ok(found)
        }
    }
}

// The site of an approval; or the object in the way.
fn site_of<R: Keeper>(
    alloc: Global,
    keeper: &mut R,
    target: &ObjectId,
    name: &RefName,
    from: &ObjectId,
    tree: &ObjectId,
) -> Result<Result<Site, ObjectId>, KeeperFault>
    ensures fit { IfOk result (λ found. IfOk found IsFitSite) }
    ensures site { IfOk result (λ found. IfOk found (λ site. (r : Repository) → R.content keeper.new ≡ Some r
        → IsSiteOf r target.now name.now from.now tree.now site)) }
    ensures in_way { IfOk result (λ found. IfErr found (λ id. (r : Repository) → R.content keeper.new ≡ Some r
        → IsInWayOf r target.now name.now from.now tree.now id)) }
    ensures same { Undisturbed R.Keeper keeper.old keeper.new }
    ensures cause { HasCause keeper_failed (R.faults keeper.old) (R.faults keeper.new) result }
    ensures reads { R.reads keeper.new ≤ R.reads keeper.old + 27 }
{
    let path = path_of(alloc, name, from, tree)?;
    let found = site_at(alloc, keeper, target, path)?;
    Ok(found)
}

/// Reads where an approval for a reference, the target that it goes from and the tree that it goes to is put among the
/// attestations, whose reference stands at a target or is not there (zeros are nothing): whatever approval is put there
/// afterwards, nothing more is read. It makes at most 27 reads. `Unreadable` names the first object on the way to the
/// approval's place that is no commit, tag or tree where one is wanted, that is no directory, or is one in the
/// approval's place, or the old tree that would grow past 16 MiB.
pub fn find_site<R: Keeper>(
    alloc: Global,
    keeper: &mut R,
    attestations: Option<&ObjectId>,
    name: &RefName,
    from: &ObjectId,
    tree: &ObjectId,
) -> Result<Site, AttestFault>
    ensures fit { IfOk result IsFitSite }
    ensures site { IfOk result (λ site. (r : Repository) → R.content keeper.new ≡ Some r
        → IsSiteOf r (target_in (option_copied attestations.entry)) name.now from.now tree.now site) }
    ensures unreadable { IfErr result
        (λ e. IfUnreadable e (λ id. (r : Repository) → R.content keeper.new ≡ Some r
        → IsInWayOf r (target_in (option_copied attestations.entry)) name.now from.now tree.now id)) }
    ensures same { Undisturbed R.Keeper keeper.old keeper.new }
    ensures cause { HasCause attest_failed (R.faults keeper.old) (R.faults keeper.new) result }
    ensures reads { R.reads keeper.new ≤ R.reads keeper.old + 27 }
{
    let target = target_in(attestations);
    match site_of(alloc, keeper, &target, name, from, tree) {
        Ok(Ok(site)) => Ok(site),
        Ok(Err(id)) => Err(AttestFault::Unreadable { id }),
        Err(KeeperFault::Failed) => Err(AttestFault::Failed),
        Err(KeeperFault::Memory) => Err(AttestFault::Memory),
    }
}

/// The id of the root's new tree with a blob in its place; the new trees are added to the objects.
pub fn put_blob(
    alloc: Global,
    site: &Site,
    blob: &ObjectId,
    objects: &mut Objects,
) -> Result<ObjectId, Memory>
    requires fit { IsFitSite site.now }
    ensures made { IfOk result (IsMade (put_at site.now blob.now) objects.old objects.new) }
    ensures added { OnOk result (Adds objects.old objects.new) }
{
    let _ = blob.as_bytes();
    match put_levels(
        alloc,
        site.levels.as_slice(),
        site.path.as_slice(),
        blob,
        objects,
    )? {
        Placed::Made(root) => Ok(root),
        Placed::InWay(_) => unreachable!(),
    }
}
