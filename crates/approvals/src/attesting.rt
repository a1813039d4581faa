//! The change that puts an approval into the attestations.

ghost use Rattle.std.specs.Prelude.{◌≡◌, ◌≤◌, ◌+◌, ◌∷◌, [], ℕ, List, length, Ok, Some, IfOk, IfErr, OnOk};
ghost use Rattle.std.specs.Option.{option_copied};
ghost use Rattle.octets.specs.Causes.{HasCause};
ghost use Rattle.git_object.specs.Repository.{Repository};
ghost use Rattle.keeper_api.specs.Undisturbed.{Undisturbed};
ghost use Rattle.dsse_envelope.specs.Envelopes.{reading};
ghost use Rattle.dsse_envelope.specs.Written.{IsWritable, text_of};
ghost use Rattle.approvals.specs.Attesting.{IsAttestable, IsChange, approval_pair, attested, commit_pair, commit_rest};
ghost use Rattle.approvals.specs.Attesting.{parents_of, target_in};
ghost use Rattle.git_object.specs.References.{attestations_name};
ghost use Rattle.approvals.specs.Faults.{IfUnreadable, attest_failed};
ghost use Rattle.approvals.specs.Sites.{IsFitSite, IsSiteOf};

use crate::AttestFault;
use crate::sites::{Site, find_site, put_blob};
use dsse_envelope::Envelope;
use git_object::{Commit, Ids, Kind, Object, ObjectId, Objects, Octets, RefName};
use keeper_api::{Change, Keeper, RefChange, RefChanges};
use octets::Memory;
use std::alloc::Global;

/// A change that puts an approval into the attestations, and the id of its commit.
#[derive(Drop)]
pub struct Attested {
    pub change: Change,
    pub commit: ObjectId,
}

fn parents_of(alloc: Global, parent: &Option<ObjectId>) -> Result<Ids, Memory>
    ensures { IfOk result (λ parents. parents ≡ parents_of parent.now) }
{
    let mut parents = Ids::new(alloc);
    if let Some(id) = parent {
        parents.push(*id)?;
    }
    Ok(parents)
}

// What stands in the commit after its tree and its parent.
fn commit_rest(alloc: Global, author: &[u8]) -> Result<Octets, Memory>
    ensures { IfOk result (λ rest. rest ≡ commit_rest author.now) }
{
    let mut rest = Octets::from_slice(alloc, b"author ")?;
    rest.append(author)?;
    rest.append(b"\ncommitter ")?;
    rest.append(author)?;
    rest.append(b"\n\napprove\n")?;
    Ok(rest)
}

fn commit_object(
    alloc: Global,
    root: ObjectId,
    parent: &Option<ObjectId>,
    author: &[u8],
) -> Result<Object, Memory>
    ensures { IfOk result (λ object. object ≡ commit_pair root (parents_of parent.now) author.now) }
{
    let commit = Commit {
        tree: root,
        parents: parents_of(alloc, parent)?,
        rest: commit_rest(alloc, author)?,
    };
    let body = commit.write(alloc)?;
    Object::new(alloc, Kind::Commit, body)
}

// The one change of the attestations' reference.
fn refs_to(alloc: Global, commit: ObjectId) -> Result<RefChanges, Memory>
    ensures { IfOk result (λ refs. refs ≡ record { name = attestations_name; to = Some commit } ∷ []) }
{
    let mut refs = RefChanges::new(alloc);
    refs.push(RefChange {
        name: RefName::of_attestations(alloc)?,
        to: Some(commit),
    })?;
    Ok(refs)
}

// The approval as an object.
fn approval_object(alloc: Global, envelope: &Envelope) -> Result<Object, Memory>
    requires { IsWritable envelope.now }
    ensures object { IfOk result (λ object. object ≡ approval_pair envelope.now) }
    ensures reads_back { OnOk result (reading (text_of envelope.now) ≡ Ok envelope.now) }
{
    let text = envelope.write(alloc)?;
    Object::new(alloc, Kind::Blob, text)
}

/// The change that puts an approval at a site that was found, with this text as author and committer: the approval's
/// blob, the new trees, and the commit. It asks for an approval that can be written.
pub fn attest_at(
    alloc: Global,
    site: &Site,
    envelope: &Envelope,
    author: &[u8],
) -> Result<Attested, Memory>
    requires fit { IsFitSite site.now }
    requires writable { IsWritable envelope.now }
    ensures attested { IfOk result (λ a. (r : Repository) (target name from tree : List ℕ)
        → IsSiteOf r target name from tree site.now → attested r target name from tree envelope.now author.now ≡ Ok a) }
    ensures change { IfOk result (IsChange (approval_pair envelope.now) author.now) }
    ensures reads_back { OnOk result (reading (text_of envelope.now) ≡ Ok envelope.now) }
{
    let blob = approval_object(alloc, envelope)?;
    let id = blob.id();
    let mut objects = Objects::new(alloc);
    objects.push(blob)?;
    let root = put_blob(alloc, site, &id, &mut objects)?;
    let object = commit_object(alloc, root, &site.parent, author)?;
    let commit = object.id();
    objects.push(object)?;
    let refs = refs_to(alloc, commit)?;
    Ok(Attested {
        change: Change { objects, refs },
        commit,
    })
}

/// The change that puts an approval for a reference, the target that it goes from and the tree that it goes to at its
/// path among the attestations, whose reference stands at a target or is not there (zeros are nothing). The new objects
/// are the approval's blob, a tree for each of the path's directories, each the old one with one entry put in its place
/// in Git's order, and a commit with this text as author and committer, whose only parent is the commit that the old
/// target is peeled to, if there is one; the one reference change sets `refs/gittuf/attestations` to it. All else in
/// the tree stays. `Unreadable` names the first object on the way to the approval's place that is no commit, tag or
/// tree where one is wanted, that is no directory, or is one in the approval's place, or the old tree that would grow
/// past 16 MiB. It makes at most 27 reads. It asks for an approval of at most 1 MiB as it is written, which
/// `is_approval` tells, and for an author of at most 1 MiB.
pub fn attest<R: Keeper>(
    alloc: Global,
    keeper: &mut R,
    attestations: Option<&ObjectId>,
    name: &RefName,
    from: &ObjectId,
    tree: &ObjectId,
    envelope: &Envelope,
    author: &[u8],
) -> Result<Attested, AttestFault>
    requires approval { IsAttestable name.now from.now tree.now envelope.now }
    requires author { length author.now ≤ 1048576 }
    ensures attested { IfOk result (λ a. (r : Repository) → R.content keeper.new ≡ Some r
        → attested r (target_in (option_copied attestations.entry)) name.now from.now tree.now envelope.now author.now
        ≡ Ok a) }
    ensures change { IfOk result (IsChange (approval_pair envelope.now) author.now) }
    ensures reads_back { OnOk result (reading (text_of envelope.now) ≡ Ok envelope.now) }
    ensures unreadable { IfErr result (λ e. IfUnreadable e (λ id. (r : Repository) → R.content keeper.new ≡ Some r
        → attested r (target_in (option_copied attestations.entry)) name.now from.now tree.now envelope.now author.now
        ≡ Err id)) }
    ensures same { Undisturbed R.Keeper keeper.old keeper.new }
    ensures cause { HasCause attest_failed (R.faults keeper.old) (R.faults keeper.new) result }
    ensures reads { R.reads keeper.new ≤ R.reads keeper.old + 27 }
{
    let site = match find_site(alloc, keeper, attestations, name, from, tree) {
        Ok(site) => site,
        Err(fault) => return Err(fault),
    };
    match attest_at(alloc, &site, envelope, author) {
        Ok(attested) => Ok(attested),
        Err(Memory) => Err(AttestFault::Memory),
    }
}
