//! Files of a policy as a store holds them.

ghost use Rattle.std.specs.Prelude.{◌≡◌, ◌≤◌, ◌+◌, length, map, IfOk, IfSome, Some};
ghost use Rattle.octets.specs.Causes.{HasCause};
ghost use Rattle.git_object.specs.Repository.{Repository};
ghost use Rattle.keeper_api.specs.Faults.{keeper_failed};
ghost use Rattle.keeper_api.specs.Undisturbed.{Undisturbed};
ghost use Rattle.policy_epochs.specs.declared.faults.PolicyFault.TheVariants as fault;
ghost use Rattle.policy_reading.specs.Signed.{read_files, root_at, rule_file_at};

use crate::FileAt;
use crate::signed_files::{SignedFile, SignedFiles, SignedRoot, signed_file, signed_root};
use git_object::ObjectId;
use keeper_api::{Keeper, KeeperFault};
use known_signers::KnownSigners;
use octets::{Memory, Octets};
use policy_epochs::PolicyFault;
use std::alloc::Global;
use tree_paths::load_blob;

/// The root at an id; None where the object is missing, no blob, longer than 1 MiB, or refused.
pub fn load_root<R: Keeper>(
    alloc: Global,
    keeper: &mut R,
    known: &KnownSigners,
    id: &ObjectId,
) -> Result<Option<SignedRoot>, KeeperFault>
    ensures read { IfOk result (λ found. (r : Repository) → R.content keeper.new ≡ Some r → found ≡ root_at r id.now) }
    ensures same { Undisturbed R.Keeper keeper.old keeper.new }
    ensures cause { HasCause keeper_failed (R.faults keeper.old) (R.faults keeper.new) result }
    ensures reads { R.reads keeper.new ≤ R.reads keeper.old + 1 }
{
    let Some(object) = load_blob(alloc, keeper, id)? else {
        return Ok(None);
    };
    let root = signed_root(alloc, known, object.body())?;
    Ok(root)
}

// The rule file at a place; None where the object is missing, no blob, longer than 1 MiB, or refused.
fn load_file<R: Keeper>(
    alloc: Global,
    keeper: &mut R,
    known: &KnownSigners,
    at: &FileAt,
) -> Result<Option<SignedFile>, KeeperFault>
    ensures read { IfOk result (λ found. (r : Repository) → R.content keeper.new ≡ Some r
        → found ≡ rule_file_at r at.now) }
    ensures named { IfOk result (λ found. IfSome found (λ signed. signed.file.name ≡ at.now.stem)) }
    ensures same { Undisturbed R.Keeper keeper.old keeper.new }
    ensures cause { HasCause keeper_failed (R.faults keeper.old) (R.faults keeper.new) result }
    ensures reads { R.reads keeper.new ≤ R.reads keeper.old + 1 }
{
    let Some(object) = load_blob(alloc, keeper, &at.id)? else {
        return Ok(None);
    };
    let file = signed_file(alloc, known, at.stem.as_slice(), object.body())?;
    Ok(file)
}

/// That the file of a stem is bad.
pub fn bad_file(alloc: Global, stem: &[u8]) -> Result<PolicyFault, Memory>
    ensures { IfOk result (λ bad. bad ≡ fault.BadFile stem.now) }
{
    let file = Octets::from_slice(alloc, stem)?;
    Ok(PolicyFault::BadFile { file })
}

/// The rule files at these places, or that the first of them that is bad is.
pub fn load_files<R: Keeper>(
    alloc: Global,
    keeper: &mut R,
    known: &KnownSigners,
    ats: &[FileAt],
) -> Result<Result<SignedFiles, PolicyFault>, KeeperFault>
    ensures read { IfOk result (λ found. (r : Repository) → R.content keeper.new ≡ Some r
        → found ≡ read_files r ats.now) }
    ensures named { IfOk result (λ found. IfOk found
        (λ files. map (λ signed. signed.file.name) files ≡ map (λ at. at.stem) ats.now)) }
    ensures same { Undisturbed R.Keeper keeper.old keeper.new }
    ensures cause { HasCause keeper_failed (R.faults keeper.old) (R.faults keeper.new) result }
    ensures reads { R.reads keeper.new ≤ R.reads keeper.old + length ats.now }
{
    let mut files = SignedFiles::new(alloc);
    'ats: for at in ats {
        match load_file(alloc, keeper, known, at)? {
            None => return Ok(Err(bad_file(alloc, at.stem.as_slice())?)),
            Some(file) => files.push(file)?,
        }
    }
    Ok(Ok(files))
}
