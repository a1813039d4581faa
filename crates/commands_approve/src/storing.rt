//! Signing an approval, and keeping it among the attestations.

ghost use Rattle.std.specs.Prelude.{◌≡◌, ℕ, List, length, IfOk, Ok, Some};
ghost use Rattle.octets.specs.Causes.{HasCause};
ghost use Rattle.edge_io.specs.Moments.{LeavesOnly};
ghost use Rattle.git_object.specs.Repository.{Repository, value_of};
ghost use Rattle.hex.specs.Hex.{IsBytes};
ghost use Rattle.keeper_api.specs.Faults as store;
ghost use Rattle.leaf_journal.specs.KeyFile.{KeepsUsed};
ghost use Rattle.leaf_journal.specs.Signing.{IsLoaded};
ghost use Rattle.lms_keys.specs.HssSecret.{Secret, signature_len};
ghost use Rattle.object_making.specs.Texts.{author_of};
ghost use Rattle.git_object.specs.References.{attestations_name};
ghost use Rattle.approvals.specs.Sites.{IsSiteOf};
ghost use Rattle.commands_keys.specs.Seals.{id_text};
ghost use Rattle.log_appending.specs.Signing.{clock_failed, commit_failed, disk_failed};
ghost use Rattle.commands_approve.specs.Storing.{Attests, IsAt, KeepingEnds, SignEnds, StoreEnds};
ghost use Rattle.commands_approve.specs.Wanted.{IsPrepared};

use crate::ends::Ends;
use crate::preparing::Prepared;
use approvals::{Attested, attest_at};
use commands_keys::{sealed, signed_text};
use dsse_envelope::Signature;
use edge_io::{Clock, Disk, Failed};
use git_object::RefName;
use keeper_api::{Keeper, KeeperFault, commit_change};
use leaf_journal::{OpenKey, SignFault, use_leaf};
use log_appending::AppendFault;
use object_making::author_text;
use octets::{Memory, Octets};
use std::alloc::Global;

// Each is one of 256.
fn are_bytes(bytes: &[u8])
    ensures { IsBytes bytes.now }
{
    let _ = bytes;
}

// The change of an approval with a signature, at its site.
fn seal_change(
    alloc: Global,
    prepared: Prepared,
    sig: Octets,
    author: &Octets,
) -> Result<Attested, Memory>
    requires prepared { (name : List ℕ) × (secret : Secret) × IsPrepared secret name prepared }
    ensures attests { IfOk result (λ a. (name : List ℕ) (secret : Secret) (seconds : ℕ)
        → IsPrepared secret name prepared → length sig ≡ signature_len secret → author.now ≡ author_of seconds
        → Attests name prepared.ends prepared.envelope secret seconds sig a) }
    ensures at { IfOk result (λ a. (name : List ℕ) (secret : Secret) (seconds : ℕ) → IsPrepared secret name prepared
        → author.now ≡ author_of seconds
        → IsAt name prepared.ends prepared.envelope secret seconds prepared.site sig a) }
{
    are_bytes(sig.as_slice());
    let Prepared {
        ends: _,
        envelope,
        keyid,
        site,
    } = prepared;
    let envelope = sealed(alloc, envelope, Signature { keyid, sig })?;
    let attested = attest_at(alloc, &site, &envelope, author.as_slice())?;
    Ok(attested)
}

// Signs an approval with the first unused leaf of a key file, and gives the change that keeps it.
fn sign_prepared<D: Disk>(
    alloc: Global,
    key: OpenKey,
    name: &RefName,
    prepared: Prepared,
    seconds: u64,
    disk: &mut D,
) -> Result<Attested, AppendFault>
    requires loaded { (file : List ℕ) → D.seen disk.old ≡ Some file → IsLoaded file key.signer }
    requires room { length key.room.items ≡ signature_len key.signer.secret }
    requires prepared { IsPrepared key.signer.secret name.now prepared }
    ensures ends { SignEnds name.now prepared.ends prepared.envelope key.signer.secret seconds D.Disk disk.old disk.new
        prepared.site result }
    ensures any_moment { LeavesOnly D.moment D.left_since disk.old disk.new (KeepsUsed (D.may_leave disk.old)) }
    ensures disk { HasCause disk_failed (D.faults disk.old) (D.faults disk.new) result }
{
    let Ok(author) = author_text(alloc, seconds) else {
        return Err(AppendFault::Memory);
    };
    let Ok(text) = signed_text(alloc, &prepared.envelope) else {
        return Err(AppendFault::Memory);
    };
    let sig = match use_leaf(key, disk, text.as_slice()) {
        Ok(sig) => sig,
        Err(SignFault::Exhausted) => return Err(AppendFault::Exhausted),
        Err(SignFault::Disk) => return Err(AppendFault::DiskFailed),
    };
    match seal_change(alloc, prepared, sig, &author) {
        Ok(attested) => Ok(attested),
        Err(Memory) => Err(AppendFault::MemoryAfter),
    }
}

// Signs an approval at these seconds, and commits the change that keeps it.
fn keep_prepared<R: Keeper, D: Disk>(
    alloc: Global,
    key: OpenKey,
    name: &RefName,
    prepared: Prepared,
    seconds: u64,
    keeper: &mut R,
    disk: &mut D,
) -> Result<Ends, AppendFault>
    requires loaded { (file : List ℕ) → D.seen disk.old ≡ Some file → IsLoaded file key.signer }
    requires room { length key.room.items ≡ signature_len key.signer.secret }
    requires prepared { IsPrepared key.signer.secret name.now prepared }
    requires site { (r : Repository) → R.content keeper.old ≡ Some r
        → IsSiteOf r (value_of r attestations_name) name.now prepared.ends.from prepared.ends.tree prepared.site }
    ensures ends { KeepingEnds R.Keeper D.Disk name.now prepared.ends prepared.envelope key.signer.secret keeper.old
        keeper.new disk.old disk.new result seconds }
    ensures any_moment { LeavesOnly D.moment D.left_since disk.old disk.new (KeepsUsed (D.may_leave disk.old)) }
    ensures keeper { HasCause commit_failed (R.faults keeper.old) (R.faults keeper.new) result }
    ensures disk { HasCause disk_failed (D.faults disk.old) (D.faults disk.new) result }
    ensures reads { R.reads keeper.new ≡ R.reads keeper.old }
{
    let ends = prepared.ends;
    let attested = match sign_prepared(alloc, key, name, prepared, seconds, disk) {
        Ok(attested) => attested,
        Err(fault) => return Err(fault),
    };
    match commit_change(alloc, &attested.change, keeper) {
        Ok(()) => Ok(ends),
        Err(KeeperFault::Failed) => Err(AppendFault::CommitFailed),
        Err(KeeperFault::Memory) => Err(AppendFault::MemoryAfter),
    }
}

/// Asks the clock, signs an approval that was prepared with the first unused leaf of the key file, and commits the
/// change that keeps it among the attestations, whose reference then stands at its commit. Disk and store have to be as
/// they were when the approval was prepared.
///
/// `ClockFailed` comes before anything else, then `Exhausted` exactly where each leaf is used.
pub fn store_approval<R: Keeper, D: Disk, C: Clock>(
    alloc: Global,
    key: OpenKey,
    name: &RefName,
    prepared: Prepared,
    keeper: &mut R,
    disk: &mut D,
    clock: &mut C,
) -> Result<Ends, AppendFault>
    requires loaded { (file : List ℕ) → D.seen disk.old ≡ Some file → IsLoaded file key.signer }
    requires room { length key.room.items ≡ signature_len key.signer.secret }
    requires prepared { IsPrepared key.signer.secret name.now prepared }
    requires site { (r : Repository) → R.content keeper.old ≡ Some r
        → IsSiteOf r (value_of r attestations_name) name.now prepared.ends.from prepared.ends.tree prepared.site }
    ensures ends { StoreEnds R.Keeper D.Disk name.now prepared.ends prepared.envelope key.signer.secret keeper.old
        keeper.new disk.old disk.new (C.left clock.old) (C.left clock.new) result }
    ensures any_moment { LeavesOnly D.moment D.left_since disk.old disk.new (KeepsUsed (D.may_leave disk.old)) }
    ensures keeper { HasCause commit_failed (R.faults keeper.old) (R.faults keeper.new) result }
    ensures disk { HasCause disk_failed (D.faults disk.old) (D.faults disk.new) result }
    ensures clock { HasCause clock_failed (C.faults clock.old) (C.faults clock.new) result }
    ensures reads { R.reads keeper.new ≡ R.reads keeper.old }
{
    let seconds = match clock.seconds() {
        Ok(seconds) => seconds,
        Err(Failed) => return Err(AppendFault::ClockFailed),
    };
    match keep_prepared(alloc, key, name, prepared, seconds, keeper, disk) {
        Ok(ends) => Ok(ends),
        Err(fault) => Err(fault),
    }
}
