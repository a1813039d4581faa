//! A draft that is signed.

ghost use Rattle.std.specs.Prelude.{◌≡◌, ℕ, List, length, IfOk, OnOk, Some};
ghost use Rattle.octets.specs.Causes.{HasCause};
ghost use Rattle.edge_io.specs.Moments.{LeavesOnly};
ghost use Rattle.leaf_journal.specs.KeyFile.{KeepsUsed};
ghost use Rattle.leaf_journal.specs.Signing.{IsLoaded};
ghost use Rattle.lms_keys.specs.HssSecret.{signature_len};
ghost use Rattle.rsl_chain.specs.Drafts.{IsDraft, IsValid};
ghost use Rattle.log_appending.specs.Entries.{draft_text};
ghost use Rattle.log_appending.specs.Signing.{SignEnds, disk_failed};

use crate::AppendFault;
use edge_io::Disk;
use leaf_journal::{OpenKey, SignFault, use_leaf};
use octets::{Memory, Octets};
use root_metadata::key_id;
use rsl_chain::{Draft, join_signature};
use std::alloc::Global;

// What is signed of a draft.
#[tactic(auto, unfolding(crate::specs::Entries::draft_text))]
fn text_of(alloc: Global, draft: &Draft) -> Result<Octets, Memory>
    ensures text { IfOk result (λ text. text ≡ draft_text draft.now) }
    ensures valid { OnOk result (IsValid draft.now) }
{
    draft.unsigned(alloc)
}

/// Signs a draft inside the grammar with the first unused leaf of a key file, and gives the body of the entry's commit.
pub fn sign_draft<D: Disk>(
    alloc: Global,
    key: OpenKey,
    draft: &Draft,
    disk: &mut D,
) -> Result<Octets, AppendFault>
    requires loaded { (file : List ℕ) → D.seen disk.old ≡ Some file → IsLoaded file key.signer }
    requires room { length key.room.items ≡ signature_len key.signer.secret }
    requires draft { IsDraft draft.now }
    ensures ends { SignEnds D.Disk key.signer.secret draft.now disk.old disk.new result }
    ensures any_moment { LeavesOnly D.moment D.left_since disk.old disk.new (KeepsUsed (D.may_leave disk.old)) }
    ensures disk { HasCause disk_failed (D.faults disk.old) (D.faults disk.new) result }
{
    let Ok(unsigned) = text_of(alloc, draft) else {
        return Err(AppendFault::Memory);
    };
    let signer = key_id(key.public_bytes());
    let signature = match use_leaf(key, disk, unsigned.as_slice()) {
        Ok(signature) => signature,
        Err(SignFault::Exhausted) => return Err(AppendFault::Exhausted),
        Err(SignFault::Disk) => return Err(AppendFault::DiskFailed),
    };
    match join_signature(alloc, unsigned.as_slice(), &signer, signature.as_slice()) {
        Ok(text) => Ok(text),
        Err(Memory) => Err(AppendFault::MemoryAfter),
    }
}
