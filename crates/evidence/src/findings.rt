//! What a dossier shows.

ghost use Rattle.std.specs.Prelude.{◌≡◌, ◌==◌, ◌&&◌, not, if◌then◌else◌, Some, None, IfOk, IfSome, IsTrue};
ghost use Rattle.lms_keys.specs.SigOk.{SigOk};
ghost use Rattle.evidence.specs.Finding.{finding_of, fork_of, is_named, is_signed_by, signed_in};
ghost use Rattle.evidence.specs.Uses.{reuse_of, uses};

use crate::dossiers::Dossier;
use crate::uses::{first_reuse, signed_keys};
use git_object::KeyId;
use lms_keys::verify_any;
use octets::Memory;
use root_metadata::key_id;
use rsl_chain::{Entry, EntryFault, read_body};
use std::alloc::Global;

/// What a dossier shows: two entries of one number, and a leaf that signed two messages.
#[derive(Clone, Copy, Debug, PartialEq, Eq, Drop)]
pub struct Finding {
    /// The number of both entries, where these are not one.
    pub fork: Option<u64>,
    /// The number of the leaf in its key's tree.
    pub reuse: Option<u32>,
}

// Whether the entry names the key as its signer's.
fn is_named(signer: Option<KeyId>, public: &[u8]) -> bool
    ensures { result ≡ is_named signer public.now }
{
    match signer {
        Some(id) => id == key_id(public),
        None => false,
    }
}

// Whether the key signed the entry.
fn is_signed(public: &[u8], entry: &Entry) -> bool
    ensures { result ≡ is_signed_by public.now entry.now }
{
    is_named(entry.signer, public)
        && verify_any(public, entry.signed.as_slice(), entry.signature.as_slice())
}

// The entry that a body reads as, where the key signed it.
fn signed_entry(alloc: Global, public: &[u8], body: &[u8]) -> Result<Option<Entry>, Memory>
    ensures entry { IfOk result (λ found. found ≡ signed_in public.now body.now) }
    ensures good { IfOk result (λ found. IfSome found (λ entry. SigOk public.now entry.signed entry.signature)) }
{
    match read_body(alloc, body) {
        Ok(entry) => {
            if is_signed(public, &entry) {
                Ok(Some(entry))
            } else {
                Ok(None)
            }
        }
        Err(EntryFault::BadEntry { line: _ }) => Ok(None),
        Err(EntryFault::Memory) => Err(Memory),
    }
}

// The number of both, where they are not one entry.
fn fork_of(left: &Entry, right: &Entry) -> Option<u64>
    ensures { result ≡ fork_of left.now right.now }
{
    if left.number == right.number && left.id != right.id {
        Some(left.number)
    } else {
        None
    }
}

// The first leaf of the left signature that the right one uses again.
fn reuse_of(public: &[u8], left: &Entry, right: &Entry) -> Option<u32>
    requires left { SigOk public.now left.now.signed left.now.signature }
    requires right { SigOk public.now right.now.signed right.now.signature }
    ensures { result ≡ reuse_of (uses public.now left.now.signed left.now.signature)
        (uses public.now right.now.signed right.now.signature) }
{
    first_reuse(
        signed_keys(public, left.signed.as_slice(), left.signature.as_slice()),
        signed_keys(public, right.signed.as_slice(), right.signature.as_slice()),
    )
}

/// What the dossier shows. A side is signed where its body reads as an entry that names the key, by its id, as its
/// signer's, and whose signature is good by the key. Where both sides are signed, `fork` is their number if they have
/// one number and different ids, and `reuse` is the first leaf of the left signature, from the top level down, that
/// the right one uses for another message. Where a side is not signed nothing is found.
pub fn find(alloc: Global, dossier: &Dossier) -> Result<Finding, Memory>
    ensures { IfOk result (λ finding. finding ≡ finding_of dossier.now) }
{
    let nothing = Finding {
        fork: None,
        reuse: None,
    };
    let public = dossier.public.as_slice();
    let Some(left) = signed_entry(alloc, public, dossier.left.as_slice())? else {
        return Ok(nothing);
    };
    let Some(right) = signed_entry(alloc, public, dossier.right.as_slice())? else {
        return Ok(nothing);
    };
    Ok(Finding {
        fork: fork_of(&left, &right),
        reuse: reuse_of(public, &left, &right),
    })
}
