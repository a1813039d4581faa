//! The greatest leaf by which an entry of a log is signed.

ghost use Rattle.std.specs.Prelude.{◌≡◌, Some, IfOk};
ghost use Rattle.octets.specs.Causes.{HasCause};
ghost use Rattle.git_object.specs.Repository.{Repository};
ghost use Rattle.keeper_api.specs.Undisturbed.{Undisturbed};
ghost use Rattle.rsl_chain.specs.Logs.{log_failed};
ghost use Rattle.account_lines.specs.Used.{IsUsed, greater, leaf_in, names_key};

use crate::leaves::leaf_of;
use git_object::{KeyId, ObjectId};
use keeper_api::Keeper;
use lms_keys::verify_any;
use rsl_chain::{Entry, LogFault, read_entry};
use std::alloc::Global;

// Whether an entry names the key of an id.
fn names_key(signer: &Option<KeyId>, id: &KeyId) -> bool
    ensures { result ≡ names_key signer.now id.now }
{
    match signer {
        Some(signer) => signer.as_bytes() == id.as_bytes(),
        None => false,
    }
}

// The leaf by which a key signed an entry.
fn leaf_in(id: &KeyId, public: &[u8], entry: &Entry) -> Option<u64>
    ensures { result ≡ leaf_in id.now public.now entry.now }
{
    let signature = entry.signature.as_slice();
    if names_key(&entry.signer, id) && verify_any(public, entry.signed.as_slice(), signature) {
        leaf_of(public, signature)
    } else {
        None
    }
}

fn greater(most: Option<u64>, leaf: Option<u64>) -> Option<u64>
    ensures { result ≡ greater most leaf }
{
    let Some(greatest) = most else {
        return leaf;
    };
    let Some(leaf) = leaf else {
        return most;
    };
    if greatest < leaf { Some(leaf) } else { most }
}

/// The greatest leaf by which the key of this id and these bytes signed one of the entries at these ids, and its
/// signature is good; None where none is signed so. `Broken` names an id at which no entry stands. It reads each of
/// them once.
pub fn greatest_used<R: Keeper>(
    alloc: Global,
    keeper: &mut R,
    id: &KeyId,
    public: &[u8],
    ids: &[ObjectId],
) -> Result<Option<u64>, LogFault>
    ensures used { IfOk result (λ most. (r : Repository) → R.content keeper.new ≡ Some r
        → IsUsed r id.now public.now ids.now most) }
    ensures same { Undisturbed R.Keeper keeper.old keeper.new }
    ensures cause { HasCause log_failed (R.faults keeper.old) (R.faults keeper.new) result }
{
    let mut most = None;
    'ids: for place in ids {
        let entry = match read_entry(alloc, keeper, place) {
            Ok(entry) => entry,
            Err(fault) => return Err(fault),
        };
        most = greater(most, leaf_in(id, public, &entry));
    }
    Ok(most)
}
