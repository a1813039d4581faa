//! Entries of the log, signed.

ghost use Rattle.std.specs.Prelude.{◌≡◌, ◌<◌, IfOk, OnOk};
ghost use Rattle.rsl_chain.specs.declared.drafts.Draft.{Draft};
ghost use Rattle.demo.specs.Journals.{uses_of, with_use};
ghost use Rattle.demo.specs.Histories.{draft_of, signed_entry};

use crate::Keyring;
use crate::metadata::id_of;
use git_object::{Kind, Object, ObjectId, RefName};
use object_making::author_text;
use octets::Memory;
use rsl_chain::{Draft, EntryBody, join_signature};
use std::alloc::Global;

/// A draft that records at these seconds where a reference stands.
pub fn draft_of(
    alloc: Global,
    number: u64,
    parent: Option<ObjectId>,
    seconds: u64,
    name: RefName,
    target: ObjectId,
) -> Result<Draft, Memory>
    ensures { IfOk result (λ draft. draft ≡ draft_of number parent seconds name target) }
{
    Ok(Draft {
        parent,
        author: author_text(alloc, seconds)?,
        number,
        body: EntryBody::Reference { name, target },
    })
}

/// The entry of a draft, signed by the key of a number with its first leaf that is not used.
pub fn signed_entry(
    alloc: Global,
    keys: &mut Keyring,
    key: u64,
    draft: &Draft,
) -> Result<Object, Memory>
    requires key { key < 3 }
    requires free { uses_of key keys.old < 1024 }
    ensures entry { IfOk result (λ object. object ≡ signed_entry key (uses_of key keys.old) draft.now) }
    ensures next { OnOk result (keys.new ≡ with_use key keys.old) }
{
    let text = draft.unsigned(alloc)?;
    let id = id_of(keys, key);
    let signature = keys.sign(alloc, key, text.as_slice())?;
    let body = join_signature(alloc, text.as_slice(), &id, signature.as_slice())?;
    let entry = Object::new(alloc, Kind::Commit, body)?;
    Ok(entry)
}
