//! Entries, copied.

ghost use Rattle.std.specs.Prelude.{◌≡◌, IfOk};

use octets::{Copied, Memory};
use rsl_chain::{Entry, EntryBody};

fn copied_body(body: &EntryBody) -> Result<EntryBody, Memory>
    ensures { IfOk result (λ copy. copy ≡ body.now) }
{
    match body {
        EntryBody::Reference { name, target } => {
            let name = name.copied()?;
            Ok(EntryBody::Reference {
                name,
                target: *target,
            })
        }
        EntryBody::Annotation { ids, skip, message } => {
            let ids = ids.copy()?;
            let message = message.copy()?;
            Ok(EntryBody::Annotation {
                ids,
                skip: *skip,
                message,
            })
        }
    }
}

/// An equal entry.
pub(crate) fn copied_entry(entry: &Entry) -> Result<Entry, Memory>
    ensures { IfOk result (λ copy. copy ≡ entry.now) }
{
    let body = copied_body(&entry.body)?;
    let signature = entry.signature.copy()?;
    let signed = entry.signed.copy()?;
    Ok(Entry {
        id: entry.id,
        number: entry.number,
        parent: entry.parent,
        body,
        signer: entry.signer,
        signature,
        signed,
    })
}
