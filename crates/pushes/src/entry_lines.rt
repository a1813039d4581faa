//! The line of the entry of a push.

ghost use Rattle.std.specs.Prelude.{◌≡◌, ◌≢◌, ◌++◌, ◌∷◌, ℕ, List, IfOk, IfSome, IfNone};
ghost use Rattle.git_object.specs.Ids.{IsId};
ghost use Rattle.rsl_chain.specs.declared.entries.Entry.{Entry};
ghost use Rattle.pushes.specs.Pushes.{AreRising, entry_in, entry_line, object_in};
ghost use Rattle.pushes.specs.Refusals.{HasEntry};

use crate::find_object;
use git_object::{Object, ObjectId};
use octets::Memory;
use rsl_chain::{Entry, object_entry};
use std::alloc::Global;
use text_reader::strip_front;

// The id of the entry's line that stands in front, and what follows it.
#[tactic(auto, unfolding(crate::specs::Pushes::entry_line))]
fn split_entry(text: &[u8]) -> Option<(ObjectId, &[u8])>
    ensures found { IfSome result (λ parts. text.now ≡ entry_line parts.0 ++ 10 ∷ parts.1.now) }
    ensures valid { IfSome result (λ parts. IsId parts.0) }
    ensures none { IfNone result ((id more : List ℕ) → IsId id → text.now ≢ entry_line id ++ 10 ∷ more) }
{
    let Some(words) = strip_front(text, b"entry ") else {
        return None;
    };
    let Some(found) = ObjectId::split_front(words) else {
        return None;
    };
    let Some(rest) = strip_front(found.1, b"\n") else {
        return None;
    };
    Some((found.0, rest))
}

// The entry that the object of an id is.
fn entry_in(alloc: Global, objects: &[Object], id: &ObjectId) -> Result<Option<Entry>, Memory>
    requires { AreRising objects.now }
    ensures { IfOk result (λ found. found ≡ entry_in objects.now id.now) }
{
    match find_object(objects, id) {
        Some(object) => Ok(object_entry(alloc, object)?),
        None => Ok(None),
    }
}

/// The entry whose line stands in front, where one of the objects is it, and what follows the line.
pub(crate) fn read_entry<'a>(
    alloc: Global,
    objects: &[Object],
    text: &'a [u8],
) -> Result<Option<(Entry, &'a [u8])>, Memory>
    requires { AreRising objects.now }
    ensures found { IfOk result (λ found. IfSome found (λ parts. HasEntry objects.now text.now parts.0 parts.1.now)) }
    ensures none { IfOk result (λ found. IfNone found ((entry : Entry) (more : List ℕ)
        → HasEntry objects.now text.now entry more → ⊥)) }
{
    let Some(parts) = split_entry(text) else {
        return Ok(None);
    };
    let Some(entry) = entry_in(alloc, objects, &parts.0)? else {
        return Ok(None);
    };
    Ok(Some((entry, parts.1)))
}
