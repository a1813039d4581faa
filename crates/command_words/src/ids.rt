//! Lists of ids: each in lower-case hexadecimal, with a comma between each two.

ghost use Rattle.std.specs.Prelude.{◌≡◌, ◌==◌, ◌↔◌, ℕ, List, map, IfOk, IfSome, IfNone, IsSome};
ghost use Rattle.std.specs.List.{All, slice_split};
ghost use Rattle.hex.specs.Hex.{encode_lower};
ghost use Rattle.text_reader.specs.Hexadecimal.{IsLowerHexadecimal};
ghost use Rattle.git_object.specs.Ids.{IsId};
ghost use Rattle.command_words.specs.Ids.{AreIds};

use git_object::{KeyId, ObjectId};
use octets::{Items, Memory};
use std::alloc::{AllocError, Global};

// An id that 64 lower-case hexadecimal digits write.
trait Written: Drop + Sized {
    ghost bytes: { Self → List ℕ };

    fn of_digits(text: &[u8]) -> Option<Self>
        ensures found { IsSome result ↔ IsLowerHexadecimal 32 text.now }
        ensures value { IfSome result (λ id. encode_lower (bytes id) ≡ text.now) }
        ensures valid { IfSome result (λ id. IsId (bytes id)) };
}

impl Written for ObjectId {
    ghost bytes = { λ id. id };

    fn of_digits(text: &[u8]) -> Option<ObjectId> {
        ObjectId::from_hex(text)
    }
}

impl Written for KeyId {
    ghost bytes = { λ id. id };

    fn of_digits(text: &[u8]) -> Option<KeyId> {
        KeyId::from_hex(text)
    }
}

// The texts between commas.
fn parts_of(alloc: Global, text: &str) -> Result<Vec<&str>, AllocError>
    ensures { IfOk result (λ parts. map (λ part. part.now) parts.items ≡ slice_split (λ b. b == 44) text.now) }
{
    text.split(',').collect(alloc)
}

// The ids that these texts write; None where one of them writes none.
fn ids_of<T: Written>(alloc: Global, parts: &[&str]) -> Result<Option<Items<T>>, Memory>
    ensures found { IfOk result (λ found. IfSome found
        (λ ids. map encode_lower (map T.bytes ids) ≡ map (λ part. part.now) parts.now)) }
    ensures valid { IfOk result (λ found. IfSome found (λ ids. All IsId (map T.bytes ids))) }
    ensures none { IfOk result (λ found. IfNone found (All (IsLowerHexadecimal 32) (map (λ part. part.now) parts.now)
        → ⊥)) }
{
    let mut ids = Items::new(alloc);
    'parts: for part in parts {
        let Some(id) = T::of_digits(part.as_bytes()) else {
            return Ok(None);
        };
        ids.push(id)?;
    }
    Ok(Some(ids))
}

// The ids that a text writes, one at least and `most` at most; None exactly where it writes no such list.
fn read_ids<T: Written>(alloc: Global, text: &str, most: usize) -> Result<Option<Items<T>>, Memory>
    ensures found { IfOk result (λ found. IfSome found (λ ids. AreIds most text.now (map T.bytes ids))) }
    ensures none { IfOk result (λ found. IfNone found ((ids : List (List ℕ)) → AreIds most text.now ids → ⊥)) }
{
    let Ok(parts) = parts_of(alloc, text) else {
        return Err(Memory);
    };
    if parts.len() > most {
        return Ok(None);
    }
    ids_of(alloc, parts.as_slice())
}

/// The ids of objects that a text writes, one at least and `most` at most, in the text's order; None exactly where it
/// writes no such list, want of memory aside.
pub fn read_object_ids(
    alloc: Global,
    text: &str,
    most: usize,
) -> Result<Option<Items<ObjectId>>, Memory>
    ensures found { IfOk result (λ found. IfSome found (AreIds most text.now)) }
    ensures none { IfOk result (λ found. IfNone found ((ids : List (List ℕ)) → AreIds most text.now ids → ⊥)) }
{
    read_ids::<ObjectId>(alloc, text, most)
}

/// The ids of keys that a text writes, one at least and `most` at most, in the text's order; None exactly where it
/// writes no such list, want of memory aside.
pub fn read_key_ids(alloc: Global, text: &str, most: usize) -> Result<Option<Items<KeyId>>, Memory>
    ensures found { IfOk result (λ found. IfSome found (AreIds most text.now)) }
    ensures none { IfOk result (λ found. IfNone found ((ids : List (List ℕ)) → AreIds most text.now ids → ⊥)) }
{
    read_ids::<KeyId>(alloc, text, most)
}
