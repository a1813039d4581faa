//! The lines in front of a commit and a tag (Git's commit and tag objects).

ghost use Rattle.std.specs.Prelude.{◌≡◌, ◌≢◌, ◌++◌, ◌∷◌, ℕ, List, IfSome, IfNone, OnOk};
ghost use Rattle.std.specs.List.{AllByRecursion, flat_map};
ghost use Rattle.git_object.specs.Ids.{IsId};
ghost use Rattle.git_object.specs.HeaderLines.{id_line, type_line};
ghost use Rattle.git_object.specs.declared.kinds.Kind.{Kind};

use crate::{Kind, ObjectId};
use octets::{Memory, Octets};
use text_reader::strip_front;

/// The id whose line with this word stands in front of the text, and what follows the line.
pub fn split_id_line<'a>(text: &'a [u8], word: &[u8]) -> Option<(ObjectId, &'a [u8])>
    ensures found { IfSome result (λ parts. text.now ≡ id_line word.now parts.0 ++ parts.1.now) }
    ensures valid { IfSome result (λ parts. IsId parts.0) }
    ensures none { IfNone result ((id more : List ℕ) → IsId id → text.now ≢ id_line word.now id ++ more) }
{
    let Some(after) = strip_front(text, word) else {
        return None;
    };
    let Some(found) = ObjectId::split_front(after) else {
        return None;
    };
    let Some(rest) = strip_front(found.1, b"\n") else {
        return None;
    };
    Some((found.0, rest))
}

/// The kind whose line stands in front of the text, and what follows the line.
pub fn split_type_line(text: &[u8]) -> Option<(Kind, &[u8])>
    ensures found { IfSome result (λ parts. text.now ≡ type_line parts.0 ++ parts.1.now) }
    ensures none { IfNone result ((kind : Kind) (more : List ℕ) → text.now ≢ type_line kind ++ more) }
{
    if let Some(rest) = strip_front(text, b"type blob\n") {
        return Some((Kind::Blob, rest));
    }
    if let Some(rest) = strip_front(text, b"type tree\n") {
        return Some((Kind::Tree, rest));
    }
    if let Some(rest) = strip_front(text, b"type commit\n") {
        return Some((Kind::Commit, rest));
    }
    if let Some(rest) = strip_front(text, b"type tag\n") {
        return Some((Kind::Tag, rest));
    }
    None
}

/// Adds the line of an id with this word at the end. After a refusal a front of the line may stand there.
pub fn append_id_line(text: &mut Octets, word: &[u8], id: &ObjectId) -> Result<(), Memory>
    ensures added { OnOk result (text.new ≡ text.old ++ id_line word.now id.now) }
    ensures valid { IsId id.now }
{
    let _ = id.as_bytes();
    text.append(word)?;
    text.append(&id.to_hex())?;
    text.append(b"\n")?;
    Ok(())
}

/// Adds the lines of ids with this word at the end. After a refusal a front of them may stand there.
pub fn append_id_lines(text: &mut Octets, word: &[u8], ids: &[ObjectId]) -> Result<(), Memory>
    ensures added { OnOk result (text.new ≡ text.old ++ flat_map (id_line word.now) ids.now) }
    ensures valid { OnOk result (AllByRecursion IsId ids.now) }
{
    'ids: for id in ids {
        append_id_line(text, word, id)?;
    }
    Ok(())
}

/// Adds the line of a kind at the end. After a refusal a front of the line may stand there.
pub fn append_type_line(text: &mut Octets, kind: Kind) -> Result<(), Memory>
    ensures { OnOk result (text.new ≡ text.old ++ type_line kind) }
{
    text.append(b"type ")?;
    text.append(kind.name())?;
    text.append(b"\n")?;
    Ok(())
}
