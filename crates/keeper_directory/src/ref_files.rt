//! The text of a reference's file: its id as a line.

ghost use Rattle.std.specs.Prelude.{◌≡◌, ◌++◌, IfOk, IfSome, IfNone, OnOk};
ghost use Rattle.git_object.specs.Ids.{IsId};
ghost use Rattle.keeper_directory.specs.Files.{IsNoRef, ref_text};

use crate::file_calls::read_front;
use crate::file_faults::FileFault;
use git_object::{Memory, ObjectId, RefName};
use std::alloc::Global;
use std::io::Read;
use std::str;
use text_reader::strip_front;

// The length of a reference's file.
const REF_FILE: usize = 65;

/// The id that the whole text of a reference's file says, or None where it is of another form: 64 lower-case
/// hexadecimal digits and a line feed (Git's loose references).
pub fn read_ref_text(text: &[u8]) -> Option<ObjectId>
    ensures found { IfSome result (λ id. text.now ≡ ref_text id) }
    ensures valid { IfSome result IsId }
    ensures none { IfNone result (IsNoRef text.now) }
{
    let Some(found) = ObjectId::split_front(text) else {
        return None;
    };
    let Some(rest) = strip_front(found.1, b"\n") else {
        return None;
    };
    if !rest.is_empty() {
        return None;
    }
    Some(found.0)
}

/// The id that a reference's file says, which a reader gives to its end; None where what it gives is no reference's
/// file.
pub fn read_id<F: Read>(alloc: Global, file: &mut F) -> Result<Option<ObjectId>, FileFault>
    ensures found { IfOk result (λ found. IfSome found
        (λ id. IsId id × IfSome (F.remaining file.old) (λ text. text ≡ ref_text id))) }
    ensures none { IfOk result (λ found. IfNone found (IfSome (F.remaining file.old) IsNoRef)) }
{
    let front = read_front(alloc, file, REF_FILE + 1, REF_FILE + 1)?;
    match read_ref_text(front.as_slice()) {
        Some(id) => Ok(Some(id)),
        None => Ok(None),
    }
}

/// A reference name as text.
pub fn name_text(name: &RefName) -> &str
    ensures { result.now ≡ name.now }
{
    match str::from_utf8(name.text()) {
        Ok(text) => text,
        Err(_) => unreachable!(),
    }
}

/// Adds the text of a reference's file at the end. After a refusal a front of it may stand there.
pub fn append_ref_text(text: &mut Vec<u8>, id: &ObjectId) -> Result<(), Memory>
    ensures { OnOk result (text.new.items ≡ text.old.items ++ ref_text id.now) }
{
    text.extend_from_slice(&id.to_hex())?;
    text.extend_from_slice(b"\n")?;
    Ok(())
}
