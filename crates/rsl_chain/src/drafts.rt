//! Entries that are to be written.

ghost use Rattle.std.specs.Prelude.{◌≡◌, ◌++◌, ◌∷◌, ◌<◌, [], ℕ, List, length, map, OnOk, IfOk};
ghost use Rattle.std.specs.List.{AllByRecursion};
ghost use Rattle.base64.specs.GeneralPurpose.{IsBytes};
ghost use Rattle.hex.specs.Hex.{encode_lower};
ghost use Rattle.git_object.specs.Ids.{IsId};
ghost use Rattle.git_object.specs.Names.{IsRefName};
ghost use Rattle.rsl_chain.specs.Drafts;

use crate::EntryBody;
use crate::rows::{MESSAGE_BEGIN, MESSAGE_END, TREE_LINE};
use base64::engine::general_purpose::STANDARD;
use git_object::{KeyId, ObjectId, RefName};
use itoa::Buffer;
use octets::{Memory, Octets};
use std::alloc::Global;
use text_reader::split_line;

/// An entry that is to be signed.
#[derive(Drop)]
pub struct Draft {
    /// The entry before it; None exactly for number 1.
    pub parent: Option<ObjectId>,
    /// Who writes it, and when, as Git writes that; it holds no line feed.
    pub author: Octets,
    /// From 1 to 1,000,000.
    pub number: u64,
    pub body: EntryBody,
}

// Adds a line. After a refusal a front of it may stand there.
fn append_line(text: &mut Octets, word: &[u8], rest: &[u8]) -> Result<(), Memory>
    ensures { OnOk result (text.new ≡ text.old ++ Drafts.ended (word.now ++ rest.now)) }
{
    text.append(word)?;
    text.append(rest)?;
    text.append(b"\n")
}

fn append_id(text: &mut Octets, word: &[u8], id: &ObjectId) -> Result<(), Memory>
    ensures added { OnOk result (text.new ≡ text.old ++ Drafts.ended (word.now ++ encode_lower id.now)) }
    ensures valid { IsId id.now }
{
    let _ = id.as_bytes();
    append_line(text, word, &id.to_hex())
}

fn append_parent(text: &mut Octets, parent: &Option<ObjectId>) -> Result<(), Memory>
    ensures added { OnOk result (text.new ≡ text.old ++ Drafts.joined (Drafts.parent_lines parent.now)) }
    ensures valid { OnOk result (Drafts.IsParent parent.now) }
{
    match parent {
        Some(id) => append_id(text, b"parent ", id)?,
        None => {}
    }
    Ok(())
}

// The lines down to the committer's.
fn append_head(text: &mut Octets, parent: &Option<ObjectId>, author: &[u8]) -> Result<(), Memory>
    ensures added { OnOk result (text.new ≡ text.old ++ Drafts.joined (Drafts.head_lines parent.now author.now)) }
    ensures valid { OnOk result (Drafts.IsParent parent.now) }
{
    append_line(text, TREE_LINE, b"")?;
    append_parent(text, parent)?;
    append_line(text, b"author ", author)?;
    append_line(text, b"committer ", author)?;
    Ok(())
}

fn append_number(text: &mut Octets, number: u64) -> Result<(), Memory>
    ensures { OnOk result (text.new ≡ text.old ++ Drafts.ended (Drafts.number_line number)) }
{
    let mut digits = Buffer::new();
    append_line(text, b"number: ", digits.format(number).as_bytes())
}

fn append_reference(
    text: &mut Octets,
    name: &RefName,
    target: &ObjectId,
    number: u64,
) -> Result<(), Memory>
    ensures added { OnOk result (text.new ≡ text.old ++ Drafts.joined
        (Drafts.reference_lines name.now target.now number)) }
    ensures valid { OnOk result (IsRefName name.now × IsId target.now) }
{
    append_line(text, b"RSL Reference Entry", b"")?;
    append_line(text, b"", b"")?;
    append_line(text, b"ref: ", name.text())?;
    append_id(text, b"targetID: ", target)?;
    append_number(text, number)?;
    Ok(())
}

fn append_ids(text: &mut Octets, ids: &[ObjectId]) -> Result<(), Memory>
    ensures added { OnOk result (text.new ≡ text.old ++ Drafts.joined (map Drafts.entry_line ids.now)) }
    ensures valid { OnOk result (AllByRecursion IsId ids.now) }
{
    'ids: for id in ids {
        append_id(text, b"entryID: ", id)?;
    }
    Ok(())
}

fn append_skip(text: &mut Octets, skip: bool) -> Result<(), Memory>
    ensures { OnOk result (text.new ≡ text.old ++ Drafts.ended (Drafts.skip_line skip)) }
{
    if skip {
        return append_line(text, b"skip: true", b"");
    }
    append_line(text, b"skip: false", b"")
}

// A base64 text in lines of 64 characters.
fn append_pieces(text: &mut Octets, base64: &[u8]) -> Result<(), Memory>
    ensures { OnOk result (text.new ≡ text.old ++ Drafts.joined (Drafts.cut 64 base64.now)) }
{
    let mut rest = base64;
    'pieces: while rest.len() > 64 {
        let (line, more) = rest.split_at(64);
        append_line(text, line, b"")?;
        rest = more;
    }
    if rest.is_empty() {
        return Ok(());
    }
    append_line(text, rest, b"")?;
    Ok(())
}

fn append_message(text: &mut Octets, alloc: Global, message: &[u8]) -> Result<(), Memory>
    ensures added { OnOk result (text.new ≡ text.old ++ Drafts.joined (Drafts.message_lines message.now)) }
    ensures valid { IsBytes message.now }
{
    if message.is_empty() {
        return Ok(());
    }
    let Ok(base64) = STANDARD.encode(alloc, message) else {
        return Err(Memory);
    };
    append_line(text, MESSAGE_BEGIN, b"")?;
    append_pieces(text, base64.as_bytes())?;
    append_line(text, MESSAGE_END, b"")?;
    Ok(())
}

fn append_annotation(
    text: &mut Octets,
    alloc: Global,
    ids: &[ObjectId],
    skip: bool,
    message: &[u8],
    number: u64,
) -> Result<(), Memory>
    ensures added { OnOk result (text.new ≡ text.old ++ Drafts.joined
        (Drafts.annotation_lines ids.now skip message.now number)) }
    ensures valid { OnOk result (AllByRecursion IsId ids.now × IsBytes message.now) }
{
    append_line(text, b"RSL Annotation Entry", b"")?;
    append_line(text, b"", b"")?;
    append_ids(text, ids)?;
    append_skip(text, skip)?;
    append_number(text, number)?;
    append_message(text, alloc, message)?;
    Ok(())
}

fn append_body(
    text: &mut Octets,
    alloc: Global,
    body: &EntryBody,
    number: u64,
) -> Result<(), Memory>
    ensures added { OnOk result (text.new ≡ text.old ++ Drafts.joined (Drafts.body_lines body.now number)) }
    ensures valid { OnOk result (Drafts.IsValidBody body.now) }
{
    match body {
        EntryBody::Reference { name, target } => append_reference(text, name, target, number),
        EntryBody::Annotation { ids, skip, message } => append_annotation(
            text,
            alloc,
            ids.as_slice(),
            *skip,
            message.as_slice(),
            number,
        ),
    }
}

impl Draft {
    /// The text that is signed: the body of the entry's commit without the line of a signature. Inside the grammar it
    /// is read as an entry of the draft's parent, number and body.
    pub fn unsigned(&self, alloc: Global) -> Result<Octets, Memory>
        ensures text { IfOk result (λ text. text ≡ Drafts.unsigned_text self.now) }
        ensures valid { OnOk result (Drafts.IsValid self.now) }
        ensures reads_back { Drafts.IsDraft self.now → IfOk result (Drafts.IsReadBack self.now) }
    {
        let mut text = Octets::new(alloc);
        append_head(&mut text, &self.parent, self.author.as_slice())?;
        append_line(&mut text, b"", b"")?;
        append_body(&mut text, alloc, &self.body, self.number)?;
        Ok(text)
    }
}

fn append_signature(
    text: &mut Octets,
    alloc: Global,
    key: &KeyId,
    signature: &[u8],
) -> Result<(), Memory>
    ensures added { OnOk result (text.new ≡ text.old
        ++ Drafts.ended (Drafts.signature_line (record { signer = key.now; signature = signature.now }))) }
    ensures valid { IsId key.now × IsBytes signature.now }
{
    let _ = key.as_bytes();
    let Ok(base64) = STANDARD.encode(alloc, signature) else {
        return Err(Memory);
    };
    text.append(b"lmssig ")?;
    text.append(&key.to_hex())?;
    append_line(text, b" ", base64.as_bytes())
}

// Adds the lines in front of the first empty one, and gives the rest.
fn append_front<'a>(text: &mut Octets, unsigned: &'a [u8]) -> Result<&'a [u8], Memory>
    ensures { IfOk result (λ rest. (line : List ℕ) → text.old ++ Drafts.with_line_in line unsigned.now ≡ text.new
        ++ (Drafts.ended line ++ rest.now)) }
{
    let mut rest = unsigned;
    'lines: while let Some((line, more)) = split_line(rest) {
        if line.is_empty() {
            return Ok(rest);
        }
        append_line(text, line, b"")?;
        rest = more;
    }
    Ok(rest)
}

/// A draft's text with the line of its signature, which stands in front of the first empty line. The text of a draft
/// inside the grammar, with a signature that is not empty, is read as the same entry with that signer and signature.
pub fn join_signature(
    alloc: Global,
    unsigned: &[u8],
    key: &KeyId,
    signature: &[u8],
) -> Result<Octets, Memory>
    ensures text { IfOk result (λ text. text ≡ Drafts.signed_text_of unsigned.now
        (record { signer = key.now; signature = signature.now })) }
    ensures reads_back { IfOk result
        (Drafts.IsReadWith unsigned.now (record { signer = key.now; signature = signature.now })) }
{
    let mut text = Octets::new(alloc);
    let rest = append_front(&mut text, unsigned)?;
    append_signature(&mut text, alloc, key, signature)?;
    text.append(rest)?;
    Ok(text)
}
