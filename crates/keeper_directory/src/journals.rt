//! What the mark of a change says: the text of a journal.

ghost use Rattle.std.specs.Prelude.{◌≡◌, ◌++◌, IfOk, IfSome, OnOk};
ghost use Rattle.std.specs.List.{flat_map};
ghost use Rattle.keeper_directory.specs.Journals.{journal_text, object_line, ref_line};

use crate::ref_plans::RefPlan;
use git_object::{Memory, ObjectId, Octets, RefFault, RefName};
use keeper_api::RefChange;
use octets::{Copied, Items};
use std::alloc::Global;
use text_reader::{same_bytes, split_line, strip_front};

/// What a change is to make: the objects that it keeps and that were not there, and the references that it sets or
/// takes away.
#[derive(Drop)]
pub struct Journal {
    pub objects: Items<ObjectId>,
    pub refs: Items<RefChange>,
}

// Adds the line of a reference that is set or goes at the end. After a refusal a front of it may stand there.
fn append_ref_line(text: &mut Octets, change: &RefChange) -> Result<(), Memory>
    ensures { OnOk result (text.new ≡ text.old ++ ref_line change.now) }
{
    match change.to {
        Some(id) => {
            text.append(b"set ")?;
            text.append(&id.to_hex())?;
            text.append(b" ")?;
        }
        None => text.append(b"drop ")?,
    }
    text.append(change.name.text())?;
    text.append(b"\n")?;
    Ok(())
}

// Adds the line of an object at the end. After a refusal a front of it may stand there.
fn append_object_line(text: &mut Octets, id: &ObjectId) -> Result<(), Memory>
    ensures { OnOk result (text.new ≡ text.old ++ object_line id.now) }
{
    text.append(b"object ")?;
    text.append(&id.to_hex())?;
    text.append(b"\n")?;
    Ok(())
}

// Adds the lines of objects at the end. After a refusal a front of them may stand there.
fn append_object_lines(text: &mut Octets, ids: &[ObjectId]) -> Result<(), Memory>
    ensures { OnOk result (text.new ≡ text.old ++ flat_map object_line ids.now) }
{
    'ids: for id in ids {
        append_object_line(text, id)?;
    }
    Ok(())
}

// Adds the lines of references at the end. After a refusal a front of them may stand there.
fn append_ref_lines(text: &mut Octets, changes: &[RefChange]) -> Result<(), Memory>
    ensures { OnOk result (text.new ≡ text.old ++ flat_map ref_line changes.now) }
{
    'changes: for change in changes {
        append_ref_line(text, change)?;
    }
    Ok(())
}

impl Journal {
    /// A journal of nothing.
    pub fn new(alloc: Global) -> Journal {
        Journal {
            objects: Items::new(alloc),
            refs: Items::new(alloc),
        }
    }

    /// The journal of a change of this plan, which keeps no object.
    pub fn of_refs(alloc: Global, plan: &RefPlan) -> Result<Journal, Memory> {
        let mut journal = Journal::new(alloc);
        for (name, to) in plan {
            let name = name.copied()?;
            journal.refs.push(RefChange { name, to: *to })?;
        }
        Ok(journal)
    }

    /// The text of this journal.
    pub fn to_text(&self, alloc: Global) -> Result<Octets, Memory>
        ensures { IfOk result (λ text. text ≡ journal_text self.now.objects self.now.refs) }
    {
        let mut text = Octets::new(alloc);
        text.append(b"gittuf-change 1\n")?;
        append_object_lines(&mut text, self.objects.as_slice())?;
        append_ref_lines(&mut text, self.refs.as_slice())?;
        text.append(b"whole\n")?;
        Ok(text)
    }

    fn note_ref(&mut self, alloc: Global, name: &[u8], to: Option<ObjectId>) -> Result<(), Memory> {
        match RefName::read(alloc, name) {
            Ok(name) => self.refs.push(RefChange { name, to }),
            Err(RefFault::BadRef) => Ok(()),
            Err(RefFault::Memory) => Err(Memory),
        }
    }

    // Notes what a line says, and passes over one of another form.
    fn note(&mut self, alloc: Global, line: &[u8]) -> Result<(), Memory> {
        if let Some(digits) = strip_front(line, b"object ") {
            return match ObjectId::from_hex(digits) {
                Some(id) => self.objects.push(id),
                None => Ok(()),
            };
        }
        if let Some(name) = strip_front(line, b"drop ") {
            return self.note_ref(alloc, name, None);
        }
        let Some(rest) = strip_front(line, b"set ") else {
            return Ok(());
        };
        let Some((id, rest)) = ObjectId::split_front(rest) else {
            return Ok(());
        };
        match strip_front(rest, b" ") {
            Some(name) => self.note_ref(alloc, name, Some(id)),
            None => Ok(()),
        }
    }

    // The journal of the lines in a text that are those of one.
    fn of_lines(alloc: Global, text: &[u8]) -> Result<Journal, Memory> {
        let mut journal = Journal::new(alloc);
        let mut rest = text;
        'lines: while let Some((line, more)) = split_line(rest) {
            journal.note(alloc, line)?;
            rest = more;
        }
        Ok(journal)
    }

    /// The journal whose text this is, or None where it is none, as one that is cut.
    pub fn read(alloc: Global, text: &[u8]) -> Result<Option<Journal>, Memory>
        ensures found { IfOk result (λ found. IfSome found (λ j. text.now ≡ journal_text j.objects j.refs)) }
    {
        let journal = Journal::of_lines(alloc, text)?;
        // Whatever was passed over is missed here.
        let again = journal.to_text(alloc)?;
        if same_bytes(again.as_slice(), text) {
            return Ok(Some(journal));
        }
        Ok(None)
    }
}
