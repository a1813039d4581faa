//! Writing a push.

ghost use Rattle.std.specs.Prelude.{◌≡◌, ◌++◌, ◌∷◌, [], IfOk, OnOk};
ghost use Rattle.std.specs.List.{flat_map};
ghost use Rattle.pushes.specs.Pushes.{IsPush, IsPushText, entry_line, own_record, push_text};

use crate::Push;
use clone_stream::object_line;
use git_object::{Object, ObjectId};
use octets::{Memory, Octets};
use std::alloc::Global;

// Adds the record of an object.
fn append_object(text: &mut Octets, object: &Object) -> Result<(), Memory>
    ensures { OnOk result (text.new ≡ text.old ++ own_record object.now) }
{
    let line = object_line(&object.id(), object);
    text.append(line.as_slice())?;
    text.append(object.body())?;
    text.append(b"\n")
}

// Adds the records of objects.
fn append_objects(text: &mut Octets, objects: &[Object]) -> Result<(), Memory>
    ensures { OnOk result (text.new ≡ text.old ++ flat_map own_record objects.now) }
{
    'objects: for object in objects {
        append_object(text, object)?;
    }
    Ok(())
}

// Adds the line of the entry.
#[tactic(auto, unfolding(crate::specs::Pushes::entry_line))]
fn append_entry(text: &mut Octets, id: &ObjectId) -> Result<(), Memory>
    ensures { OnOk result (text.new ≡ text.old ++ (entry_line id.now ++ 10 ∷ [])) }
{
    text.append(b"entry ")?;
    text.append(&id.to_hex())?;
    text.append(b"\n")
}

/// The text of a push that has one: `read_push` gives such a push.
pub fn write_push(alloc: Global, push: &Push) -> Result<Octets, Memory>
    requires { IsPush push.now }
    ensures { IfOk result (IsPushText push.now) }
{
    let mut text = Octets::from_slice(alloc, b"gittuf-push 1\n")?;
    append_objects(&mut text, push.objects.as_slice())?;
    append_entry(&mut text, &push.entry.id)?;
    text.append(b"end\n")?;
    Ok(text)
}
