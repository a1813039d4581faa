//! The parts of an entry, as they come line by line.

ghost use Rattle.std.specs.Prelude.{◌≡◌, true, false, OnOk};
ghost use Rattle.rsl_chain.specs.Reading;

use crate::EntryBody;
use crate::places::Part;
use git_object::{Ids, KeyId, ObjectId, RefName};
use octets::{Memory, Octets};
use std::alloc::Global;

/// What the lines so far say of the entry.
#[derive(Drop)]
pub struct Parts {
    pub signer: Option<KeyId>,
    pub signature: Octets,
    pub name: Option<RefName>,
    pub target: ObjectId,
    pub ids: Ids,
    pub skip: bool,
    pub message: Octets,
    pub signed: Octets,
}

impl Parts {
    /// Before the first line. It takes no memory.
    pub(crate) fn new(alloc: Global) -> Parts
        ensures { result ≡ Reading.no_parts }
    {
        Parts {
            signer: None,
            signature: Octets::new(alloc),
            name: None,
            target: ObjectId::zeros(),
            ids: Ids::new(alloc),
            skip: false,
            message: Octets::new(alloc),
            signed: Octets::new(alloc),
        }
    }
}

// Adds a line to what is signed, unless it is the signature's.
fn sign_line(signed: &mut Octets, part: &Part, line: &[u8]) -> Result<(), Memory>
    ensures { OnOk result (signed.new ≡ Reading.with_line part.now line.now signed.old) }
{
    if matches!(part, Part::Signature(_)) {
        return Ok(());
    }
    signed.append(line)?;
    signed.append(b"\n")
}

// Keeps what a line says.
fn keep_part(parts: &mut Parts, part: Part) -> Result<(), Memory>
    ensures { OnOk result (parts.new ≡ Reading.with_part part parts.old) }
{
    match part {
        Part::Nothing => {}
        Part::Parent(_) => {}
        Part::Signature(found) => {
            parts.signer = Some(found.signer);
            parts.signature = found.signature;
        }
        Part::Name(name) => parts.name = Some(name),
        Part::Target(id) => parts.target = id,
        Part::Id(id) => return parts.ids.push(id),
        Part::Skip(skip) => parts.skip = skip,
        Part::Number(_) => {}
        Part::Piece(bytes) => return parts.message.append(bytes.as_slice()),
    }
    Ok(())
}

/// Keeps a line and what it says, where the parts are kept at all.
pub(crate) fn put(parts: &mut Parts, keep: bool, part: Part, line: &[u8]) -> Result<(), Memory>
    ensures kept { keep ≡ true → OnOk result (parts.new ≡ Reading.put part line.now parts.old) }
    ensures spared { keep ≡ false → parts.new ≡ parts.old }
{
    if !keep {
        return Ok(());
    }
    sign_line(&mut parts.signed, &part, line)?;
    keep_part(parts, part)
}

/// The body of an entry with these parts.
pub(crate) fn body_of(
    name: Option<RefName>,
    target: ObjectId,
    ids: Ids,
    skip: bool,
    message: Octets,
) -> EntryBody
    ensures { result ≡ Reading.body_from name target ids skip message }
{
    match name {
        Some(name) => EntryBody::Reference { name, target },
        None => EntryBody::Annotation { ids, skip, message },
    }
}
