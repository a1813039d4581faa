//! What stands in the payload of an approval.

ghost use Rattle.std.specs.Prelude.{◌≡◌, IfOk};
ghost use Rattle.std.specs.Option.{option_map};
ghost use Rattle.serde_json.specs.View.{view};
ghost use Rattle.approvals.specs.Approvals.{is_text};
ghost use Rattle.known_signers.specs.ApprovalFields.{fields_in, fields_of, let_go};

use git_object::{ObjectId, RefName};
use json_fields::{ParseFault, parse, text_in};
use octets::{Memory, Octets};
use serde_json::Value;
use std::alloc::Global;

/// The texts of the four fields of an approval's payload, where each is there.
#[derive(Drop)]
pub struct Fields {
    pub kind: Option<Octets>,
    pub name: Option<Octets>,
    pub from: Option<Octets>,
    pub tree: Option<Octets>,
}

fn owned(alloc: Global, text: Option<&str>) -> Result<Option<Octets>, Memory>
    ensures { IfOk result (λ copy. copy ≡ option_map (λ text. text.now) text.entry) }
{
    match text {
        Some(text) => Ok(Some(Octets::from_slice(alloc, text.as_bytes())?)),
        None => Ok(None),
    }
}

fn fields_of(alloc: Global, value: &Value) -> Result<Fields, Memory>
    ensures { IfOk result (λ fields. fields ≡ fields_of (view value.now)) }
{
    let kind = owned(alloc, text_in(value, "type"))?;
    let name = owned(alloc, text_in(value, "targetRef"))?;
    let from = owned(alloc, text_in(value, "fromRevisionID"))?;
    let tree = owned(alloc, text_in(value, "targetTreeID"))?;
    Ok(Fields {
        kind,
        name,
        from,
        tree,
    })
}

/// The texts of the fields of a payload; None where it is no JSON.
pub fn fields_in(alloc: Global, payload: &[u8]) -> Result<Option<Fields>, Memory>
    ensures { IfOk result (λ found. found ≡ fields_in payload.now) }
{
    match parse(alloc, payload) {
        Ok(value) => Ok(Some(fields_of(alloc, &value)?)),
        Err(ParseFault::NotJson) => Ok(None),
        Err(ParseFault::Memory) => Err(Memory),
    }
}

fn is_text(text: &[u8], found: &Option<Octets>) -> bool
    ensures { result ≡ is_text text.now found.now }
{
    match found {
        Some(found) => found.as_slice() == text,
        None => false,
    }
}

fn copied(text: &Option<Octets>) -> Result<Option<Octets>, Memory>
    ensures { IfOk result (λ copy. copy ≡ text.now) }
{
    match text {
        Some(text) => Ok(Some(text.copy()?)),
        None => Ok(None),
    }
}

/// Equal fields.
pub fn copied_fields(fields: &Fields) -> Result<Fields, Memory>
    ensures { IfOk result (λ copy. copy ≡ fields.now) }
{
    let kind = copied(&fields.kind)?;
    let name = copied(&fields.name)?;
    let from = copied(&fields.from)?;
    let tree = copied(&fields.tree)?;
    Ok(Fields {
        kind,
        name,
        from,
        tree,
    })
}

/// Whether fields let a reference go from a target to a tree.
pub fn let_go(fields: &Option<Fields>, name: &RefName, from: &ObjectId, tree: &ObjectId) -> bool
    ensures { result ≡ let_go name.now from.now tree.now fields.now }
{
    let Some(fields) = fields else {
        return false;
    };
    is_text(b"approval", &fields.kind)
        && is_text(name.text(), &fields.name)
        && is_text(&from.to_hex(), &fields.from)
        && is_text(&tree.to_hex(), &fields.tree)
}
