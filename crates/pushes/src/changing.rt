//! The change of a push that is taken.

ghost use Rattle.std.specs.Prelude.{◌≡◌, ◌++◌, IfOk, OnOk};
ghost use Rattle.std.specs.List.{filter};
ghost use Rattle.pushes.specs.Steps.{change_of, entry_refs, is_new, target_ref};

use crate::{Push, Row};
use git_object::{Object, ObjectId, Objects, RefName};
use keeper_api::{Change, RefChange, RefChanges};
use octets::{Copied, Memory};
use placed_items::Placed;
use rsl_chain::EntryBody;
use std::alloc::Global;

// The objects whose ids are not in the log.
fn new_objects(alloc: Global, rows: &Placed<Row>, objects: &[Object]) -> Result<Objects, Memory>
    ensures { IfOk result (λ kept. kept ≡ filter (is_new rows.now) objects.now) }
{
    let mut kept = Objects::new(alloc);
    'objects: for object in objects {
        if !rows.has(&object.id()) {
            kept.push(object.copied()?)?;
        }
    }
    Ok(kept)
}

fn target_ref(target: &ObjectId) -> Option<ObjectId>
    ensures { result ≡ target_ref target.now }
{
    if target.as_bytes() == ObjectId::zeros().as_bytes() {
        return None;
    }
    Some(*target)
}

// Adds the reference of an entry.
fn add_refs(refs: &mut RefChanges, body: &EntryBody) -> Result<(), Memory>
    ensures { OnOk result (refs.new ≡ refs.old ++ entry_refs body.now) }
{
    match body {
        EntryBody::Reference { name, target } => refs.push(RefChange {
            name: name.copied()?,
            to: target_ref(target),
        })?,
        EntryBody::Annotation {
            ids: _,
            skip: _,
            message: _,
        } => {}
    }
    Ok(())
}

/// The change of a push that is taken: the pushed objects whose ids are not in the log, the entry's reference at its
/// target, and then the log's at the entry.
pub fn change_of(alloc: Global, rows: &Placed<Row>, push: &Push) -> Result<Change, Memory>
    ensures { IfOk result (λ change. change ≡ change_of rows.now push.now) }
{
    let objects = new_objects(alloc, rows, push.objects.as_slice())?;
    let mut refs = RefChanges::new(alloc);
    add_refs(&mut refs, &push.entry.body)?;
    refs.push(RefChange {
        name: RefName::of_log(alloc)?,
        to: Some(push.entry.id),
    })?;
    Ok(Change { objects, refs })
}
