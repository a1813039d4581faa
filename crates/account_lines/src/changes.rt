//! What a policy changes.

ghost use Rattle.std.specs.Prelude.{◌≡◌, codes, IfOk, OnOk};
ghost use Rattle.serde_json.specs.View.{view};
ghost use Rattle.json_fields.specs.Writing.{Follows};
ghost use Rattle.account_lines.specs.Lines.{change_data, changed_members, difference_data};

use json_fields::{list_json, next_name, write_value};
use octets::{Memory, Octets};
use policy_changes::{Difference, PolicyChange};
use serde_json::{Map, Value, put};
use std::alloc::Global;

fn difference_json(alloc: Global, told: &Difference) -> Result<Value, Memory>
    ensures { IfOk result (λ value. view value ≡ difference_data told.now) }
{
    let added = list_json(alloc, told.added.as_slice())?;
    let removed = list_json(alloc, told.removed.as_slice())?;
    let mut fields = Map::new(alloc);
    put(&mut fields, alloc, "added", added)?;
    put(&mut fields, alloc, "removed", removed)?;
    Ok(Value::Object(fields))
}

fn change_json(alloc: Global, change: &PolicyChange) -> Result<Value, Memory>
    ensures { IfOk result (λ value. view value ≡ change_data change.now) }
{
    let keys = difference_json(alloc, &change.keys)?;
    let persons = difference_json(alloc, &change.persons)?;
    let rules = difference_json(alloc, &change.rules)?;
    let thresholds = difference_json(alloc, &change.thresholds)?;
    let mut fields = Map::new(alloc);
    put(&mut fields, alloc, "keys", keys)?;
    put(&mut fields, alloc, "persons", persons)?;
    put(&mut fields, alloc, "rules", rules)?;
    put(&mut fields, alloc, "thresholds", thresholds)?;
    Ok(Value::Object(fields))
}

/// Writes after other fields what a policy changes, where there is a change.
pub(crate) fn write_changed(text: &mut Octets, change: &Option<PolicyChange>) -> Result<(), Memory>
    ensures { OnOk result (Follows (changed_members change.now) text.old text.new) }
{
    match change {
        Some(change) => {
            let value = change_json(text.allocator(), change)?;
            next_name(text, "changed")?;
            write_value(text, &value)
        }
        None => Ok(()),
    }
}
