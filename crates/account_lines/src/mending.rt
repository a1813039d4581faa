//! The line of a violation, with what mends it.

ghost use Rattle.std.specs.Prelude.{◌≡◌, IfOk};
ghost use Rattle.serde_json.specs.View.{view};
ghost use Rattle.account_lines.specs.Lines.{mend_data, violation_data, violation_line};

use crate::faults::fault_json;
use entry_rules::Fault;
use git_object::RefName;
use json_fields::{line, list_json, number_json, option_json, text_json, word_json};
use judged_logs::Mend;
use octets::{Memory, Octets};
use serde_json::{Map, Value, put};
use std::alloc::Global;

fn mend_json(alloc: Global, mend: &Mend) -> Result<Value, Memory>
    ensures { IfOk result (λ value. view value ≡ mend_data mend.now) }
{
    let from = option_json(alloc, mend.from.as_ref())?;
    let prior = option_json(alloc, mend.prior.as_ref())?;
    let skip = list_json(alloc, mend.skip.as_slice())?;
    let tree = option_json(alloc, mend.tree.as_ref())?;
    let mut fields = Map::new(alloc);
    put(&mut fields, alloc, "from", from)?;
    put(&mut fields, alloc, "prior", prior)?;
    put(&mut fields, alloc, "skip", skip)?;
    put(&mut fields, alloc, "tree", tree)?;
    Ok(Value::Object(fields))
}

fn violation_json(
    alloc: Global,
    name: &RefName,
    number: u64,
    fault: &Fault,
    mend: &Mend,
) -> Result<Value, Memory>
    ensures { IfOk result (λ value. view value ≡ violation_data name.now number fault.now mend.now) }
{
    let fault = fault_json(alloc, fault)?;
    let mend = mend_json(alloc, mend)?;
    let name = text_json(alloc, name.text())?;
    let word = word_json(alloc, "violation")?;
    let mut fields = Map::new(alloc);
    put(&mut fields, alloc, "fault", fault)?;
    put(&mut fields, alloc, "mends", mend)?;
    put(&mut fields, alloc, "number", number_json(number))?;
    put(&mut fields, alloc, "reference", name)?;
    put(&mut fields, alloc, "verdict", word)?;
    Ok(Value::Object(fields))
}

/// The line that tells a violation of a reference and what mends it, with its line feed.
#[tactic(auto, unfolding(crate::specs::Lines::violation_line))]
pub fn violation_line(
    alloc: Global,
    name: &RefName,
    number: u64,
    fault: &Fault,
    mend: &Mend,
) -> Result<Octets, Memory>
    ensures { IfOk result (λ text. text ≡ violation_line name.now number fault.now mend.now) }
{
    let value = violation_json(alloc, name, number, fault, mend)?;
    line(alloc, &value)
}
