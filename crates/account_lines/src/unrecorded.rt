//! The line of a verdict on a reference of which the log does not speak, and a rule does.

ghost use Rattle.std.specs.Prelude.{◌≡◌, IfOk};
ghost use Rattle.serde_json.specs.View.{view};
ghost use Rattle.account_lines.specs.Lines.{unrecorded_data, unrecorded_line};
ghost use Rattle.judging.specs.declared.verdicts.Verdict.TheVariants as verdict;

use crate::verdicts::violation;
use entry_rules::Fault;
use git_object::{ObjectId, RefName};
use json_fields::{hex_json, line, number_json, text_json, word_json};
use judging::Verdict;
use octets::{Memory, Octets};
use serde_json::{Map, Value, put};
use std::alloc::Global;

fn accepted(alloc: Global, name: &RefName, count: u64) -> Result<Value, Memory>
    ensures { IfOk result (λ value. view value ≡ unrecorded_data name.now (verdict.Accepted count)) }
{
    let name = text_json(alloc, name.text())?;
    let word = word_json(alloc, "accepted")?;
    let mut fields = Map::new(alloc);
    put(&mut fields, alloc, "entries", number_json(count))?;
    put(&mut fields, alloc, "reference", name)?;
    put(&mut fields, alloc, "unrecorded", Value::from(true))?;
    put(&mut fields, alloc, "verdict", word)?;
    Ok(Value::Object(fields))
}

fn tip_differs(
    alloc: Global,
    name: &RefName,
    kept: &ObjectId,
    recorded: &ObjectId,
) -> Result<Value, Memory>
    ensures { IfOk result (λ value. view value ≡ unrecorded_data name.now (verdict.TipDiffers kept.now recorded.now)) }
{
    let kept = hex_json(alloc, kept.as_bytes())?;
    let recorded = hex_json(alloc, recorded.as_bytes())?;
    let name = text_json(alloc, name.text())?;
    let word = word_json(alloc, "tip-differs")?;
    let mut fields = Map::new(alloc);
    put(&mut fields, alloc, "kept", kept)?;
    put(&mut fields, alloc, "recorded", recorded)?;
    put(&mut fields, alloc, "reference", name)?;
    put(&mut fields, alloc, "unrecorded", Value::from(true))?;
    put(&mut fields, alloc, "verdict", word)?;
    Ok(Value::Object(fields))
}

fn unrecorded_json(alloc: Global, name: &RefName, verdict: &Verdict<Fault>) -> Result<Value, Memory>
    ensures { IfOk result (λ value. view value ≡ unrecorded_data name.now verdict.now) }
{
    match verdict {
        Verdict::Accepted { count } => accepted(alloc, name, *count),
        Verdict::TipDiffers { kept, recorded } => tip_differs(alloc, name, kept, recorded),
        Verdict::Violation { number, fault } => violation(alloc, name, *number, fault),
    }
}

/// The line that tells the verdict on a reference of which the log does not speak, though a rule does, with its line
/// feed.
#[tactic(auto, unfolding(crate::specs::Lines::unrecorded_line))]
pub fn unrecorded_line(
    alloc: Global,
    name: &RefName,
    verdict: &Verdict<Fault>,
) -> Result<Octets, Memory>
    ensures { IfOk result (λ text. text ≡ unrecorded_line name.now verdict.now) }
{
    let value = unrecorded_json(alloc, name, verdict)?;
    line(alloc, &value)
}
