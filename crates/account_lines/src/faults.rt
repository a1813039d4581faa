//! The value of a fault, and its text.

ghost use Rattle.std.specs.Prelude.{◌≡◌, ◌++◌, codes, IfOk, OnOk};
ghost use Rattle.serde_json.specs.Data.{member, no_members, object, string};
ghost use Rattle.serde_json.specs.View.{members_view, view};
ghost use Rattle.serde_json.specs.Written.{compact_text};
ghost use Rattle.json_fields.specs.Values.{number_data, text_data};
ghost use Rattle.account_lines.specs.Lines.{fault_data};

use entry_rules::Fault;
use json_fields::{hex_json, number_json, text_json, word_json, write_value};
use octets::{Memory, Octets};
use serde_json::{Map, Value, put};
use std::alloc::Global;

// Of a rule that the reference reaches.
fn ref_rule_json(alloc: Global, rule: &Octets, got: usize, need: u32) -> Result<Value, Memory>
    ensures { IfOk result (λ value. view value ≡ object (member (codes "got") (number_data got)
        (member (codes "kind") (string (codes "ref-rule"))
        (member (codes "need") (number_data need) (member (codes "rule") (text_data rule.now) no_members))))) }
{
    let kind = word_json(alloc, "ref-rule")?;
    let rule = text_json(alloc, rule.as_slice())?;
    let mut fields = Map::new(alloc);
    put(&mut fields, alloc, "got", number_json(got as u64))?;
    put(&mut fields, alloc, "kind", kind)?;
    put(&mut fields, alloc, "need", number_json(u64::from(need)))?;
    put(&mut fields, alloc, "rule", rule)?;
    Ok(Value::Object(fields))
}

// Of a rule that a path reaches.
fn path_rule_json(
    alloc: Global,
    path: &Octets,
    rule: &Octets,
    got: usize,
    need: u32,
) -> Result<Value, Memory>
    ensures { IfOk result (λ value. view value ≡ object (member (codes "got") (number_data got)
        (member (codes "kind") (string (codes "path-rule"))
        (member (codes "need") (number_data need) (member (codes "path") (text_data path.now)
        (member (codes "rule") (text_data rule.now) no_members)))))) }
{
    let kind = word_json(alloc, "path-rule")?;
    let path = text_json(alloc, path.as_slice())?;
    let rule = text_json(alloc, rule.as_slice())?;
    let mut fields = Map::new(alloc);
    put(&mut fields, alloc, "got", number_json(got as u64))?;
    put(&mut fields, alloc, "kind", kind)?;
    put(&mut fields, alloc, "need", number_json(u64::from(need)))?;
    put(&mut fields, alloc, "path", path)?;
    put(&mut fields, alloc, "rule", rule)?;
    Ok(Value::Object(fields))
}

/// The value of a fault: an object of its kind and of the parts that a verdict's line has.
#[tactic(auto, unfolding(crate::specs::Lines::fault_data))]
pub(crate) fn fault_json(alloc: Global, fault: &Fault) -> Result<Value, Memory>
    ensures { IfOk result (λ value. view value ≡ fault_data fault.now) }
{
    let mut fields = Map::new(alloc);
    match fault {
        Fault::NoPolicy => {
            let kind = word_json(alloc, "no-policy")?;
            put(&mut fields, alloc, "kind", kind)?;
            Ok(Value::Object(fields))
        }
        Fault::Broken { id } => {
            let id = hex_json(alloc, id.as_bytes())?;
            let kind = word_json(alloc, "broken")?;
            put(&mut fields, alloc, "id", id)?;
            put(&mut fields, alloc, "kind", kind)?;
            Ok(Value::Object(fields))
        }
        Fault::RefRule { rule, got, need } => ref_rule_json(alloc, rule, *got, *need),
        Fault::PathRule {
            path,
            rule,
            got,
            need,
        } => path_rule_json(alloc, path, rule, *got, *need),
        Fault::NotEpoch { why } => {
            let kind = word_json(alloc, "not-epoch")?;
            let why = why.text(alloc)?;
            let why = text_json(alloc, why.as_slice())?;
            put(&mut fields, alloc, "kind", kind)?;
            put(&mut fields, alloc, "why", why)?;
            Ok(Value::Object(fields))
        }
    }
}

/// Writes a fault.
#[tactic(auto, using(crate::proofs::Floatless::fault_floatless))]
pub(crate) fn write_fault(text: &mut Octets, fault: &Fault) -> Result<(), Memory>
    ensures { OnOk result (text.new ≡ text.old ++ compact_text (fault_data fault.now)) }
{
    let value = fault_json(text.allocator(), fault)?;
    write_value(text, &value)
}
