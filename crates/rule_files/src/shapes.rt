//! From a JSON value to a rule file as it is written.

ghost use Rattle.std.specs.Prelude.{◌≡◌, IfOk, IsErrOf, None, Some, codes};
ghost use Rattle.serde_json.specs.View.{items_view, view};
ghost use Rattle.json_fields.specs.Json.{each, each_at};
ghost use Rattle.rule_files.specs.Shapes.{file_of, rule_of};

use crate::raw::{RawRule, RawRuleFile};
use json_fields::{ShapeFault, bool_in, each_in, list_in, text_in};
use octets::{Items, Octets};
use root_metadata::{role_in, roster_in};
use serde_json::Value;
use std::alloc::Global;

// The rule that a value is.
fn rule_in(alloc: Global, schema: u32, value: &Value) -> Result<RawRule, ShapeFault>
    ensures ok { IfOk result (λ rule. rule_of schema (view value.now) ≡ Some rule) }
    ensures missing { IsErrOf result ShapeFault.Missing → rule_of schema (view value.now) ≡ None }
{
    let Some(name) = text_in(value, "name") else {
        return Err(ShapeFault::Missing);
    };
    let Some(terminating) = bool_in(value, "terminating") else {
        return Err(ShapeFault::Missing);
    };
    let paths: Items<Octets> = each_in(alloc, value, "paths")?;
    let role = role_in(alloc, schema, value)?;
    let name = Octets::from_slice(alloc, name.as_bytes())?;
    Ok(RawRule {
        name,
        paths,
        terminating,
        role,
    })
}

// The rules that the values are.
fn each_rule(alloc: Global, schema: u32, values: &[Value]) -> Result<Items<RawRule>, ShapeFault>
    ensures ok { IfOk result (λ rules. each (rule_of schema) (items_view values.now) ≡ Some rules) }
    ensures missing { IsErrOf result ShapeFault.Missing → each (rule_of schema) (items_view values.now) ≡ None }
{
    let mut rules = Items::new(alloc);
    'values: for value in values {
        let rule = rule_in(alloc, schema, value)?;
        rules.push(rule)?;
    }
    Ok(rules)
}

// The rules of a file.
fn rules_in(alloc: Global, schema: u32, value: &Value) -> Result<Items<RawRule>, ShapeFault>
    ensures ok { IfOk result (λ rules. each_at (rule_of schema) (codes "rules") (view value.now) ≡ Some rules) }
    ensures missing { IsErrOf result ShapeFault.Missing → each_at (rule_of schema) (codes "rules") (view value.now)
        ≡ None }
{
    match list_in(value, "rules") {
        Some(values) => each_rule(alloc, schema, values),
        None => Err(ShapeFault::Missing),
    }
}

/// The rule file that a value is.
pub(crate) fn raw_file_in(alloc: Global, value: &Value) -> Result<RawRuleFile, ShapeFault>
    ensures ok { IfOk result (λ file. file_of (view value.now) ≡ Some file) }
    ensures missing { IsErrOf result ShapeFault.Missing → file_of (view value.now) ≡ None }
{
    let roster = roster_in(alloc, "rules", value)?;
    let Some(name) = text_in(value, "name") else {
        return Err(ShapeFault::Missing);
    };
    let rules = rules_in(alloc, roster.schema, value)?;
    let name = Octets::from_slice(alloc, name.as_bytes())?;
    Ok(RawRuleFile {
        name,
        roster,
        rules,
    })
}
