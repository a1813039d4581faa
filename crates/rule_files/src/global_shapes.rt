//! From a JSON value to global rules as they are written.

ghost use Rattle.std.specs.Prelude.{◌≡◌, IfOk, IsErrOf, None, Some, codes};
ghost use Rattle.serde_json.specs.View.{view};
ghost use Rattle.json_fields.specs.Json.{text_at};
ghost use Rattle.root_metadata.specs.Shapes.{is_kind, is_text, threshold_of};
ghost use Rattle.rule_files.specs.GlobalShapes.{kind_of, rule_of, rules_of};

use crate::GlobalKind;
use crate::global_raw::RawGlobalRule;
use json_fields::{FromJson, ShapeFault, each_in, number_in, text_in};
use octets::{Items, Octets};
use serde_json::Value;
use std::alloc::Global;

// Whether a field is just this text.
fn is_text(value: &Value, key: &str, wanted: &str) -> bool
    ensures { result ≡ is_text wanted.now (text_at key.now (view value.now)) }
{
    match text_in(value, key) {
        Some(found) => found.as_bytes() == wanted.as_bytes(),
        None => false,
    }
}

// The threshold, of 32 bits.
fn threshold_in(value: &Value) -> Option<u32>
    ensures { result ≡ threshold_of (view value.now) }
{
    let Some(threshold) = number_in(value, "threshold") else {
        return None;
    };
    if threshold < 4294967296 {
        return Some(threshold as u32);
    }
    None
}

// What a rule asks.
fn kind_in(value: &Value) -> Option<GlobalKind>
    ensures { result ≡ kind_of (view value.now) }
{
    if is_text(value, "kind", "threshold") {
        return match threshold_in(value) {
            Some(threshold) => Some(GlobalKind::Threshold { threshold }),
            None => None,
        };
    }
    if is_text(value, "kind", "no-rewind") {
        return Some(GlobalKind::NoRewind);
    }
    None
}

impl FromJson for RawGlobalRule {
    ghost reads = { rule_of };

    fn from_json(alloc: Global, value: &Value) -> Result<RawGlobalRule, ShapeFault> {
        let Some(name) = text_in(value, "name") else {
            return Err(ShapeFault::Missing);
        };
        let Some(kind) = kind_in(value) else {
            return Err(ShapeFault::Missing);
        };
        let paths: Items<Octets> = each_in(alloc, value, "paths")?;
        let name = Octets::from_slice(alloc, name.as_bytes())?;
        Ok(RawGlobalRule { name, paths, kind })
    }
}

/// The global rules that a value is.
pub(crate) fn rules_in(alloc: Global, value: &Value) -> Result<Items<RawGlobalRule>, ShapeFault>
    ensures ok { IfOk result (λ rules. rules_of (view value.now) ≡ Some rules) }
    ensures missing { IsErrOf result ShapeFault.Missing → rules_of (view value.now) ≡ None }
{
    if !is_text(value, "type", "global") {
        return Err(ShapeFault::Missing);
    }
    each_in(alloc, value, "rules")
}
