//! The line of a verdict.

ghost use Rattle.std.specs.Prelude.{◌≡◌, ◌++◌, IfOk, OnOk, codes, decimal};
ghost use Rattle.judging.specs.declared.verdicts.Verdict.TheVariants as verdict;
ghost use Rattle.verify_ref.specs.Lines.{fault_words, line, rule_words};

use entry_rules::Fault;
use git_object::{ObjectId, RefName};
use itoa::Buffer;
use judging::Verdict;
use octets::{Memory, Octets, append_escaped};
use std::alloc::Global;

fn append_number(text: &mut Octets, number: u64) -> Result<(), Memory>
    ensures { OnOk result (text.new ≡ text.old ++ decimal number) }
{
    let mut digits = Buffer::new();
    text.append(digits.format(number).as_bytes())
}

// Adds a rule, how many of its persons signed, and how many must.
fn append_rule(text: &mut Octets, rule: &Octets, got: usize, need: u32) -> Result<(), Memory>
    ensures { OnOk result (text.new ≡ text.old ++ rule_words rule.now got need) }
{
    text.append(rule.as_slice())?;
    text.append(b" ")?;
    append_number(text, got as u64)?;
    text.append(b" of ")?;
    append_number(text, u64::from(need))?;
    Ok(())
}

#[tactic(auto, unfolding(crate::specs::Lines::fault_words))]
fn append_fault(alloc: Global, text: &mut Octets, fault: &Fault) -> Result<(), Memory>
    ensures { OnOk result (text.new ≡ text.old ++ fault_words fault.now) }
{
    match fault {
        Fault::NoPolicy => {
            text.append(b"no-policy")?;
            Ok(())
        }
        Fault::Broken { id } => {
            text.append(b"broken ")?;
            text.append(&id.to_hex())?;
            Ok(())
        }
        Fault::RefRule { rule, got, need } => {
            text.append(b"ref-rule ")?;
            append_rule(text, rule, *got, *need)?;
            Ok(())
        }
        Fault::PathRule {
            path,
            rule,
            got,
            need,
        } => {
            text.append(b"path-rule ")?;
            append_escaped(text, path.as_slice())?;
            text.append(b" ")?;
            append_rule(text, rule, *got, *need)?;
            Ok(())
        }
        Fault::NotEpoch { why } => {
            let why = why.text(alloc)?;
            text.append(b"not-epoch ")?;
            text.append(why.as_slice())?;
            Ok(())
        }
    }
}

#[tactic(auto, unfolding(crate::specs::Lines::line))]
fn accepted(alloc: Global, name: &RefName, count: u64) -> Result<Octets, Memory>
    ensures { IfOk result (λ text. text ≡ line name.now (verdict.Accepted count)) }
{
    let mut text = Octets::from_slice(alloc, b"accepted ")?;
    text.append(name.text())?;
    text.append(b" ")?;
    append_number(&mut text, count)?;
    text.append(b" entries\n")?;
    Ok(text)
}

#[tactic(auto, unfolding(crate::specs::Lines::line))]
fn tip_differs(
    alloc: Global,
    name: &RefName,
    kept: &ObjectId,
    recorded: &ObjectId,
) -> Result<Octets, Memory>
    ensures { IfOk result (λ text. text ≡ line name.now (verdict.TipDiffers kept.now recorded.now)) }
{
    let mut text = Octets::from_slice(alloc, b"tip-differs ")?;
    text.append(name.text())?;
    text.append(b" kept ")?;
    text.append(&kept.to_hex())?;
    text.append(b" recorded ")?;
    text.append(&recorded.to_hex())?;
    text.append(b"\n")?;
    Ok(text)
}

#[tactic(auto, unfolding(crate::specs::Lines::line))]
fn violation(alloc: Global, name: &RefName, number: u64, fault: &Fault) -> Result<Octets, Memory>
    ensures { IfOk result (λ text. text ≡ line name.now (verdict.Violation number fault.now)) }
{
    let mut text = Octets::from_slice(alloc, b"violation ")?;
    text.append(name.text())?;
    text.append(b" ")?;
    append_number(&mut text, number)?;
    text.append(b" ")?;
    append_fault(alloc, &mut text, fault)?;
    text.append(b"\n")?;
    Ok(text)
}

/// The line that tells the verdict on a reference, with its line feed.
pub fn text(alloc: Global, name: &RefName, verdict: &Verdict<Fault>) -> Result<Octets, Memory>
    ensures { IfOk result (λ text. text ≡ line name.now verdict.now) }
{
    match verdict {
        Verdict::Accepted { count } => accepted(alloc, name, *count),
        Verdict::TipDiffers { kept, recorded } => tip_differs(alloc, name, kept, recorded),
        Verdict::Violation { number, fault } => violation(alloc, name, *number, fault),
    }
}
