//! The line of a verdict by global rules.

ghost use Rattle.std.specs.Prelude.{◌≡◌, ◌++◌, IfOk, OnOk, codes, decimal};
ghost use Rattle.global_rules.specs.declared.whys.GlobalWhy.TheVariants as why;
ghost use Rattle.global_verdicts.specs.declared.verdicts.GlobalVerdict.TheVariants as verdict;
ghost use Rattle.global_verdicts.specs.Lines.{global_line, why_words};

use crate::GlobalVerdict;
use git_object::RefName;
use global_rules::GlobalWhy;
use itoa::Buffer;
use octets::{Memory, Octets, append_escaped};
use std::alloc::Global;

fn append_number(text: &mut Octets, number: u64) -> Result<(), Memory>
    ensures { OnOk result (text.new ≡ text.old ++ decimal number) }
{
    let mut digits = Buffer::new();
    text.append(digits.format(number).as_bytes())
}

// Adds that too few signed for a name.
#[tactic(auto, unfolding(crate::specs::Lines::why_words))]
fn append_short(
    text: &mut Octets,
    rule: &Octets,
    name: &Octets,
    got: usize,
    need: u32,
) -> Result<(), Memory>
    ensures { OnOk result (text.new ≡ text.old ++ why_words (why.Threshold rule.now name.now got need)) }
{
    text.append(b"threshold ")?;
    text.append(rule.as_slice())?;
    text.append(b" ")?;
    append_escaped(text, name.as_slice())?;
    text.append(b" ")?;
    append_number(text, got as u64)?;
    text.append(b" of ")?;
    append_number(text, u64::from(need))?;
    Ok(())
}

#[tactic(auto, unfolding(crate::specs::Lines::why_words))]
fn append_why(text: &mut Octets, why: &GlobalWhy) -> Result<(), Memory>
    ensures { OnOk result (text.new ≡ text.old ++ why_words why.now) }
{
    match why {
        GlobalWhy::BadFile => {
            text.append(b"bad-file")?;
            Ok(())
        }
        GlobalWhy::Threshold {
            rule,
            name,
            got,
            need,
        } => append_short(text, rule, name, *got, *need),
        GlobalWhy::Rewound { rule } => {
            text.append(b"rewound ")?;
            text.append(rule.as_slice())?;
            Ok(())
        }
        GlobalWhy::TooFar { rule } => {
            text.append(b"too-far ")?;
            text.append(rule.as_slice())?;
            Ok(())
        }
    }
}

#[tactic(auto, unfolding(crate::specs::Lines::global_line))]
fn kept(alloc: Global, name: &RefName, count: u64) -> Result<Octets, Memory>
    ensures { IfOk result (λ text. text ≡ global_line name.now (verdict.Kept count)) }
{
    let mut text = Octets::from_slice(alloc, b"global-kept ")?;
    text.append(name.text())?;
    text.append(b" ")?;
    append_number(&mut text, count)?;
    text.append(b" entries\n")?;
    Ok(text)
}

#[tactic(auto, unfolding(crate::specs::Lines::global_line))]
fn violation(alloc: Global, name: &RefName, number: u64, why: &GlobalWhy) -> Result<Octets, Memory>
    ensures { IfOk result (λ text. text ≡ global_line name.now (verdict.Violation number why.now)) }
{
    let mut text = Octets::from_slice(alloc, b"global-violation ")?;
    text.append(name.text())?;
    text.append(b" ")?;
    append_number(&mut text, number)?;
    text.append(b" ")?;
    append_why(&mut text, why)?;
    text.append(b"\n")?;
    Ok(text)
}

/// The line that tells the verdict on a reference, with its line feed. The names for which too few signed are escaped.
pub fn text(alloc: Global, name: &RefName, verdict: &GlobalVerdict) -> Result<Octets, Memory>
    ensures { IfOk result (λ text. text ≡ global_line name.now verdict.now) }
{
    match verdict {
        GlobalVerdict::Violation { number, why } => violation(alloc, name, *number, why),
        GlobalVerdict::Kept { count } => kept(alloc, name, *count),
    }
}
