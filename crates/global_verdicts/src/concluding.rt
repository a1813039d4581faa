//! The verdict by what is known of each entry.

ghost use Rattle.std.specs.Prelude.{◌≡◌, ◌<◌, ◌+◌, List, length, IfOk, Some};
ghost use Rattle.std.specs.List.{filter, slice_get};
ghost use Rattle.rsl_chain.specs.Entries.{Taken};
ghost use Rattle.entry_rules.specs.RealRules.{real_rules};
ghost use Rattle.global_verdicts.specs.Passing.{StandsFor};
ghost use Rattle.global_verdicts.specs.Verdicts.{IsGlobalVerdict, IsWhyAt};

use crate::GlobalVerdict;
use crate::pass::Pass;
use crate::rows::Row;
use global_rules::GlobalWhy;
use octets::{Copied, Memory};

// What is known of the entry at a place.
fn row_at(pass: &Pass, at: usize) -> &Row
    requires { at < length pass.now.rows }
    ensures { slice_get pass.now.rows at ≡ Some result.now }
{
    &pass.rows.as_slice()[at]
}

fn copied_why(why: &Option<GlobalWhy>) -> Result<Option<GlobalWhy>, Memory>
    ensures { IfOk result (λ copy. copy ≡ why.now) }
{
    match why {
        None => Ok(None),
        Some(why) => Ok(Some(why.copied()?)),
    }
}

// Why the entry at a place breaks global rules, where it is the reference's and is not skipped.
fn why_at(pass: &Pass, at: usize) -> Result<Option<GlobalWhy>, Memory>
    requires { at < length pass.now.rows }
    ensures { IfOk result (λ why. (log : List Taken) → StandsFor log pass.now
        → IsWhyAt (real_rules pass.now.engine.rules.anchor) log pass.now.name (at + 1) why) }
{
    let _len = pass.rows.len();
    if pass.engine.skipped(at as u64 + 1) {
        return Ok(None);
    }
    copied_why(&row_at(pass, at).why)
}

// How many entries are the reference's.
fn count_own(rows: &[Row]) -> usize
    ensures { result ≡ length (filter (λ row. row.own) rows.now) }
{
    rows.iter().filter(|row| row.own).count()
}

/// The verdict by a log that was judged.
pub(crate) fn conclude(pass: &Pass) -> Result<GlobalVerdict, Memory>
    ensures { IfOk result (λ verdict. (log : List Taken) → StandsFor log pass.now
        → IsGlobalVerdict (real_rules pass.now.engine.rules.anchor) log pass.now.name verdict) }
{
    'places: for at in 0..pass.rows.len() {
        if let Some(why) = why_at(pass, at)? {
            let number = at as u64 + 1;
            return Ok(GlobalVerdict::Violation { number, why });
        }
    }
    let count = count_own(pass.rows.as_slice()) as u64;
    Ok(GlobalVerdict::Kept { count })
}
