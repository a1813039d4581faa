//! The line of the verdict on a reference, by a judged log.

ghost use Rattle.std.specs.Prelude.{◌≡◌, ◌≤◌, ◌+◌, List, Some, true, IfOk};
ghost use Rattle.octets.specs.Causes.{HasCause};
ghost use Rattle.git_object.specs.Repository.{Repository};
ghost use Rattle.keeper_api.specs.Faults.{keeper_failed};
ghost use Rattle.keeper_api.specs.Undisturbed.{Undisturbed};
ghost use Rattle.rsl_chain.specs.Entries.{Taken};
ghost use Rattle.judging.specs.declared.verdicts.Verdict.TheVariants as verdict;
ghost use Rattle.entry_rules.specs.RealRules.{real_rules};
ghost use Rattle.accounts.specs.Accounts.{IsToldVerdict, is_accepted, plain_line, told_line};
ghost use Rattle.accounts.specs.Judging.{IsJudgedLog, StandsFor};
ghost use Rattle.accounts.specs.MendReads.{ReadsToTell, mend_reads, told_reads};
ghost use Rattle.accounts.specs.Unrecorded.{is_unrecorded};

use crate::JudgedLog;
use crate::mending::mend_of;
use crate::unrecorded::is_unrecorded;
use account_lines::{unrecorded_line, verdict_line, violation_line};
use entry_rules::Fault;
use git_object::RefName;
use keeper_api::{Keeper, KeeperFault};
use octets::{Memory, Octets};
use std::alloc::Global;
use verify_ref::{RefVerdict, Verdict};

/// A verdict as it is told: its line with the line feed, and whether it is `accepted`.
#[derive(Drop)]
pub struct ToldVerdict {
    pub line: Octets,
    pub accepted: bool,
}

fn is_accepted(verdict: &RefVerdict) -> bool
    ensures { result ≡ is_accepted verdict.now }
{
    match verdict {
        Verdict::Accepted { count: _ } => true,
        Verdict::TipDiffers {
            kept: _,
            recorded: _,
        } => false,
        Verdict::Violation {
            number: _,
            fault: _,
        } => false,
    }
}

// The line of a verdict that is no violation, which says where the reference is unrecorded.
fn plain_line(
    alloc: Global,
    judged: &JudgedLog,
    name: &RefName,
    verdict: &RefVerdict,
) -> Result<Octets, Memory>
    ensures { IfOk result (λ line. (log : List Taken) → StandsFor log judged.now
        → line ≡ plain_line (is_unrecorded (real_rules judged.now.engine.rules.anchor) log name.now) name.now
        verdict.now) }
{
    if is_unrecorded(alloc, judged, name) {
        unrecorded_line(alloc, name, verdict)
    } else {
        verdict_line(alloc, name, verdict)
    }
}

// The line of a violation, with what mends it.
fn mended_line<R: Keeper>(
    alloc: Global,
    keeper: &mut R,
    judged: &JudgedLog,
    name: &RefName,
    number: u64,
    fault: &Fault,
) -> Result<Octets, KeeperFault>
    ensures line { IfOk result (λ line. (r : Repository) → R.content keeper.new ≡ Some r
        → (log : List Taken) → StandsFor log judged.now
        → line ≡ told_line (real_rules judged.now.engine.rules.anchor) log r name.now
        (verdict.Violation number fault.now)) }
    ensures same { Undisturbed R.Keeper keeper.old keeper.new }
    ensures cause { HasCause keeper_failed (R.faults keeper.old) (R.faults keeper.new) result }
    ensures reads { (r : Repository) → R.content keeper.new ≡ Some r → (log : List Taken) → StandsFor log judged.now
        → R.reads keeper.new ≤ R.reads keeper.old + mend_reads judged.now.engine.rules.anchor log r name.now number }
{
    let mend = mend_of(alloc, keeper, judged, name, number)?;
    Ok(violation_line(alloc, name, number, fault, &mend)?)
}

// The line of a verdict on a reference.
fn told_line<R: Keeper>(
    alloc: Global,
    keeper: &mut R,
    judged: &JudgedLog,
    name: &RefName,
    verdict: &RefVerdict,
) -> Result<Octets, KeeperFault>
    ensures line { IfOk result (λ line. (r : Repository) → R.content keeper.new ≡ Some r
        → (log : List Taken) → StandsFor log judged.now
        → line ≡ told_line (real_rules judged.now.engine.rules.anchor) log r name.now verdict.now) }
    ensures same { Undisturbed R.Keeper keeper.old keeper.new }
    ensures cause { HasCause keeper_failed (R.faults keeper.old) (R.faults keeper.new) result }
    ensures none { is_accepted verdict.now ≡ true → R.reads keeper.new ≡ R.reads keeper.old }
    ensures reads { (r : Repository) → R.content keeper.new ≡ Some r → (log : List Taken) → StandsFor log judged.now
        → R.reads keeper.new
        ≤ R.reads keeper.old + told_reads judged.now.engine.rules.anchor log r name.now verdict.now }
{
    match verdict {
        Verdict::Violation { number, fault } => {
            mended_line(alloc, keeper, judged, name, *number, fault)
        }
        Verdict::Accepted { count: _ } => Ok(plain_line(alloc, judged, name, verdict)?),
        Verdict::TipDiffers {
            kept: _,
            recorded: _,
        } => Ok(plain_line(alloc, judged, name, verdict)?),
    }
}

/// The line of JSON that tells the verdict on a reference by a judged log, for a violation what mends it, and of a
/// reference that the policy in force protects and of which the log does not speak that it is unrecorded: where the
/// store still holds the repository that was judged, the verdict of `verify_ref::verify`. It reads the reference's
/// value, and of a violation alone objects: those that `mend_of` reads.
pub fn tell_verdict<R: Keeper>(
    alloc: Global,
    keeper: &mut R,
    judged: &JudgedLog,
    name: &RefName,
) -> Result<ToldVerdict, KeeperFault>
    ensures told { IfOk result (λ told. (r : Repository) → R.content keeper.new ≡ Some r
        → IsJudgedLog judged.now.engine.rules.anchor r judged.now
        → IsToldVerdict judged.now.engine.rules.anchor r name.now told.line told.accepted) }
    ensures same { Undisturbed R.Keeper keeper.old keeper.new }
    ensures cause { HasCause keeper_failed (R.faults keeper.old) (R.faults keeper.new) result }
    ensures none { IfOk result (λ told. told.accepted ≡ true → R.reads keeper.new ≡ R.reads keeper.old) }
    ensures reads { IfOk result (λ told. (r : Repository) → R.content keeper.new ≡ Some r
        → (is : IsJudgedLog judged.now.engine.rules.anchor r judged.now)
        → ReadsToTell judged.now.engine.rules.anchor r is.log name.now (R.reads keeper.old) (R.reads keeper.new)) }
{
    let verdict = match judged.engine.verdict(alloc, keeper, name) {
        Ok(verdict) => verdict,
        Err(fault) => return Err(fault),
    };
    match told_line(alloc, keeper, judged, name, &verdict) {
        Ok(line) => Ok(ToldVerdict {
            line,
            accepted: is_accepted(&verdict),
        }),
        Err(fault) => Err(fault),
    }
}
