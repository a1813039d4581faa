//! The lines of what would be found of an entry behind a judged log.

ghost use Rattle.std.specs.Prelude.{◌≡◌, List, Some, IfOk};
ghost use Rattle.octets.specs.Causes.{HasCause};
ghost use Rattle.git_object.specs.Repository.{Repository};
ghost use Rattle.keeper_api.specs.Faults.{keeper_failed};
ghost use Rattle.keeper_api.specs.Undisturbed.{Undisturbed};
ghost use Rattle.rsl_chain.specs.Entries.{Taken};
ghost use Rattle.recovery.specs.Lanes.{first_of};
ghost use Rattle.judging.specs.Verdicts.{answer_of};
ghost use Rattle.judging.specs.declared.verdicts.Verdict.TheVariants as verdict;
ghost use Rattle.would_be.specs.Laws.{stood_at};
ghost use Rattle.account_lines.specs.Lines.{entry_line, verdict_line};
ghost use Rattle.accounts.specs.Accounts.{IsToldWould, no_later, would_entry, would_row};
ghost use Rattle.accounts.specs.Judging.{IsJudgedLog, StandsFor};

use crate::JudgedLog;
use crate::changes::would_change;
use account_lines::{EntryRow, Later, entry_line, verdict_line};
use entry_rules::Fault;
use git_object::{ObjectId, RefName};
use judging::{EntryVerdict, Verdict};
use keeper_api::{Keeper, KeeperFault};
use octets::{Copied, Items, Memory, Octets};
use policy_changes::{PolicyChange, persons_of};
use root_metadata::KeyIds;
use rsl_chain::{Entry, EntryBody};
use std::alloc::Global;
use would_be::{Proposed, Stood, Would, would};

/// What would be found of an entry of a number, and the line that tells the entry so.
#[derive(Drop)]
pub struct ToldWould {
    pub number: u64,
    pub found: Would,
    pub line: Octets,
}

// The entry of a number that nobody signed yet.
fn would_entry(alloc: Global, number: u64, proposed: &Proposed) -> Result<Entry, Memory>
    ensures { IfOk result (λ entry. entry ≡ would_entry number proposed.now) }
{
    let name = proposed.name.copied()?;
    Ok(Entry {
        id: ObjectId::zeros(),
        number,
        parent: None,
        body: EntryBody::Reference {
            name,
            target: proposed.target,
        },
        signer: None,
        signature: Octets::new(alloc),
        signed: Octets::new(alloc),
    })
}

// What is answered of an entry that has these faults.
#[tactic(auto, using(crate::proofs::Would::first_is))]
fn answer_of(faults: &Items<Fault>) -> Result<EntryVerdict<Fault>, Memory>
    ensures { IfOk result (λ answer. answer ≡ answer_of (first_of faults.now)) }
{
    match faults.get(0) {
        Some(fault) => Ok(EntryVerdict::Refused(fault.copied()?)),
        None => Ok(EntryVerdict::Authorised),
    }
}

// The line of an entry of a number, by where its reference stands, what would be found of it and what its policy would
// change.
fn would_line(
    alloc: Global,
    judged: &JudgedLog,
    number: u64,
    proposed: &Proposed,
    found: &Would,
    changed: Option<PolicyChange>,
) -> Result<Octets, Memory>
    ensures { IfOk result (λ line. (log : List Taken) → StandsFor log judged.now
        → line ≡ entry_line (would_entry number proposed.now)
        (would_row judged.now.engine.rules.anchor log proposed.now found.now changed) no_later) }
{
    let entry = would_entry(alloc, number, proposed)?;
    let row = EntryRow {
        id: ObjectId::zeros(),
        epoch: judged.epoch,
        prior: judged.engine.entries().prior(&proposed.name),
        from: judged.engine.prior_target(&proposed.name),
        signed: false,
        signers: found.signers.copy()?,
        persons: persons_of(alloc, judged.engine.policy(), found.signers.as_slice())?,
        verdict: answer_of(&found.faults)?,
        changed,
    };
    let later = Later {
        skipper: None,
        rescuer: None,
    };
    entry_line(alloc, &entry, &row, &later)
}

// What stands before an entry of a reference behind a judged log.
fn stood_of(judged: &JudgedLog, name: &RefName) -> Stood
    ensures { (log : List Taken) → StandsFor log judged.now
        → result ≡ stood_at judged.now.engine.rules.anchor log name.now }
{
    let from = judged.engine.prior_target(name);
    Stood {
        from: from.unwrap_or(ObjectId::zeros()),
        attested: judged.attested,
    }
}

/// What would be found of an entry behind a judged log, if these keys signed it now, with the approvals that stand, and
/// the line of JSON that tells the entry so, as one that nobody signed yet: where the store still holds the repository
/// that was judged, what the rules give. The ids are those that the log was judged with, if it was with any.
pub fn tell_would<R: Keeper>(
    alloc: Global,
    keeper: &mut R,
    anchor: &Option<KeyIds>,
    judged: &JudgedLog,
    proposed: &Proposed,
) -> Result<ToldWould, KeeperFault>
    ensures told { IfOk result (λ told. (r : Repository) → R.content keeper.new ≡ Some r
        → IsJudgedLog anchor.now r judged.now
        → IsToldWould anchor.now r proposed.now told.found told.number told.line) }
    ensures same { Undisturbed R.Keeper keeper.old keeper.new }
    ensures cause { HasCause keeper_failed (R.faults keeper.old) (R.faults keeper.new) result }
{
    let stood = stood_of(judged, &proposed.name);
    let policy = judged.engine.policy();
    let found = match would(alloc, keeper, anchor, policy, &stood, proposed) {
        Ok(found) => found,
        Err(fault) => return Err(fault),
    };
    let changed = match would_change(alloc, keeper, policy, proposed) {
        Ok(changed) => changed,
        Err(fault) => return Err(fault),
    };
    let number = judged.rows.as_slice().len() as u64 + 1;
    match would_line(alloc, judged, number, proposed, &found, changed) {
        Ok(line) => Ok(ToldWould {
            number,
            found,
            line,
        }),
        Err(_) => Err(KeeperFault::Memory),
    }
}

/// The line of JSON that tells a fault of an entry of a number, as that of a verdict.
pub fn fault_line(
    alloc: Global,
    name: &RefName,
    number: u64,
    fault: &Fault,
) -> Result<Octets, Memory>
    ensures { IfOk result (λ text. text ≡ verdict_line name.now (verdict.Violation number fault.now)) }
{
    let verdict = Verdict::Violation {
        number,
        fault: fault.copied()?,
    };
    verdict_line(alloc, name, &verdict)
}
