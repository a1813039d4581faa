//! How an entry of a reference is taken.

ghost use Rattle.std.specs.Prelude.{◌≡◌, ◌+◌, ◌≤◌, ℕ, List, Option, Some, None, true, IfOk, OnErr, OnOk, if◌then◌else◌};
ghost use Rattle.std.specs.Prelude.{nat_lt};
ghost use Rattle.std.specs.List.{list_any};
ghost use Rattle.octets.specs.Causes.{HasCause};
ghost use Rattle.git_object.specs.Repository.{Repository};
ghost use Rattle.rsl_chain.specs.Entries.{Taken, target_of};
ghost use Rattle.rsl_chain.specs.declared.entries.EntryBody.TheVariants.{Reference};
ghost use Rattle.recovery.specs.Lanes.{lane_of};
ghost use Rattle.judging.specs.Books.{place_of};
ghost use Rattle.judging.specs.Decisions.{decision_reads};
ghost use Rattle.judging.specs.Engines.{IsTaken, Stands, taken};
ghost use Rattle.judging.specs.Judges.{KeepsStore, judge_failed};
ghost use Rattle.judging.specs.Rules.{Rules};
ghost use Rattle.judging.specs.Standings.{standing_of};
ghost use Rattle.judging.specs.Verdicts.{answer_of, verdict_of};

use crate::deciding::decide;
use crate::engine::Engine;
use crate::keeping::keep_reference;
use crate::references::{finishes, place_before};
use crate::{EntryVerdict, Judge, JudgeFault};
use git_object::{ObjectId, RefName};
use octets::{Copied, Memory};
use rsl_chain::Entry;
use std::alloc::Global;

/// What is answered of an entry that has this fault, or none.
pub fn answer<F: Copied>(fault: &Option<F>) -> Result<EntryVerdict<F>, Memory>
    ensures { IfOk result (λ verdict. verdict ≡ answer_of fault.now) }
{
    match fault {
        Some(fault) => Ok(EntryVerdict::Refused(fault.copied()?)),
        None => Ok(EntryVerdict::Authorised),
    }
}

/// Takes an entry of a reference. After a refusal the engine stands for what it stood for.
pub fn take_reference<P: Drop, F: Copied, S, J: Judge<P, F, S>>(
    alloc: Global,
    engine: &mut Engine<P, F>,
    judge: &J,
    store: &mut S,
    entry: &Entry,
    name: &RefName,
    target: &ObjectId,
) -> Result<EntryVerdict<F>, JudgeFault>
    requires fresh { place_of engine.old.book entry.now.id ≡ None }
    requires trusts { (r : Repository) → J.content store.old ≡ Some r → J.trusts judge.now r }
    ensures taken { IfOk result (λ verdict. (r : Repository) (log : List Taken) → J.content store.new ≡ Some r
        → Stands (J.rules judge.now) log engine.old
        → entry.now.body ≡ Reference name.now target.now
        → IsTaken (J.rules judge.now) log (record { entry = entry.now; repository = r }) engine.new verdict) }
    ensures count { OnOk result (taken engine.new ≡ taken engine.old + 1) }
    ensures refused { OnErr result ((rules : Rules P F) (log : List Taken) → Stands rules log engine.old
        → Stands rules log engine.new) }
    ensures same { KeepsStore J.content J.tells_left J.left J.comes store.old store.new }
    ensures cause { HasCause judge_failed (J.faults store.old) (J.faults store.new) result }
    ensures reads { OnOk result ((r : Repository) → J.content store.new ≡ Some r
        → entry.now.body ≡ Reference name.now target.now
        → (J.rules judge.now).bounded r (standing_of engine.old.book name.now).from target.now ≡ true
        → J.reads store.new ≤ J.reads store.old
        + decision_reads (J.rules judge.now) r engine.old.policy entry.now name.now
        (standing_of engine.old.book name.now).from engine.old.attested
        + (if list_any (nat_lt (standing_of engine.old.book name.now).above)
        (lane_of engine.old.book.marks name.now).pending then (J.rules judge.now).tree_reads r
        (standing_of engine.old.book name.now).from target.now else 0)) }
{
    let stands = place_before(&engine.book, name);
    let found = decide(
        alloc,
        judge,
        store,
        engine.policy.as_ref(),
        entry,
        name,
        &stands.from,
        engine.attested.as_ref(),
    )?;
    let finishes = finishes(
        alloc,
        judge,
        store,
        &engine.book,
        &found,
        name,
        &stands,
        target,
    )?;
    let verdict = answer(&found.fault)?;
    keep_reference(
        engine,
        &entry.id,
        name,
        target,
        stands.above,
        finishes,
        found,
    )?;
    Ok(verdict)
}

/// What would be answered of an entry of a reference. Nothing changes.
pub fn look_reference<P: Drop, F: Copied, S, J: Judge<P, F, S>>(
    alloc: Global,
    engine: &Engine<P, F>,
    judge: &J,
    store: &mut S,
    entry: &Entry,
    name: &RefName,
) -> Result<EntryVerdict<F>, JudgeFault>
    requires trusts { (r : Repository) → J.content store.old ≡ Some r → J.trusts judge.now r }
    ensures answer { IfOk result (λ verdict. (r : Repository) (log : List Taken) (target : List ℕ)
        → J.content store.new ≡ Some r → Stands (J.rules judge.now) log engine.now
        → entry.now.body ≡ Reference name.now target
        → verdict ≡ verdict_of (J.rules judge.now) log (record { entry = entry.now; repository = r })) }
    ensures same { KeepsStore J.content J.tells_left J.left J.comes store.old store.new }
    ensures cause { HasCause judge_failed (J.faults store.old) (J.faults store.new) result }
    ensures reads { OnOk result ((r : Repository) → J.content store.new ≡ Some r
        → (J.rules judge.now).bounded r (standing_of engine.now.book name.now).from (target_of entry.now.body) ≡ true
        → J.reads store.new ≤ J.reads store.old + decision_reads (J.rules judge.now) r engine.now.policy entry.now
        name.now (standing_of engine.now.book name.now).from engine.now.attested) }
{
    let stands = place_before(&engine.book, name);
    let found = decide(
        alloc,
        judge,
        store,
        engine.policy.as_ref(),
        entry,
        name,
        &stands.from,
        engine.attested.as_ref(),
    )?;
    let verdict = answer(&found.fault)?;
    Ok(verdict)
}
