//! Whether an annotation would skip entries of a judged log.

ghost use Rattle.std.specs.Prelude.{◌≡◌, ◌&&◌, ◌≤◌, ◌+◌, List, Option, None, Some, false, IfErr, IfOk, ℕ};
ghost use Rattle.std.specs.Option.{option_copied};
ghost use Rattle.octets.specs.Causes.{HasCause};
ghost use Rattle.git_object.specs.Repository.{Repository};
ghost use Rattle.keeper_api.specs.Undisturbed.{Undisturbed};
ghost use Rattle.rsl_chain.specs.Entries.{Taken};
ghost use Rattle.rsl_chain.specs.Logs.{IsNamed, IsUnbroken, log_failed};
ghost use Rattle.entry_rules.specs.Meeting.{git_name, may_act};
ghost use Rattle.entry_rules.specs.RealRules.{real_rules};
ghost use Rattle.would_be.specs.Would.{is_key_of};
ghost use Rattle.accounts.specs.Judging.{IsJudgedLog, StandsFor};
ghost use Rattle.account_lines.specs.Lines.{skip_line};
ghost use Rattle.accounts.specs.Skips.{IsAt, IsToldSkip, name_in, skip_told, skips_told, would_skip};

use crate::JudgedLog;
use account_lines::skip_line;
use git_object::{KeyId, ObjectId, RefName};
use keeper_api::Keeper;
use octets::{Memory, Octets};
use policy_epochs::Policy;
use ref_patterns::Space;
use rsl_chain::{Entry, EntryBody, LogFault, read_entry};
use rule_delegations::Rules;
use std::alloc::Global;
use would_be::is_key_of;

/// The line that says whether an annotation would skip an entry, with its line feed, and whether it would.
#[derive(Drop)]
pub struct ToldSkip {
    pub line: Octets,
    pub skips: bool,
}

// Whether a key may act for a reference.
fn may_act(rules: &Rules, name: &[u8], key: &KeyId) -> bool
    ensures { result ≡ may_act rules.now (git_name name.now) key.now }
{
    let _files = rules.files();
    rules.lists(Space::Git, name, key)
}

// Whether a key is one of the policy and may act for a reference.
fn is_able(policy: &Policy, key: &KeyId, name: &RefName) -> bool
    ensures { result ≡ (is_key_of policy.now.keys key.now
        && may_act policy.now.rules (git_name name.now) key.now) }
{
    is_key_of(&policy.keys, key) && may_act(&policy.rules, name.text(), key)
}

// Whether an annotation that a key signs, under this policy, may skip what a body records.
#[tactic(auto, using(crate::proofs::Skipping::by_key))]
fn would_skip(policy: Option<&Policy>, key: &KeyId, body: &EntryBody) -> bool
    ensures { (anchor : Option (List (List ℕ)))
        → result ≡ would_skip (real_rules anchor) (option_copied policy.entry) key.now body.now }
{
    let Some(policy) = policy else {
        return false;
    };
    match body {
        EntryBody::Reference { name, target: _ } => is_able(policy, key, name),
        EntryBody::Annotation {
            ids: _,
            skip: _,
            message: _,
        } => false,
    }
}

fn name_in(body: &EntryBody) -> Option<&RefName>
    ensures { option_copied result ≡ name_in body.now }
{
    match body {
        EntryBody::Reference { name, target: _ } => Some(name),
        EntryBody::Annotation {
            ids: _,
            skip: _,
            message: _,
        } => None,
    }
}

// What is told of the entry of a number.
fn told_of(
    alloc: Global,
    judged: &JudgedLog,
    key: &KeyId,
    id: &ObjectId,
    number: u64,
    entry: &Entry,
) -> Result<ToldSkip, Memory>
    ensures line { IfOk result (λ told. (log : List Taken) (r : Repository) → StandsFor log judged.now
        → told.line ≡ skip_told judged.now.engine.rules.anchor log key.now id.now number
        (Some (record { entry = entry.now; repository = r }))) }
    ensures skips { IfOk result (λ told. (log : List Taken) (r : Repository) → StandsFor log judged.now
        → told.skips ≡ skips_told judged.now.engine.rules.anchor log key.now
        (Some (record { entry = entry.now; repository = r }))) }
{
    let skips = would_skip(judged.engine.policy(), key, &entry.body);
    let line = skip_line(alloc, id, Some(number), name_in(&entry.body), skips)?;
    Ok(ToldSkip { line, skips })
}

// What is told of an id that no entry has.
fn told_of_none(alloc: Global, id: &ObjectId) -> Result<ToldSkip, Memory>
    ensures line { IfOk result (λ told. told.line ≡ skip_line id.now None None false) }
    ensures skips { IfOk result (λ told. told.skips ≡ false) }
{
    let line = skip_line(alloc, id, None, None, false)?;
    Ok(ToldSkip { line, skips: false })
}

// Tells of the entry of an id, which has this number.
fn tell_there<R: Keeper>(
    alloc: Global,
    keeper: &mut R,
    judged: &JudgedLog,
    key: &KeyId,
    id: &ObjectId,
    number: u64,
) -> Result<ToldSkip, LogFault>
    ensures told { IfOk result (λ told. (r : Repository) → R.content keeper.new ≡ Some r
        → (is : IsJudgedLog judged.now.engine.rules.anchor r judged.now) → IsAt is.log id.now number
        → IsToldSkip judged.now.engine.rules.anchor r key.now id.now told.line told.skips) }
    ensures unbroken { IfErr result (λ fault. (r : Repository) → R.content keeper.new ≡ Some r
        → (is : IsJudgedLog judged.now.engine.rules.anchor r judged.now) → IsAt is.log id.now number
        → IsUnbroken fault) }
    ensures named { IfErr result (IsNamed id.now) }
    ensures same { Undisturbed R.Keeper keeper.old keeper.new }
    ensures cause { HasCause log_failed (R.faults keeper.old) (R.faults keeper.new) result }
    ensures reads { R.reads keeper.new ≤ R.reads keeper.old + 1 }
{
    let entry = match read_entry(alloc, keeper, id) {
        Ok(entry) => entry,
        Err(fault) => return Err(fault),
    };
    match told_of(alloc, judged, key, id, number, &entry) {
        Ok(told) => Ok(told),
        Err(_) => Err(LogFault::Memory),
    }
}

/// The line of JSON that says of the entry of an id whether an annotation that lists it would skip it, if this key
/// signed it now, behind a judged log and under the policy in force. It reads the entry, where the log has it. `Broken`
/// names it, and does not come where the store still holds the repository that was judged.
pub fn tell_skip<R: Keeper>(
    alloc: Global,
    keeper: &mut R,
    judged: &JudgedLog,
    key: &KeyId,
    id: &ObjectId,
) -> Result<ToldSkip, LogFault>
    ensures told { IfOk result (λ told. (r : Repository) → R.content keeper.new ≡ Some r
        → IsJudgedLog judged.now.engine.rules.anchor r judged.now
        → IsToldSkip judged.now.engine.rules.anchor r key.now id.now told.line told.skips) }
    ensures unbroken { IfErr result (λ fault. (r : Repository) → R.content keeper.new ≡ Some r
        → IsJudgedLog judged.now.engine.rules.anchor r judged.now → IsUnbroken fault) }
    ensures named { IfErr result (IsNamed id.now) }
    ensures same { Undisturbed R.Keeper keeper.old keeper.new }
    ensures cause { HasCause log_failed (R.faults keeper.old) (R.faults keeper.new) result }
    ensures reads { R.reads keeper.new ≤ R.reads keeper.old + 1 }
{
    match judged.engine.entries().place(id) {
        Some(number) => tell_there(alloc, keeper, judged, key, id, number),
        None => match told_of_none(alloc, id) {
            Ok(told) => Ok(told),
            Err(_) => Err(LogFault::Memory),
        },
    }
}
