//! What mends a violation, by a judged log.

ghost use Rattle.std.specs.Prelude.{◌≡◌, ◌⊎◌, ◌+◌, ◌++◌, ◌∷◌, [], ◌<◌, ◌≤◌, ℕ, List, true, length, reverse, Some};
ghost use Rattle.std.specs.Prelude.{IfOk, IsTrue, unwrap_or, if◌then◌else◌};
ghost use Rattle.octets.specs.Causes.{HasCause};
ghost use Rattle.git_object.specs.Repository.{Repository};
ghost use Rattle.keeper_api.specs.Faults.{keeper_failed};
ghost use Rattle.keeper_api.specs.Undisturbed.{Undisturbed};
ghost use Rattle.rsl_chain.specs.Entries.{Taken};
ghost use Rattle.judging.specs.Logs.{above, skipped};
ghost use Rattle.entry_rules.specs.RealRules.{real_rules};
ghost use Rattle.entry_rules.specs.Signing.{tree_in};
ghost use Rattle.tree_paths.specs.Listings.{walk_visits};
ghost use Rattle.tree_paths.specs.Repositories.{readings_of};
ghost use Rattle.tree_paths.specs.States.{walk_of};
ghost use Rattle.judged_logs.specs.Mends.{back_to, from_on, mend_of, way_back};
ghost use Rattle.judged_logs.specs.Walking.{HasEnded, IsWalked, some_number};
ghost use Rattle.accounts.specs.Judging.{StandsFor};
ghost use Rattle.accounts.specs.MendReads.{mend_reads};

use crate::JudgedLog;
use git_object::{ObjectId, RefName};
use judged_logs::Mend;
use keeper_api::{Keeper, KeeperFault};
use octets::{Items, Memory};
use policy_reading::own_state;
use std::alloc::Global;
use tree_paths::State;

/// Where a way back over a reference's entries has come to: the number of an entry, or 0 at its front, the entry's
/// target, and the numbers that were found on it, the last of the log first.
#[derive(Drop)]
pub(crate) struct Way {
    pub at: u64,
    pub from: Option<ObjectId>,
    pub found: Items<u64>,
}

// Whether the entry of a number is skipped.
fn is_skipped(judged: &JudgedLog, number: u64) -> bool
    ensures { (log : List Taken) → StandsFor log judged.now → 0 < number
        → result ≡ skipped (real_rules judged.now.engine.rules.anchor) log number }
{
    judged.engine.skipped(number)
}

// Whether the way goes on: up to the last entry before a number that is not skipped.
fn goes_on(judged: &JudgedLog, at: u64, number: u64) -> bool
    ensures some { IsTrue result → 0 < at }
    ensures within { IsTrue result → at ≤ length judged.now.rows }
    ensures on { IsTrue result → (log : List Taken) → StandsFor log judged.now
        → (skipped (real_rules judged.now.engine.rules.anchor) log at ≡ true) ⊎ (number ≤ at) }
    ensures ended { (IsTrue result → ⊥) → (log : List Taken) → StandsFor log judged.now → at ≤ length log
        → HasEnded (real_rules judged.now.engine.rules.anchor) log number at }
{
    if at == 0 || judged.rows.len() < at as usize {
        return false;
    }
    number <= at || is_skipped(judged, at)
}

// A number, where it is below another one; else 0.
fn below(number: Option<u64>, at: u64) -> u64
    requires { 0 < at }
    ensures less { result < at }
    ensures same { unwrap_or number 0 < at → result ≡ unwrap_or number 0 }
{
    match number {
        Some(number) => { if number < at { number } else { 0 } }
        None => 0,
    }
}

// The numbers that were found, with that of an entry that is not skipped.
fn with_number(found: Items<u64>, number: u64, skipped: bool) -> Result<Items<u64>, Memory>
    ensures { IfOk result (λ more. more ≡ (if skipped then found else found ++ number ∷ [])) }
{
    let mut found = found;
    if !skipped {
        found.push(number)?;
    }
    Ok(found)
}

// Goes back over one entry.
fn go_back(judged: &JudgedLog, way: Way) -> Result<Way, Memory>
    requires some { 0 < way.at }
    requires within { way.at ≤ length judged.now.rows }
    ensures less { IfOk result (λ next. next.at < way.at) }
    ensures walked { IfOk result (λ next. (log : List Taken) (name : List ℕ) (b : ℕ) → StandsFor log judged.now
        → (skipped (real_rules judged.now.engine.rules.anchor) log way.at ≡ true) ⊎ (b ≤ way.at)
        → IsWalked (real_rules judged.now.engine.rules.anchor) log name b way.at way.from way.found
        → IsWalked (real_rules judged.now.engine.rules.anchor) log name b next.at next.from next.found) }
{
    let at = way.at;
    let row = &judged.rows.as_slice()[(at - 1) as usize];
    let found = with_number(way.found, at, is_skipped(judged, at))?;
    Ok(Way {
        at: below(row.prior, at),
        from: row.from,
        found,
    })
}

// The number of a reference's last entry that is not skipped, or 0.
fn last_of(judged: &JudgedLog, name: &RefName) -> u64
    ensures { (log : List Taken) → StandsFor log judged.now
        → result ≡ above (real_rules judged.now.engine.rules.anchor) log name.now }
{
    match judged.engine.entries().prior(name) {
        Some(number) => number,
        None => 0,
    }
}

// The way back over a reference's entries to the last one before a number that is not skipped.
fn way_back(alloc: Global, judged: &JudgedLog, name: &RefName, number: u64) -> Result<Way, Memory>
    ensures skips { IfOk result (λ way. (log : List Taken) → StandsFor log judged.now
        → reverse way.found ≡ from_on (real_rules judged.now.engine.rules.anchor) log name.now number) }
    ensures prior { IfOk result (λ way. (log : List Taken) → StandsFor log judged.now
        → some_number way.at ≡ way_back (real_rules judged.now.engine.rules.anchor) log name.now number) }
    ensures from { IfOk result (λ way. (log : List Taken) → StandsFor log judged.now
        → way.from ≡ back_to (real_rules judged.now.engine.rules.anchor) log name.now number) }
{
    let mut way = Way {
        at: last_of(judged, name),
        from: judged.engine.prior_target(name),
        found: Items::new(alloc),
    };
    'back: while goes_on(judged, way.at, number) {
        way = go_back(judged, way)?;
    }
    Ok(way)
}

// The tree of a target: zeros where there is nothing, and None where it is broken.
fn tree_of<R: Keeper>(
    alloc: Global,
    keeper: &mut R,
    target: &ObjectId,
) -> Result<Option<ObjectId>, KeeperFault>
    ensures tree { IfOk result (λ tree. (r : Repository) → R.content keeper.new ≡ Some r
        → tree ≡ tree_in (walk_of (readings_of r) target.now)) }
    ensures same { Undisturbed R.Keeper keeper.old keeper.new }
    ensures cause { HasCause keeper_failed (R.faults keeper.old) (R.faults keeper.new) result }
    ensures reads { (r : Repository) → R.content keeper.new ≡ Some r → R.reads keeper.new ≤ R.reads keeper.old + 9
        + walk_visits (readings_of r) target.now }
{
    match own_state(alloc, keeper, target)? {
        State::Absent => Ok(Some(ObjectId::zeros())),
        State::Whole {
            tree,
            paths: _,
            dirs: _,
        } => Ok(Some(tree)),
        State::Broken { id: _ } => Ok(None),
    }
}

fn number_of(at: u64) -> Option<u64>
    ensures { result ≡ some_number at }
{
    if at == 0 { None } else { Some(at) }
}

// What mends a violation with these numbers and from there.
fn mend_from(mut way: Way, tree: Option<ObjectId>) -> Mend
    ensures { result ≡ record { skip = reverse way.found; prior = some_number way.at; from = way.from; tree = tree } }
{
    way.found.reverse();
    Mend {
        prior: number_of(way.at),
        from: way.from,
        tree,
        skip: way.found,
    }
}

/// What mends a violation of a reference at a number, by a judged log and the trees of the store's repository. It reads
/// the state of the target that is gone back to: it makes at most nine reads beside one for each tree of its walk.
pub fn mend_of<R: Keeper>(
    alloc: Global,
    keeper: &mut R,
    judged: &JudgedLog,
    name: &RefName,
    number: u64,
) -> Result<Mend, KeeperFault>
    ensures mend { IfOk result (λ mend. (r : Repository) → R.content keeper.new ≡ Some r
        → (log : List Taken) → StandsFor log judged.now
        → mend ≡ mend_of (real_rules judged.now.engine.rules.anchor) log name.now r number) }
    ensures same { Undisturbed R.Keeper keeper.old keeper.new }
    ensures cause { HasCause keeper_failed (R.faults keeper.old) (R.faults keeper.new) result }
    ensures reads { (r : Repository) → R.content keeper.new ≡ Some r → (log : List Taken) → StandsFor log judged.now
        → R.reads keeper.new ≤ R.reads keeper.old + mend_reads judged.now.engine.rules.anchor log r name.now number }
{
    let way = way_back(alloc, judged, name, number)?;
    let target = way.from.unwrap_or(ObjectId::zeros());
    let tree = tree_of(alloc, keeper, &target)?;
    Ok(mend_from(way, tree))
}
