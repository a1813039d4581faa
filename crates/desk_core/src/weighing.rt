//! Whether a push's entry would be a violation.

ghost use Rattle.std.specs.Prelude.{◌≡◌, ℕ, Bool, List, None, Some, map, IfOk, IfSome, IfNone, OnOk};
ghost use Rattle.octets.specs.Causes.{HasCause};
ghost use Rattle.git_object.specs.Repository.{Repository};
ghost use Rattle.keeper_api.specs.Changes.{changed};
ghost use Rattle.keeper_api.specs.Faults.{keeper_failed};
ghost use Rattle.keeper_api.specs.Undisturbed.{Undisturbed};
ghost use Rattle.rsl_chain.specs.Entries.{Taken};
ghost use Rattle.entry_rules.specs.Learning.{AreKnownIn};
ghost use Rattle.verify_ref.specs.Following.{Follows};
ghost use Rattle.desk_core.specs.Laws.{taken_id};
ghost use Rattle.pushes.specs.Steps.{ids_of};
ghost use Rattle.pushes.specs.declared.rows.Row.{Row};
ghost use Rattle.desk_core.specs.Adding.{IsAllowed, change_beside, line_of};
ghost use Rattle.desk_core.specs.States.{HasFault, KnowsStore};

use crate::looking::look_at;
use keeper_api::{Keeper, KeeperFault};
use octets::{Memory, Octets};
use pushes::Push;
use rsl_chain::{Entry, EntryBody};
use std::alloc::Global;
use verify_ref::{Engine, EntryVerdict, Fault, Verdict, text};

// The line that tells a fault of an entry; that of an annotation has none.
fn line_of(alloc: Global, entry: &Entry, fault: Fault) -> Result<Option<Octets>, Memory>
    ensures { IfOk result (λ line. line ≡ line_of entry.now fault) }
{
    match &entry.body {
        EntryBody::Reference { name, target: _ } => {
            let verdict = Verdict::Violation {
                number: entry.number,
                fault,
            };
            let line = text(alloc, name, &verdict)?;
            Ok(Some(line))
        }
        EntryBody::Annotation {
            ids: _,
            skip: _,
            message: _,
        } => Ok(None),
    }
}

/// The line of the violation that a push's entry would be, or None where it would be none.
pub(crate) fn violation_of<R: Keeper>(
    alloc: Global,
    keeper: &mut R,
    engine: &mut Engine,
    push: &Push,
) -> Result<Option<Octets>, KeeperFault>
    requires known { KnowsStore R.Keeper keeper.old engine.old }
    ensures found { IfOk result (λ line. (r : Repository) (log : List Taken) (rows : List Row)
        → R.content keeper.new ≡ Some r → engine.old.rules.anchor ≡ None → map taken_id log ≡ ids_of rows
        → Follows log engine.old → IfSome line (HasFault log rows r push.now)) }
    ensures none { IfOk result (λ line. (r : Repository) (log : List Taken) (rows : List Row)
        → R.content keeper.new ≡ Some r → engine.old.rules.anchor ≡ None → map taken_id log ≡ ids_of rows
        → Follows log engine.old → IfNone line (IsAllowed log rows r push.now)) }
    ensures known { KnowsStore R.Keeper keeper.new engine.new }
    ensures grown { OnOk result ((r : Repository) (has : List ℕ → Bool) → R.content keeper.new ≡ Some r
        → AreKnownIn (changed (change_beside has push.now) r) engine.new.known) }
    ensures follows { (log : List Taken) → Follows log engine.old → Follows log engine.new }
    ensures rules { engine.new.rules ≡ engine.old.rules }
    ensures same { Undisturbed R.Keeper keeper.old keeper.new }
    ensures cause { HasCause keeper_failed (R.faults keeper.old) (R.faults keeper.new) result }
{
    let verdict = look_at(alloc, keeper, engine, push)?;
    match verdict {
        EntryVerdict::Refused(fault) => {
            let line = line_of(alloc, &push.entry, fault)?;
            Ok(line)
        }
        EntryVerdict::Authorised => Ok(None),
        EntryVerdict::Noted => Ok(None),
    }
}
