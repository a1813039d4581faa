//! A list of reference changes as names to set and names to take away.

ghost use Rattle.std.specs.Prelude.{◌++◌, ◌∷◌, [], List, IfOk, OnOk};
ghost use Rattle.keeper_api.specs.RefPlans.{ComesTo};
ghost use Rattle.keeper_api.specs.declared.changes.RefChange.{RefChange};

use crate::RefChange;
use git_object::{ObjectId, RefName};
use octets::{Copied, Memory};
use std::alloc::Global;
use std::collections::BTreeSet;

/// The names that are given an id, in order, and the names that go after that.
#[derive(Drop)]
pub struct RefPlan {
    pub sets: Vec<(RefName, ObjectId)>,
    pub gone: BTreeSet<RefName>,
}

// Adds one change at the end.
fn extend(plan: &mut RefPlan, change: &RefChange) -> Result<(), Memory>
    ensures { OnOk result ((changes : List RefChange) → ComesTo changes plan.old
        → ComesTo (changes ++ change.now ∷ []) plan.new) }
{
    let name = change.name.copied()?;
    match change.to {
        Some(id) => {
            let _ = plan.gone.remove(&name);
            plan.sets.push((name, id))?;
        }
        None => {
            plan.gone.insert(name)?;
        }
    }
    Ok(())
}

/// What reference changes, made in order, come to: first every name that is set, then the names that go.
pub fn plan_of(alloc: Global, changes: &[RefChange]) -> Result<RefPlan, Memory>
    ensures { IfOk result (ComesTo changes.now) }
{
    let mut plan = RefPlan {
        sets: Vec::new(alloc),
        gone: BTreeSet::new(alloc),
    };
    for change in changes {
        extend(&mut plan, change)?;
    }
    Ok(plan)
}
