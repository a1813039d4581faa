//! What a list of reference changes comes to, and whether its names lie in each other's way.

ghost use Rattle.std.specs.Prelude.{◌≡◌, ◌≢◌, ◌↔◌, ◌++◌, ◌∷◌, ℕ, List, IsTrue};

use crate::key_sets::keys_after;
use git_object::{Memory, ObjectId, RefFault, RefName};
use keeper_api::RefChange;
use octets::Copied;
use std::alloc::Global;
use std::collections::{BTreeMap, BTreeSet};
use text_reader::strip_front;

/// The id that each name is to stand at in the end, or None where it is to go.
pub type RefPlan = BTreeMap<RefName, Option<ObjectId>>;

/// What the changes come to, made in order: the last one of a name is what counts.
pub fn plan_of(alloc: Global, changes: &[RefChange]) -> Result<RefPlan, Memory> {
    let mut plan = BTreeMap::new(alloc);
    for change in changes {
        plan.insert(change.name.copied()?, change.to)?;
    }
    Ok(plan)
}

/// Changes the names that are kept. After a refusal some of them may be changed.
pub fn change_names(names: &mut BTreeSet<RefName>, plan: &RefPlan) -> Result<(), Memory> {
    for (name, to) in plan {
        match to {
            Some(_) => {
                names.insert(name.copied()?)?;
            }
            None => {
                let _ = names.remove(name);
            }
        }
    }
    Ok(())
}

/// Whether a name is that of a file in a folder with the other name, or in one below it.
pub fn lies_below(name: &[u8], above: &[u8]) -> bool
    ensures found { IsTrue result → (rest : List ℕ) × (name.now ≡ above.now ++ 47 ∷ rest) }
    ensures none { (rest : List ℕ) → name.now ≡ above.now ++ 47 ∷ rest → IsTrue result }
{
    let Some(rest) = strip_front(name, above) else {
        return false;
    };
    let Some(_) = strip_front(rest, b"/") else {
        return false;
    };
    true
}

// Whether one of the names is that of a folder above this name.
fn has_name_above(alloc: Global, names: &BTreeSet<RefName>, name: &[u8]) -> Result<bool, Memory> {
    for place in 0..name.len() {
        let (above, rest) = name.split_at(place);
        if strip_front(rest, b"/").is_some() {
            match RefName::read(alloc, above) {
                Ok(above) => {
                    if names.contains(&above) {
                        return Ok(true);
                    }
                }
                Err(RefFault::BadRef) => {}
                Err(RefFault::Memory) => return Err(Memory),
            }
        }
    }
    Ok(false)
}

/// Whether one of the names that the plan sets lies below a name that is kept, or above one that it sets.
pub fn is_crossed(
    alloc: Global,
    names: &BTreeSet<RefName>,
    plan: &RefPlan,
) -> Result<bool, Memory> {
    for (name, to) in plan {
        if to.is_some() && has_name_above(alloc, names, name.text())? {
            return Ok(true);
        }
    }
    Ok(false)
}

/// Whether a folder in the place of a name is one that the plan empties: it takes a name below it away, and leaves
/// none there.
pub fn is_emptied(names: &BTreeSet<RefName>, plan: &RefPlan, folder: &RefName) -> bool {
    for name in keys_after(names, Some(folder)) {
        if lies_below(name.text(), folder.text()) {
            return false;
        }
    }
    for (name, _) in plan {
        if lies_below(name.text(), folder.text()) {
            return true;
        }
    }
    false
}
