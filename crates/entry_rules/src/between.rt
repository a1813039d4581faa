//! The fault of a change between the trees of two targets, by what is known of it.

ghost use Rattle.std.specs.Prelude.{◌≡◌, ◌≤◌, ◌+◌, ℕ, List, None, Some, IfOk, IfSome, OnOk};
ghost use Rattle.octets.specs.Causes.{HasCause};
ghost use Rattle.git_object.specs.Repository.{Repository};
ghost use Rattle.keeper_api.specs.Faults.{keeper_failed};
ghost use Rattle.keeper_api.specs.Undisturbed.{Undisturbed};
ghost use Rattle.tree_paths.specs.Changes.{IsComparison, shared_reads};
ghost use Rattle.tree_paths.specs.Known as trees_;
ghost use Rattle.tree_paths.specs.Repositories.{readings_of};
ghost use Rattle.tree_paths.specs.Roots.{root_ended};
ghost use Rattle.entry_rules.specs.Faults.{ref_fault, rules_fault};
ghost use Rattle.entry_rules.specs.Learning.{AreKnownIn, AreWhole, IsLesson};

use crate::Fault;
use crate::changes::{first_fault, ref_fault, rules_fault};
use crate::judge::KnowingRules;
use crate::known_changes::{Lesson, lesson_of};
use crate::roots::Roots;
use git_object::RefName;
use keeper_api::{Keeper, KeeperFault};
use octets::Memory;
use root_metadata::KeyIds;
use rule_delegations::Rules;
use std::alloc::Global;
use tree_paths::{Comparison, KnownTrees, compare_roots};

/// The fault of a change, and what it taught.
#[derive(Drop)]
pub struct Judged {
    pub fault: Option<Fault>,
    pub lesson: Lesson,
}

/// What changed between the trees of two targets.
pub fn compared_between<R: Keeper>(
    alloc: Global,
    keeper: &mut R,
    known: &KnownTrees,
    roots: &Roots,
) -> Result<Comparison, KeeperFault>
    requires known { (r : Repository) → R.content keeper.old ≡ Some r → trees_.AreKnownIn r known.now }
    ensures compared { IfOk result (λ c. (r : Repository) → R.content keeper.new ≡ Some r
        → IsComparison (root_ended (readings_of r).trees roots.now.from) (root_ended (readings_of r).trees roots.now.to)
        c) }
    ensures same { Undisturbed R.Keeper keeper.old keeper.new }
    ensures cause { HasCause keeper_failed (R.faults keeper.old) (R.faults keeper.new) result }
    ensures reads { OnOk result ((r : Repository) → R.content keeper.new ≡ Some r
        → AreWhole (readings_of r).trees roots.now → R.reads keeper.new ≤ R.reads keeper.old
        + shared_reads (root_ended (readings_of r).trees roots.now.from) (root_ended (readings_of r).trees roots.now.to)) }
{
    compare_roots(alloc, keeper, known, &roots.from, &roots.to)
}

// The fault of a change that its reference lets through, by what is known of it; None where nothing is.
fn known_fault(
    judge: &KnowingRules<'_>,
    rules: &Rules,
    signers: &KeyIds,
    roots: &Roots,
) -> Result<Option<Option<Fault>>, Memory>
    ensures { IfOk result (λ found. IfSome found (λ fault. (r : Repository) (name : List ℕ)
        → AreKnownIn r judge.now.known.now → ref_fault rules.now name signers.now ≡ None
        → fault ≡ rules_fault rules.now name signers.now (root_ended (readings_of r).trees roots.now.from)
        (root_ended (readings_of r).trees roots.now.to))) }
{
    let Some(first) = judge.known.changes.first(rules, signers, roots) else {
        return Ok(None);
    };
    let fault = first_fault(rules, first, signers)?;
    Ok(Some(fault))
}

/// The fault of a change between the trees of two targets, which are whole, by the rules and the signers.
pub fn fault_between<R: Keeper>(
    alloc: Global,
    keeper: &mut R,
    judge: &KnowingRules<'_>,
    rules: &Rules,
    name: &RefName,
    roots: &Roots,
    signers: &KeyIds,
) -> Result<Judged, KeeperFault>
    requires known { (r : Repository) → R.content keeper.old ≡ Some r → AreKnownIn r judge.now.known.now }
    requires whole { (r : Repository) → R.content keeper.old ≡ Some r → AreWhole (readings_of r).trees roots.now }
    ensures fault { IfOk result (λ judged. (r : Repository) → R.content keeper.new ≡ Some r
        → judged.fault ≡ rules_fault rules.now name.now signers.now (root_ended (readings_of r).trees roots.now.from)
        (root_ended (readings_of r).trees roots.now.to)) }
    ensures lesson { IfOk result (λ judged. (r : Repository) → R.content keeper.new ≡ Some r
        → IsLesson (readings_of r).trees judged.lesson) }
    ensures same { Undisturbed R.Keeper keeper.old keeper.new }
    ensures cause { HasCause keeper_failed (R.faults keeper.old) (R.faults keeper.new) result }
    ensures reads { OnOk result ((r : Repository) → R.content keeper.new ≡ Some r → R.reads keeper.new ≤ R.reads keeper.old
        + shared_reads (root_ended (readings_of r).trees roots.now.from) (root_ended (readings_of r).trees roots.now.to)) }
{
    if let Some(fault) = ref_fault(rules, name, signers)? {
        return Ok(Judged {
            fault: Some(fault),
            lesson: Lesson::none(),
        });
    }
    if let Some(fault) = known_fault(judge, rules, signers, roots)? {
        return Ok(Judged {
            fault,
            lesson: Lesson::none(),
        });
    }
    match compared_between(alloc, keeper, &judge.known.trees, roots)? {
        Comparison::Broken { id } => Ok(Judged {
            fault: Some(Fault::Broken { id }),
            lesson: Lesson::none(),
        }),
        Comparison::Changed {
            from: _,
            to: _,
            paths,
        } => {
            let kept = &judge.rules.paths;
            let paths = paths.as_slice();
            let fault = rules_fault(alloc, kept, rules, name, paths, signers)?;
            let lesson = lesson_of(alloc, kept, rules, signers, roots, paths, &fault);
            Ok(Judged { fault, lesson })
        }
    }
}
