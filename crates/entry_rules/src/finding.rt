//! The fault of an entry, and who signed for it.

ghost use Rattle.std.specs.Prelude.{◌≡◌, ◌≤◌, ◌+◌, Some, true, IfOk, IfSome, OnOk};
ghost use Rattle.std.specs.Option.{option_copied};
ghost use Rattle.octets.specs.Causes.{HasCause};
ghost use Rattle.git_object.specs.Repository.{Repository};
ghost use Rattle.keeper_api.specs.Faults.{keeper_failed};
ghost use Rattle.keeper_api.specs.Undisturbed.{Undisturbed};
ghost use Rattle.rsl_chain.specs.Entries.{target_of};
ghost use Rattle.rsl_chain.specs.declared.entries.EntryBody.TheVariants.{Reference};
ghost use Rattle.tree_paths.specs.Changes.{IsComparison, shared_reads};
ghost use Rattle.tree_paths.specs.Repositories.{readings_of};
ghost use Rattle.tree_paths.specs.States.{walk_of};
ghost use Rattle.entry_rules.specs.Faults.{body_fault, body_signers, entry_fault, entry_signers};
ghost use Rattle.entry_rules.specs.Learning.{AreKnownIn, AreRoots, AreWhole, IsLesson};
ghost use Rattle.entry_rules.specs.RealRules.{approval_reads, both_sound, comparison_reads};

use crate::Fault;
use crate::between::{compared_between, fault_between};
use crate::changes::rules_fault;
use crate::judge::{EntryRules, KnowingRules};
use crate::known_changes::{Lesson, lesson_of};
use crate::roots::{Roots, roots_of};
use crate::signing::listed_ids;
use crate::targets::{Found, compared, find_broken, signers_for};
use git_object::{ObjectId, RefName};
use judging::{Finding, KeyIds};
use keeper_api::{Keeper, KeeperFault};
use policy_epochs::Policy;
use rsl_chain::{Entry, EntryBody};
use std::alloc::Global;
use tree_paths::{Comparison, root_id};

// Of a change whose states were compared, between these trees where both have one.
fn find_changed<R: Keeper>(
    alloc: Global,
    keeper: &mut R,
    kept: &EntryRules,
    policy: &Policy,
    entry: &Entry,
    name: &RefName,
    target: &ObjectId,
    from: &ObjectId,
    attested: Option<&ObjectId>,
    comparison: Comparison,
    roots: Option<&Roots>,
) -> Result<Found, KeeperFault>
    requires compared { (r : Repository) → R.content keeper.old ≡ Some r
        → IsComparison (walk_of (readings_of r) from.now) (walk_of (readings_of r) target.now) comparison }
    requires roots { IfSome (option_copied roots) (λ roots. (r : Repository) → R.content keeper.old ≡ Some r
        → AreRoots (readings_of r) from.now target.now roots) }
    ensures fault { IfOk result (λ found. (r : Repository) → R.content keeper.new ≡ Some r
        → found.finding.fault ≡ body_fault r policy.now entry.now from.now (option_copied attested.entry)
        (Reference name.now target.now)) }
    ensures signers { IfOk result (λ found. (r : Repository) → R.content keeper.new ≡ Some r
        → found.finding.signers ≡ body_signers r policy.now entry.now from.now (option_copied attested.entry)
        (Reference name.now target.now)) }
    ensures lesson { IfOk result (λ found. (r : Repository) → R.content keeper.new ≡ Some r
        → IsLesson (readings_of r).trees found.lesson) }
    ensures same { Undisturbed R.Keeper keeper.old keeper.new }
    ensures cause { HasCause keeper_failed (R.faults keeper.old) (R.faults keeper.new) result }
    ensures reads { OnOk result ((r : Repository) → R.content keeper.new ≡ Some r
        → both_sound (readings_of r) from.now target.now ≡ true → R.reads keeper.new ≤ R.reads keeper.old
        + approval_reads (option_copied attested.entry)) }
{
    match comparison {
        Comparison::Broken { id } => {
            let signed = &kept.signed;
            let finding = find_broken(
                alloc, keeper, signed, policy, entry, name, target, from, attested, id,
            )?;
            Ok(Found {
                finding,
                lesson: Lesson::none(),
            })
        }
        Comparison::Changed { from: _, to, paths } => {
            let signers = signers_for(
                alloc,
                keeper,
                &kept.signed,
                policy,
                entry,
                name,
                from,
                attested,
                Some(to),
            )?;
            let rules = &policy.rules;
            let paths = paths.as_slice();
            let fault = rules_fault(alloc, &kept.paths, rules, name, paths, &signers)?;
            let lesson = match roots {
                Some(roots) => lesson_of(alloc, &kept.paths, rules, &signers, roots, paths, &fault),
                None => Lesson::none(),
            };
            let signers = listed_ids(alloc, &signers)?;
            Ok(Found {
                finding: Finding { fault, signers },
                lesson,
            })
        }
    }
}

// Of a change between trees that are known to be whole.
fn find_whole<R: Keeper>(
    alloc: Global,
    keeper: &mut R,
    judge: &KnowingRules<'_>,
    policy: &Policy,
    entry: &Entry,
    name: &RefName,
    target: &ObjectId,
    from: &ObjectId,
    attested: Option<&ObjectId>,
    roots: &Roots,
) -> Result<Found, KeeperFault>
    requires known { (r : Repository) → R.content keeper.old ≡ Some r → AreKnownIn r judge.now.known.now }
    requires roots { (r : Repository) → R.content keeper.old ≡ Some r
        → AreRoots (readings_of r) from.now target.now roots.now }
    requires whole { (r : Repository) → R.content keeper.old ≡ Some r → AreWhole (readings_of r).trees roots.now }
    ensures fault { IfOk result (λ found. (r : Repository) → R.content keeper.new ≡ Some r
        → found.finding.fault ≡ body_fault r policy.now entry.now from.now (option_copied attested.entry)
        (Reference name.now target.now)) }
    ensures signers { IfOk result (λ found. (r : Repository) → R.content keeper.new ≡ Some r
        → found.finding.signers ≡ body_signers r policy.now entry.now from.now (option_copied attested.entry)
        (Reference name.now target.now)) }
    ensures lesson { IfOk result (λ found. (r : Repository) → R.content keeper.new ≡ Some r
        → IsLesson (readings_of r).trees found.lesson) }
    ensures same { Undisturbed R.Keeper keeper.old keeper.new }
    ensures cause { HasCause keeper_failed (R.faults keeper.old) (R.faults keeper.new) result }
    ensures reads { OnOk result ((r : Repository) → R.content keeper.new ≡ Some r → R.reads keeper.new ≤ R.reads keeper.old
        + (shared_reads (walk_of (readings_of r) from.now) (walk_of (readings_of r) target.now)
        + approval_reads (option_copied attested.entry))) }
{
    let signed = &judge.rules.signed;
    let to = root_id(&roots.to);
    let signers = signers_for(
        alloc,
        keeper,
        signed,
        policy,
        entry,
        name,
        from,
        attested,
        Some(to),
    )?;
    let judged = fault_between(alloc, keeper, judge, &policy.rules, name, roots, &signers)?;
    let signers = listed_ids(alloc, &signers)?;
    Ok(Found {
        finding: Finding {
            fault: judged.fault,
            signers,
        },
        lesson: judged.lesson,
    })
}

// Of a change of a reference.
fn find_change<R: Keeper>(
    alloc: Global,
    keeper: &mut R,
    judge: &KnowingRules<'_>,
    policy: &Policy,
    entry: &Entry,
    name: &RefName,
    target: &ObjectId,
    from: &ObjectId,
    attested: Option<&ObjectId>,
) -> Result<Found, KeeperFault>
    requires known { (r : Repository) → R.content keeper.old ≡ Some r → AreKnownIn r judge.now.known.now }
    ensures fault { IfOk result (λ found. (r : Repository) → R.content keeper.new ≡ Some r
        → found.finding.fault ≡ body_fault r policy.now entry.now from.now (option_copied attested.entry)
        (Reference name.now target.now)) }
    ensures signers { IfOk result (λ found. (r : Repository) → R.content keeper.new ≡ Some r
        → found.finding.signers ≡ body_signers r policy.now entry.now from.now (option_copied attested.entry)
        (Reference name.now target.now)) }
    ensures lesson { IfOk result (λ found. (r : Repository) → R.content keeper.new ≡ Some r
        → IsLesson (readings_of r).trees found.lesson) }
    ensures same { Undisturbed R.Keeper keeper.old keeper.new }
    ensures cause { HasCause keeper_failed (R.faults keeper.old) (R.faults keeper.new) result }
    ensures reads { OnOk result ((r : Repository) → R.content keeper.new ≡ Some r
        → both_sound (readings_of r) from.now target.now ≡ true → R.reads keeper.new ≤ R.reads keeper.old
        + comparison_reads (readings_of r) from.now target.now + approval_reads (option_copied attested.entry)) }
{
    let Some(roots) = roots_of(alloc, keeper, from, target)? else {
        let comparison = compared(alloc, keeper, &judge.known.trees, from, target)?;
        let kept = judge.rules;
        return find_changed(
            alloc, keeper, kept, policy, entry, name, target, from, attested, comparison, None,
        );
    };
    if judge.known.changes.are_whole(&roots) {
        return find_whole(
            alloc, keeper, judge, policy, entry, name, target, from, attested, &roots,
        );
    }
    let comparison = compared_between(alloc, keeper, &judge.known.trees, &roots)?;
    let kept = judge.rules;
    find_changed(
        alloc,
        keeper,
        kept,
        policy,
        entry,
        name,
        target,
        from,
        attested,
        comparison,
        Some(&roots),
    )
}

/// The fault of an entry of a reference other than the policy's, who signed for it, and what it taught.
#[tactic(auto, unfolding(crate::specs::Faults::entry_fault, crate::specs::Faults::entry_signers))]
pub fn find<R: Keeper>(
    alloc: Global,
    keeper: &mut R,
    judge: &KnowingRules<'_>,
    policy: &Policy,
    entry: &Entry,
    from: &ObjectId,
    attested: Option<&ObjectId>,
) -> Result<Found, KeeperFault>
    requires known { (r : Repository) → R.content keeper.old ≡ Some r → AreKnownIn r judge.now.known.now }
    ensures fault { IfOk result (λ found. (r : Repository) → R.content keeper.new ≡ Some r
        → found.finding.fault ≡ entry_fault r policy.now entry.now from.now (option_copied attested.entry)) }
    ensures signers { IfOk result (λ found. (r : Repository) → R.content keeper.new ≡ Some r
        → found.finding.signers ≡ entry_signers r policy.now entry.now from.now (option_copied attested.entry)) }
    ensures lesson { IfOk result (λ found. (r : Repository) → R.content keeper.new ≡ Some r
        → IsLesson (readings_of r).trees found.lesson) }
    ensures same { Undisturbed R.Keeper keeper.old keeper.new }
    ensures cause { HasCause keeper_failed (R.faults keeper.old) (R.faults keeper.new) result }
    ensures reads { OnOk result ((r : Repository) → R.content keeper.new ≡ Some r
        → both_sound (readings_of r) from.now (target_of entry.now.body) ≡ true
        → R.reads keeper.new ≤ R.reads keeper.old
        + (comparison_reads (readings_of r) from.now (target_of entry.now.body) + approval_reads
        (option_copied attested.entry))) }
{
    match &entry.body {
        EntryBody::Reference { name, target } => {
            find_change(
                alloc, keeper, judge, policy, entry, name, target, from, attested,
            )
        }
        EntryBody::Annotation {
            ids: _,
            skip: _,
            message: _,
        } => Ok(Found {
            finding: Finding {
                fault: None,
                signers: KeyIds::new(alloc),
            },
            lesson: Lesson::none(),
        }),
    }
}
