//! The fault of a change by the rules that it reaches.

ghost use Rattle.std.specs.Prelude.{◌≡◌, Some, IfOk, IfSome};
ghost use Rattle.std.specs.List.{find};
ghost use Rattle.rule_files.specs.declared.rules.Rule.{Rule};
ghost use Rattle.std.specs.Option.{option_copied, option_map};
ghost use Rattle.tree_paths.specs.Changes.{AreChanged};
ghost use Rattle.tree_paths.specs.States.{Ended, map_at};
ghost use Rattle.entry_rules.specs.Changing.{is_unmet, least_unmet};
ghost use Rattle.entry_rules.specs.Faults.{first_told, path_fault, ref_fault, rules_fault};
ghost use Rattle.entry_rules.specs.Meeting.{file_name, first_place, git_name, reached};
ghost use Rattle.entry_rules.specs.declared.faults.Fault.TheVariants.{PathRule, RefRule};
ghost use Rattle.rule_delegations.specs.Chains.{rule_at};
ghost use Rattle.root_metadata.specs.Persons.{count_in};

use crate::Fault;
use crate::known_paths::{KnownPaths, first_known};
use crate::meeting::meets;
use git_object::RefName;
use octets::{Memory, Octets};
use ref_patterns::Space;
use root_metadata::KeyIds;
use rule_delegations::{Rules, Short};
use std::alloc::Global;

// What is told of the rule that a name reaches first; None where it reaches none.
fn first_short(rules: &Rules, space: Space, text: &[u8], signers: &KeyIds) -> Option<Short>
    ensures first { option_map (λ short. short.place) result
        ≡ first_place (reached rules.now (record { space = space; text = text.now })) }
    ensures told { IfSome result (λ short. (rule : Rule) × (rule_at rules.now short.place ≡ Some rule)
        × (short.got ≡ count_in rule.persons signers.now) × (short.need ≡ rule.threshold)) }
{
    let _files = rules.files();
    rules.short(space, text, signers)
}

/// The fault of a reference's name.
pub fn ref_fault(rules: &Rules, name: &RefName, signers: &KeyIds) -> Result<Option<Fault>, Memory>
    ensures { IfOk result (λ fault. fault ≡ ref_fault rules.now name.now signers.now) }
{
    if meets(rules, Space::Git, name.text(), signers) {
        return Ok(None);
    }
    let Some(short) = first_short(rules, Space::Git, name.text(), signers) else {
        return Ok(None);
    };
    let rule = rules.rule(short.place).name.copy()?;
    Ok(Some(Fault::RefRule {
        rule,
        got: short.got,
        need: short.need,
    }))
}

fn is_unmet(rules: &Rules, path: &Octets, signers: &KeyIds) -> bool
    ensures { result ≡ is_unmet rules.now signers.now path.now }
{
    !meets(rules, Space::File, path.as_slice(), signers)
}

/// The first of the paths that is not met.
pub fn first_unmet<'p>(rules: &Rules, paths: &'p [Octets], signers: &KeyIds) -> Option<&'p Octets>
    ensures { option_copied result ≡ find (is_unmet rules.now signers.now) paths.now }
{
    paths.iter().find(|path| is_unmet(rules, path, signers))
}

// What is told of a path.
fn told_of_path(rules: &Rules, path: &Octets, signers: &KeyIds) -> Result<Option<Fault>, Memory>
    ensures { IfOk result (λ fault. fault ≡ first_told (PathRule path.now) rules.now (file_name path.now) signers.now) }
{
    let Some(short) = first_short(rules, Space::File, path.as_slice(), signers) else {
        return Ok(None);
    };
    let rule = rules.rule(short.place).name.copy()?;
    let path = path.copy()?;
    Ok(Some(Fault::PathRule {
        path,
        rule,
        got: short.got,
        need: short.need,
    }))
}

/// The fault of a change by the first path that the signers do not meet, where there is one.
pub fn first_fault(
    rules: &Rules,
    first: &Option<Octets>,
    signers: &KeyIds,
) -> Result<Option<Fault>, Memory>
    ensures { IfOk result (λ fault. fault ≡ path_fault rules.now signers.now first.now) }
{
    match first {
        Some(path) => told_of_path(rules, path, signers),
        None => Ok(None),
    }
}

fn path_fault(
    alloc: Global,
    known: &KnownPaths,
    rules: &Rules,
    paths: &[Octets],
    signers: &KeyIds,
) -> Result<Option<Fault>, Memory>
    ensures { IfOk result (λ fault. fault ≡ path_fault rules.now signers.now
        (find (is_unmet rules.now signers.now) paths.now)) }
{
    let first = first_known(known, alloc, rules, signers, paths)?;
    first_fault(rules, &first, signers)
}

/// The fault of a change between two states that differ at exactly these paths, which stand in the order of their
/// bytes: the reference's name, or else the first of the paths, that is not met by the signers. Where that is known of
/// the paths, they are not looked through again.
pub fn rules_fault(
    alloc: Global,
    known: &KnownPaths,
    rules: &Rules,
    name: &RefName,
    paths: &[Octets],
    signers: &KeyIds,
) -> Result<Option<Fault>, Memory>
    ensures { IfOk result (λ fault. (s t : Ended) → AreChanged (map_at s) (map_at t) paths.now
        → fault ≡ rules_fault rules.now name.now signers.now s t) }
{
    match ref_fault(rules, name, signers)? {
        Some(fault) => Ok(Some(fault)),
        None => path_fault(alloc, known, rules, paths, signers),
    }
}
