//! What is told of each name that the signers do not meet.

ghost use Rattle.std.specs.Prelude.{◌≡◌, ◌++◌, IfOk, IfSome, OnOk, Some, if◌then◌else◌};
ghost use Rattle.std.specs.Option.{option_map};
ghost use Rattle.root_metadata.specs.Persons.{count_in};
ghost use Rattle.rule_files.specs.declared.rules.Rule.{Rule};
ghost use Rattle.rule_delegations.specs.Chains.{rule_at};
ghost use Rattle.rule_delegations.specs.Forests.{IsPolicy};
ghost use Rattle.entry_rules.specs.Faults.{ref_fault};
ghost use Rattle.entry_rules.specs.Meeting.{first_place, meets, reached};
ghost use Rattle.would_be.specs.Would.{all_told, one, path_told, paths_told};

use entry_rules::Fault;
use git_object::RefName;
use octets::{Items, Memory, Octets};
use ref_patterns::Space;
use root_metadata::KeyIds;
use rule_delegations::{Rules, Short};
use std::alloc::Global;

fn meets(rules: &Rules, space: Space, text: &[u8], signers: &KeyIds) -> bool
    ensures { result ≡ meets rules.now (record { space = space; text = text.now }) signers.now }
{
    let _files = rules.files();
    rules.meets(space, text, signers)
}

// What is told of the rule that a name reaches first; None where it reaches none.
fn first_short(rules: &Rules, space: Space, text: &[u8], signers: &KeyIds) -> Option<Short>
    ensures first { option_map (λ short. short.place) result
        ≡ first_place (reached rules.now (record { space = space; text = text.now })) }
    ensures told { IfSome result (λ short. (rule : Rule) × (rule_at rules.now short.place ≡ Some rule)
        × (short.got ≡ count_in rule.persons signers.now) × (short.need ≡ rule.threshold)) }
{
    let _files = rules.files();
    rules.short(space, text, signers)
}

fn ref_told(rules: &Rules, name: &RefName, signers: &KeyIds) -> Result<Option<Fault>, Memory>
    ensures { IfOk result (λ fault. fault ≡ ref_fault rules.now name.now signers.now) }
{
    if meets(rules, Space::Git, name.text(), signers) {
        return Ok(None);
    }
    let Some(short) = first_short(rules, Space::Git, name.text(), signers) else {
        return Ok(None);
    };
    let rule = rules.rule(short.place).name.copy()?;
    Ok(Some(Fault::RefRule {
        rule,
        got: short.got,
        need: short.need,
    }))
}

fn path_told(rules: &Rules, path: &Octets, signers: &KeyIds) -> Result<Option<Fault>, Memory>
    ensures { IfOk result (λ fault. fault ≡ path_told rules.now signers.now path.now) }
{
    if meets(rules, Space::File, path.as_slice(), signers) {
        return Ok(None);
    }
    let Some(short) = first_short(rules, Space::File, path.as_slice(), signers) else {
        return Ok(None);
    };
    let rule = rules.rule(short.place).name.copy()?;
    let path = path.copy()?;
    Ok(Some(Fault::PathRule {
        path,
        rule,
        got: short.got,
        need: short.need,
    }))
}

// Adds a fault, where there is one.
#[tactic(auto, using(crate::proofs::Told::nothing_more))]
pub(crate) fn add(faults: &mut Items<Fault>, fault: Option<Fault>) -> Result<(), Memory>
    ensures { OnOk result (faults.new ≡ faults.old ++ one fault) }
{
    match fault {
        Some(fault) => faults.push(fault),
        None => Ok(()),
    }
}

// Adds what is told of each of the paths that is not met.
fn add_paths(
    faults: &mut Items<Fault>,
    rules: &Rules,
    paths: &[Octets],
    signers: &KeyIds,
) -> Result<(), Memory>
    ensures { OnOk result (faults.new ≡ faults.old ++ paths_told rules.now signers.now paths.now) }
{
    'paths: for path in paths {
        let fault = path_told(rules, path, signers)?;
        add(faults, fault)?;
    }
    Ok(())
}

/// What is told of the reference, where it is not met, and of each of these paths that is not met.
pub(crate) fn all_told(
    alloc: Global,
    rules: &Rules,
    name: &RefName,
    paths: &[Octets],
    signers: &KeyIds,
) -> Result<Items<Fault>, Memory>
    ensures { IfOk result (λ faults. faults ≡ all_told rules.now name.now signers.now paths.now) }
{
    let mut faults = Items::new(alloc);
    let fault = ref_told(rules, name, signers)?;
    add(&mut faults, fault)?;
    add_paths(&mut faults, rules, paths, signers)?;
    Ok(faults)
}
