//! Whether those signed a file who must.

ghost use Rattle.std.specs.Prelude.{◌≡◌, IfOk, nat_le};
ghost use Rattle.std.specs.Option.{option_copied};
ghost use Rattle.policy_reading.specs.Validity.{by_holder, file_fault, files_fault, holder_name, holder_of, holds};
ghost use Rattle.policy_reading.specs.Validity.{is_top, no_rule, root_fault, rule_named, signing_fault};

use crate::signed_files::{Sealed, SignedRoot};
use known_signers::KnownSigners;
use octets::{Memory, Octets};
use policy_epochs::PolicyFault;
use root_metadata::{Keys, Persons, Root, count_in};
use rule_files::{Rule, RuleFile};
use std::alloc::Global;

// Whether as many signed as must.
fn is_met(got: usize, need: u32) -> bool
    ensures { result ≡ nat_le need got }
{
    got >= need as usize
}

/// That too few persons of the root role signed the root, with keys of the root.
#[tactic(auto, unfolding(crate::specs::Validity::root_fault))]
pub fn root_fault(
    alloc: Global,
    known: &KnownSigners,
    signed: &SignedRoot,
) -> Result<Option<PolicyFault>, Memory>
    ensures { IfOk result (λ fault. fault ≡ root_fault signed.now) }
{
    let signers = known.signers(alloc, &signed.envelope, &signed.root.keys)?;
    let got = count_in(&signed.root.root.persons, &signers);
    let need = signed.root.root.threshold;
    if is_met(got, need) {
        return Ok(None);
    }
    Ok(Some(PolicyFault::RootThreshold { got, need }))
}

// That too few of these persons signed a file, with these keys.
#[tactic(auto, unfolding(crate::specs::Validity::signing_fault))]
fn signing_fault(
    alloc: Global,
    known: &KnownSigners,
    sealed: &Sealed,
    keys: &Keys,
    persons: &Persons,
    need: u32,
) -> Result<Option<PolicyFault>, Memory>
    ensures { IfOk result (λ fault. fault ≡ signing_fault sealed.now keys.now persons.now need) }
{
    let signers = known.signers(alloc, &sealed.envelope, keys)?;
    let got = count_in(persons, &signers);
    if is_met(got, need) {
        return Ok(None);
    }
    let file = sealed.name.copy()?;
    Ok(Some(PolicyFault::FileThreshold { file, got, need }))
}

/// Whether a name is the top file's.
pub fn is_top(name: &[u8]) -> bool
    ensures { result ≡ is_top name.now }
{
    name == b"targets".as_slice()
}

// The first rule of a name in a file.
fn rule_named<'f>(name: &[u8], file: &'f RuleFile) -> Option<&'f Rule>
    ensures { option_copied result ≡ rule_named name.now file.now }
{
    let rules = file.rules.as_slice();
    rules.iter().find(|rule| rule.name.as_slice() == name)
}

fn holds(name: &[u8], file: &RuleFile) -> bool
    ensures { result ≡ holds name.now file.now }
{
    rule_named(name, file).is_some()
}

// The first file that holds a rule of a name.
fn holder_of<'f>(files: &'f [RuleFile], name: &[u8]) -> Option<&'f RuleFile>
    ensures { option_copied result ≡ holder_of files.now name.now }
{
    files.iter().find(|file| holds(name, file))
}

/// The name of the file that holds the rule of a file's name; the top file has none.
#[tactic(auto, unfolding(crate::specs::Validity::holder_name))]
pub fn holder_name(files: &[RuleFile], name: &[u8]) -> Result<Option<Octets>, Memory>
    ensures { IfOk result (λ holder. holder ≡ holder_name files.now name.now) }
{
    if is_top(name) {
        return Ok(None);
    }
    match holder_of(files, name) {
        None => Ok(None),
        Some(holder) => Ok(Some(holder.name.copy()?)),
    }
}

// That a file is named after no rule, so that nobody may sign it.
fn no_rule(sealed: &Sealed) -> Result<Option<PolicyFault>, Memory>
    ensures { IfOk result (λ fault. fault ≡ no_rule sealed.now) }
{
    let file = sealed.name.copy()?;
    Ok(Some(PolicyFault::FileThreshold {
        file,
        got: 0,
        need: 1,
    }))
}

// That too few of those who may sign a file below the top did.
fn rule_fault(
    alloc: Global,
    known: &KnownSigners,
    files: &[RuleFile],
    sealed: &Sealed,
) -> Result<Option<PolicyFault>, Memory>
    ensures { IfOk result (λ fault. fault ≡ by_holder sealed.now (holder_of files.now sealed.now.name)) }
{
    let name = sealed.name.as_slice();
    let Some(holder) = holder_of(files, name) else {
        return no_rule(sealed);
    };
    match rule_named(name, holder) {
        None => no_rule(sealed),
        Some(rule) => {
            let persons = &rule.persons;
            signing_fault(alloc, known, sealed, &holder.keys, persons, rule.threshold)
        }
    }
}

// That too few of those who may sign a file did.
#[tactic(auto, unfolding(crate::specs::Validity::file_fault))]
fn file_fault(
    alloc: Global,
    known: &KnownSigners,
    root: &Root,
    files: &[RuleFile],
    sealed: &Sealed,
) -> Result<Option<PolicyFault>, Memory>
    ensures { IfOk result (λ fault. fault ≡ file_fault root.now files.now sealed.now) }
{
    if is_top(sealed.name.as_slice()) {
        let role = &root.targets;
        return signing_fault(
            alloc,
            known,
            sealed,
            &root.keys,
            &role.persons,
            role.threshold,
        );
    }
    rule_fault(alloc, known, files, sealed)
}

/// The first of the files that too few signed.
pub fn files_fault(
    alloc: Global,
    known: &KnownSigners,
    root: &Root,
    files: &[RuleFile],
    all: &[Sealed],
) -> Result<Option<PolicyFault>, Memory>
    ensures { IfOk result (λ fault. fault ≡ files_fault root.now files.now all.now) }
{
    'all: for sealed in all {
        if let Some(fault) = file_fault(alloc, known, root, files, sealed)? {
            return Ok(Some(fault));
        }
    }
    Ok(None)
}
