//! The files of a policy, judged, and the policy that is made of them.

ghost use Rattle.std.specs.Prelude.{◌≡◌, ◌≢◌, ◌++◌, ◌∷◌, [], map, IfOk, OnOk, Ok};
ghost use Rattle.policy_epochs.specs.declared.faults.PolicyFault.TheVariants as fault;
ghost use Rattle.rule_delegations.specs.declared.assembling.AssembleFault.TheVariants as refusal;
ghost use Rattle.policy_reading.specs.Validity.{all_keys, assembled, by_forest, empty_top, judged, missing_top};
ghost use Rattle.policy_reading.specs.Validity.{policy_file, policy_made, sealed_of, with_top};

use crate::signed_files::{Sealed, SealedFiles, SignedFile, SignedFiles, SignedRoot};
use crate::thresholds::{files_fault, holder_name, is_top, root_fault};
use known_signers::KnownSigners;
use octets::{Copied, Items, Memory, Octets};
use policy_epochs::{Policy, PolicyFault, PolicyFile};
use root_metadata::{Keys, Persons, Root};
use rule_delegations::{AssembleFault, Rules};
use rule_files::{RuleFile, RuleFiles, RuleList};
use std::alloc::Global;

/// Rule files, and what is kept beside their rules.
#[derive(Drop)]
struct Parts {
    files: RuleFiles,
    sealed: SealedFiles,
}

// A top file without rules.
fn empty_top(alloc: Global) -> Result<RuleFile, Memory>
    ensures { IfOk result (λ file. file ≡ empty_top) }
{
    let name = Octets::from_slice(alloc, b"targets")?;
    Ok(RuleFile {
        name,
        schema: 1,
        version: 1,
        keys: Keys::new(alloc),
        persons: Persons::new(alloc),
        rules: RuleList::new(alloc),
    })
}

// What stands in for the top file, where it is not there but other files are.
fn missing_top(alloc: Global, signed: &[SignedFile]) -> Result<RuleFiles, Memory>
    ensures { IfOk result (λ files. files ≡ missing_top signed.now) }
{
    let mut files = RuleFiles::new(alloc);
    let Some(first) = signed.first() else {
        return Ok(files);
    };
    if is_top(first.file.name.as_slice()) {
        return Ok(files);
    }
    files.push(empty_top(alloc)?)?;
    Ok(files)
}

// Adds a file, and what is kept beside its rules.
fn add_part(parts: &mut Parts, signed: SignedFile) -> Result<(), Memory>
    ensures files { OnOk result (parts.new.files ≡ parts.old.files ++ signed.file ∷ []) }
    ensures sealed { OnOk result (parts.new.sealed ≡ parts.old.sealed ++ sealed_of signed ∷ []) }
{
    let SignedFile { envelope, file } = signed;
    let name = file.name.copy()?;
    parts.sealed.push(Sealed {
        name,
        version: file.version,
        envelope,
    })?;
    parts.files.push(file)?;
    Ok(())
}

// The files and what is kept beside them, apart.
fn split(alloc: Global, signed: SignedFiles) -> Result<Parts, Memory>
    ensures files { IfOk result (λ parts. parts.files ≡ with_top signed) }
    ensures sealed { IfOk result (λ parts. parts.sealed ≡ map sealed_of signed) }
{
    let mut parts = Parts {
        files: missing_top(alloc, signed.as_slice())?,
        sealed: SealedFiles::new(alloc),
    };
    'signed: for one in signed.into_vec() {
        add_part(&mut parts, one)?;
    }
    Ok(parts)
}

// Why files are no rules, as a fault of the policy.
fn forest_fault(why: AssembleFault) -> Result<PolicyFault, Memory>
    ensures fault { IfOk result (λ told. told ≡ fault.Forest why) }
    ensures other { OnOk result (why ≢ refusal.Memory) }
{
    match why {
        AssembleFault::DuplicateName { name } => Ok(PolicyFault::Forest {
            why: AssembleFault::DuplicateName { name },
        }),
        AssembleFault::Unreachable { name } => Ok(PolicyFault::Forest {
            why: AssembleFault::Unreachable { name },
        }),
        AssembleFault::TooDeep { name } => Ok(PolicyFault::Forest {
            why: AssembleFault::TooDeep { name },
        }),
        AssembleFault::TooMany { count } => Ok(PolicyFault::Forest {
            why: AssembleFault::TooMany { count },
        }),
        AssembleFault::Memory => Err(Memory),
    }
}

// The rules of files, or the fault for which they are none.
fn assembled(alloc: Global, files: RuleFiles) -> Result<Result<Rules, PolicyFault>, Memory>
    ensures { IfOk result (λ found. found ≡ assembled files) }
{
    match Rules::assemble(alloc, files) {
        Ok(rules) => Ok(Ok(rules)),
        Err(why) => {
            let fault = forest_fault(why)?;
            Ok(Err(fault))
        }
    }
}

// Adds the keys.
fn add_keys(all: &mut Keys, keys: &Keys) -> Result<(), Memory>
    ensures { OnOk result (all.new ≡ all.old ++ keys.now) }
{
    'keys: for key in keys.as_slice() {
        all.push(key.copied()?)?;
    }
    Ok(())
}

// The keys of the root, and those of each file in turn.
fn all_keys(root: &Root, files: &[RuleFile]) -> Result<Keys, Memory>
    ensures { IfOk result (λ keys. keys ≡ all_keys root.now files.now) }
{
    let mut all = root.keys.copy()?;
    'files: for file in files {
        add_keys(&mut all, &file.keys)?;
    }
    Ok(all)
}

// What later policies are compared with of a file.
fn policy_file(files: &[RuleFile], sealed: &Sealed) -> Result<PolicyFile, Memory>
    ensures { IfOk result (λ file. file ≡ policy_file files.now sealed.now) }
{
    let holder = holder_name(files, sealed.name.as_slice())?;
    let name = sealed.name.copy()?;
    let payload = sealed.envelope.payload.copy()?;
    Ok(PolicyFile {
        name,
        payload,
        version: sealed.version,
        holder,
    })
}

// What later policies are compared with.
fn policy_files(
    alloc: Global,
    files: &[RuleFile],
    all: &[Sealed],
) -> Result<Items<PolicyFile>, Memory>
    ensures { IfOk result (λ made. made ≡ map (policy_file files.now) all.now) }
{
    let mut made = Items::new(alloc);
    'all: for sealed in all {
        let one = policy_file(files, sealed)?;
        made.push(one)?;
    }
    Ok(made)
}

// The policy of files that are valid.
fn make_policy(
    alloc: Global,
    signed: SignedRoot,
    rules: Rules,
    all: &[Sealed],
) -> Result<Policy, Memory>
    ensures { IfOk result (λ policy. policy ≡ policy_made signed rules all.now) }
{
    let keys = all_keys(&signed.root, rules.files())?;
    let files = policy_files(alloc, rules.files(), all)?;
    Ok(Policy::new(signed.root, rules, keys, signed.envelope, files))
}

// The policy of a forest, or the first of its files that too few signed.
fn judge_forest(
    alloc: Global,
    known: &KnownSigners,
    signed: SignedRoot,
    rules: Rules,
    all: &[Sealed],
) -> Result<Result<Policy, PolicyFault>, Memory>
    ensures { IfOk result (λ found. found ≡ by_forest signed all.now (Ok rules)) }
{
    match files_fault(alloc, known, &signed.root, rules.files(), all)? {
        Some(fault) => Ok(Err(fault)),
        None => Ok(Ok(make_policy(alloc, signed, rules, all)?)),
    }
}

/// The policy of files that are read, or the first of its faults: too few signed the root; the rule files are no
/// forest; too few signed a rule file. No signature is checked of an envelope whose signers are known.
#[tactic(auto, unfolding(crate::specs::Validity::judged))]
pub fn judge(
    alloc: Global,
    known: &KnownSigners,
    signed: SignedRoot,
    files: SignedFiles,
) -> Result<Result<Policy, PolicyFault>, Memory>
    ensures { IfOk result (λ found. found ≡ judged signed files) }
{
    if let Some(fault) = root_fault(alloc, known, &signed)? {
        return Ok(Err(fault));
    }
    let Parts { files, sealed } = split(alloc, files)?;
    match assembled(alloc, files)? {
        Err(fault) => Ok(Err(fault)),
        Ok(rules) => judge_forest(alloc, known, signed, rules, sealed.as_slice()),
    }
}
