//! The policy in force, entry by entry.

ghost use Rattle.std.specs.Prelude.{◌≡◌, ◌++◌, ℕ, List, IfOk, IsOk, OnErr, OnOk, Some};
ghost use Rattle.std.specs.Option.{option_copied};
ghost use Rattle.policy_epochs.specs.Epochs.{AreEpochs, below, fault_under, next_policy, policy_in};
ghost use Rattle.policy_epochs.specs.Standing.{Found, IsNext, Stands, verdict_of};
ghost use Rattle.policy_epochs.specs.Succession.{succession};

use crate::{EpochVerdict, Policy, PolicyFault, succession_fault};
use known_signers::KnownSigners;
use octets::Memory;
use root_metadata::KeyIds;
use std::alloc::Global;

/// The policy in force after the entries of a log that were taken, and the ids of keys that the first policy must have,
/// where they are given.
#[derive(Drop)]
pub struct Epochs {
    anchor: Option<KeyIds>,
    current: Option<Policy>,
}

impl Epochs {
    /// No entry is taken yet. Where ids are given, the first policy's root role must have exactly their keys.
    pub fn new(anchor: Option<KeyIds>) -> Epochs
        ensures anchor { result.anchor ≡ anchor }
        ensures start { (checked : Found) → Stands result checked 0 }
    {
        Epochs {
            anchor,
            current: None,
        }
    }

    /// The policy in force: of whatever log these epochs stand for, the policy of the last epoch.
    pub fn current(&self) -> Option<&Policy>
        ensures value { option_copied result ≡ self.now.current }
        ensures epochs { (checked : Found) (n : ℕ) (list : List ℕ) → Stands self.now checked n
            → AreEpochs checked (succession self.now.anchor) n list → option_copied result ≡ policy_in checked list }
    {
        self.current.as_ref()
    }

    // The fault of what was found of an entry.
    fn fault(
        &self,
        alloc: Global,
        known: &KnownSigners,
        policy: &Policy,
    ) -> Result<Option<PolicyFault>, Memory>
        ensures { IfOk result (λ fault. fault ≡ succession self.now.anchor self.now.current policy.now) }
    {
        succession_fault(alloc, known, &self.anchor, self.current.as_ref(), policy)
    }

    // Keeps the policy where it takes effect.
    fn step(
        &mut self,
        alloc: Global,
        known: &KnownSigners,
        found: Result<Policy, PolicyFault>,
    ) -> Result<EpochVerdict, Memory>
        ensures anchor { self.new.anchor ≡ self.old.anchor }
        ensures verdict { IfOk result (λ verdict. verdict
            ≡ verdict_of (fault_under (succession self.old.anchor) self.old.current found)) }
        ensures kept { OnOk result (self.new.current ≡ next_policy (succession self.old.anchor) self.old.current
            (Some found)) }
        ensures same { OnErr result (self.new ≡ self.old) }
        ensures memory { OnErr result (IsOk found) }
    {
        let policy = match found {
            Ok(policy) => policy,
            Err(fault) => return Ok(EpochVerdict::Refused(fault)),
        };
        match self.fault(alloc, known, &policy)? {
            Some(fault) => Ok(EpochVerdict::Refused(fault)),
            None => {
                self.current = Some(policy);
                Ok(EpochVerdict::Opened)
            }
        }
    }

    /// Takes the next entry for the policy, of which this was found. It is an epoch where its policy is valid and
    /// breaks no rule of succession; else the first that it breaks, or its own fault, is told, and the policy stays.
    /// The policy is moved, and after a want of memory, which only a valid policy leads to, the epochs are as before.
    pub fn take(
        &mut self,
        alloc: Global,
        known: &KnownSigners,
        found: Result<Policy, PolicyFault>,
    ) -> Result<EpochVerdict, Memory>
        ensures anchor { self.new.anchor ≡ self.old.anchor }
        ensures verdict { IfOk result (λ verdict. verdict
            ≡ verdict_of (fault_under (succession self.old.anchor) self.old.current found)) }
        ensures stands { OnOk result ((checked : Found) (n number : ℕ) → IsNext checked n number found
            → Stands self.old checked n → Stands self.new checked number) }
        ensures epoch { IfOk result (λ verdict. (checked : Found) (n number : ℕ) (list : List ℕ)
            → IsNext checked n number found → Stands self.old checked n
            → AreEpochs checked (succession self.old.anchor) number list
            → verdict ≡ verdict_of (fault_under (succession self.old.anchor) (policy_in checked (below number list))
            found)) }
        ensures same { OnErr result (self.new ≡ self.old) }
        ensures memory { OnErr result (IsOk found) }
    {
        self.step(alloc, known, found)
    }

    /// What `take` would answer of the next entry for the policy. Nothing is kept.
    pub fn judge(
        &self,
        alloc: Global,
        known: &KnownSigners,
        found: Result<Policy, PolicyFault>,
    ) -> Result<EpochVerdict, Memory>
        ensures verdict { IfOk result (λ verdict. verdict
            ≡ verdict_of (fault_under (succession self.now.anchor) self.now.current found)) }
        ensures memory { OnErr result (IsOk found) }
    {
        match found {
            Err(fault) => Ok(EpochVerdict::Refused(fault)),
            Ok(policy) => match self.fault(alloc, known, &policy)? {
                Some(fault) => Ok(EpochVerdict::Refused(fault)),
                None => Ok(EpochVerdict::Opened),
            },
        }
    }
}
