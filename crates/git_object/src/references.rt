//! The names of the references that gittuf keeps beside that of the log.

ghost use Rattle.std.specs.Prelude.{◌≡◌, IfOk};
ghost use Rattle.std.specs.Str.{bytes_eq};
ghost use Rattle.git_object.specs.References.{attestations_name, policy_name};

use crate::names::{RefFault, RefName};
use octets::Memory;
use std::alloc::Global;

const POLICY_NAME: &[u8] = b"refs/gittuf/policy";

const ATTESTATIONS_NAME: &[u8] = b"refs/gittuf/attestations";

impl RefName {
    /// The name of the reference whose entries are policies.
    pub fn of_policy(alloc: Global) -> Result<RefName, Memory>
        ensures { IfOk result (λ name. name ≡ policy_name) }
    {
        match RefName::read(alloc, POLICY_NAME) {
            Ok(name) => Ok(name),
            Err(RefFault::Memory) => Err(Memory),
            Err(RefFault::BadRef) => unreachable!(),
        }
    }

    /// The name of the reference whose entries are attestations.
    pub fn of_attestations(alloc: Global) -> Result<RefName, Memory>
        ensures { IfOk result (λ name. name ≡ attestations_name) }
    {
        match RefName::read(alloc, ATTESTATIONS_NAME) {
            Ok(name) => Ok(name),
            Err(RefFault::Memory) => Err(Memory),
            Err(RefFault::BadRef) => unreachable!(),
        }
    }

    /// Whether it is the name of the reference whose entries are policies.
    pub fn is_policy(&self) -> bool
        ensures { result ≡ bytes_eq self.now policy_name }
    {
        self.text() == POLICY_NAME
    }

    /// Whether it is the name of the reference whose entries are attestations.
    pub fn is_attestations(&self) -> bool
        ensures { result ≡ bytes_eq self.now attestations_name }
    {
        self.text() == ATTESTATIONS_NAME
    }
}
