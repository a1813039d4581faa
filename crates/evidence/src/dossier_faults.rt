//! Why a text is no dossier's.

use octets::Memory;

/// Why a dossier was not read.
#[derive(Clone, Copy, Debug, PartialEq, Eq, Drop)]
pub enum DossierFault {
    /// The text is no dossier's; where the first line begins that is not as wanted, or whose body is not.
    Malformed { at: u64 },
    Memory,
}

impl From<Memory> for DossierFault {
    ghost use Rattle.std.specs.Prelude.{◌≡◌};
    ghost use Rattle.evidence.specs.declared.dossier_faults.DossierFault.TheVariants as fault;

    ghost from_gives = { λ _ e. e ≡ fault.Memory };

    fn from(_error: Memory) -> DossierFault {
        DossierFault::Memory
    }
}
