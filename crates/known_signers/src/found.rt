//! Who signed one envelope, of some keys.

ghost use Rattle.std.specs.Prelude.{◌≡◌, IfOk, IfSome};
ghost use Rattle.std.specs.Option.{option_copied};
ghost use Rattle.approvals.specs.Signers.{env_signers};

use crate::copies::copied_envelope;
use crate::same::{Same, same_items};
use dsse_envelope::Envelope;
use octets::Memory;
use root_metadata::{KeyIds, Keys};
use std::marker::Model;

/// An envelope, keys, and the ids of those of the keys that signed it.
#[derive(Drop)]
pub struct FoundSigners {
    envelope: Envelope,
    keys: Keys,
    ids: KeyIds,
}

impl Model for FoundSigners {
    ghost use Rattle.std.specs.Prelude.{◌≡◌};
    ghost use Rattle.approvals.specs.Signers.{env_signers};
    ghost use Rattle.known_signers.specs.Asked.{Asked};

    ghost Value = { Asked };

    ghost view = { λ f. record { envelope = f.envelope; keys = f.keys } };

    ghost invariant = { λ f. f.ids ≡ env_signers f.envelope f.keys };
}

impl FoundSigners {
    /// That these are the ids of those of the keys that signed the envelope.
    pub fn of(envelope: &Envelope, keys: &Keys, ids: &KeyIds) -> Result<FoundSigners, Memory>
        requires { ids.now ≡ env_signers envelope.now keys.now }
        ensures { IfOk result (λ found. (found.envelope ≡ envelope.now) × (found.keys ≡ keys.now)) }
    {
        let envelope = copied_envelope(envelope)?;
        let keys = keys.copy()?;
        let ids = ids.copy()?;
        Ok(FoundSigners {
            envelope,
            keys,
            ids,
        })
    }

    /// The ids, where it was found of this envelope and these keys.
    pub fn ids_of(&self, envelope: &Envelope, keys: &Keys) -> Option<&KeyIds>
        ensures { IfSome (option_copied result) (λ ids. ids ≡ env_signers envelope.now keys.now) }
    {
        if !self.envelope.is_same(envelope) {
            return None;
        }
        if !same_items(self.keys.as_slice(), keys.as_slice()) {
            return None;
        }
        Some(&self.ids)
    }
}
