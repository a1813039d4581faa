//! The three keys of a demonstration.

ghost use Rattle.std.specs.Prelude.{◌≡◌, ◌<◌, IfOk, OnOk};
ghost use Rattle.demo.specs.Journals.{uses_of, with_use};
ghost use Rattle.demo.specs.Keys.{demo_key, public_bytes, signed_by};

use crate::journals::Journal;
use octets::{Memory, Octets};
use std::alloc::Global;
use std::marker::Model;

/// The keys of the numbers 0 to 2.
#[derive(Drop)]
pub struct Keyring {
    zeroth: Journal,
    first: Journal,
    second: Journal,
}

impl Model for Keyring {
    ghost use Rattle.demo.specs.Journals.{Uses};

    ghost Value = { Uses };

    ghost use Rattle.std.specs.Prelude.{◌≡◌};
    ghost use Rattle.demo.specs.Keys.{demo_key};

    ghost view = { λ s. record { zeroth = s.zeroth.used; first = s.first.used; second = s.second.used } };

    ghost invariant = { λ s. (s.zeroth.secret ≡ demo_key 0) × (s.first.secret ≡ demo_key 1) × (s.second.secret ≡ demo_key 2) };
}

impl Keyring {
    /// The keys, of which none has signed.
    pub fn make(alloc: Global) -> Result<Keyring, Memory>
        ensures { IfOk result (λ keys. keys ≡ record { zeroth = 0; first = 0; second = 0 }) }
    {
        Ok(Keyring {
            zeroth: Journal::make(alloc, 0)?,
            first: Journal::make(alloc, 1)?,
            second: Journal::make(alloc, 2)?,
        })
    }

    /// The 56 bytes of a key's public part, by the key's number.
    #[tactic(auto, unfolding(crate::specs::Keys::public_bytes))]
    pub fn public(&self, key: u64) -> &[u8]
        requires { key < 3 }
        ensures { result.now ≡ public_bytes key }
    {
        if key == 0 {
            return self.zeroth.public();
        }
        if key == 1 {
            return self.first.public();
        }
        self.second.public()
    }

    /// Signs by the key of a number, with its first leaf that is not used, and uses it. After a refusal it may be used.
    pub fn sign(&mut self, alloc: Global, key: u64, message: &[u8]) -> Result<Octets, Memory>
        requires key { key < 3 }
        requires free { uses_of key self.old < 1024 }
        ensures signed { IfOk result (λ signed. signed ≡ signed_by (demo_key key) (uses_of key self.old) message.now) }
        ensures next { OnOk result (self.new ≡ with_use key self.old) }
    {
        if key == 0 {
            return self.zeroth.sign(alloc, message);
        }
        if key == 1 {
            return self.first.sign(alloc, message);
        }
        self.second.sign(alloc, message)
    }
}
