//! What was found of envelopes, row by row.

ghost use Rattle.std.specs.Prelude.{◌≡◌, ◌<◌, length, IfOk, IfSome};
ghost use Rattle.std.specs.Option.{option_copied};
ghost use Rattle.approvals.specs.Signers.{env_signers};

use crate::found::FoundSigners;
use approvals::env_signers;
use dsse_envelope::{Envelope, Signature};
use octets::Memory;
use root_metadata::{KeyIds, Keys};
use std::alloc::Global;
use std::marker::Model;

// The most rows, and the most bytes of what they are of.
const MOST_ROWS: usize = 4096;

const MOST_BYTES: usize = 67_108_864;

/// What was found of envelopes: at most 4,096 rows. Where there is no room for one more, all are let go first.
#[derive(Drop)]
pub struct Rows {
    rows: Vec<FoundSigners>,
    bytes: usize,
}

impl Model for Rows {
    ghost use Rattle.std.specs.Prelude.{◌≤◌, List, length};
    ghost use Rattle.known_signers.specs.Asked.{Asked};

    ghost Value = { List Asked };

    ghost view = { λ r. r.rows.items };

    ghost invariant = { λ r. length r.rows.items ≤ 4096 };
}

fn bytes_of_signatures(signatures: &[Signature]) -> usize {
    let mut bytes: usize = 0;
    'signatures: for signature in signatures {
        bytes = bytes
            .saturating_add(signature.keyid.len())
            .saturating_add(signature.sig.len());
    }
    bytes
}

// About how many bytes an envelope and keys take.
fn bytes_of(envelope: &Envelope, keys: &Keys) -> usize {
    envelope
        .payload
        .len()
        .saturating_add(bytes_of_signatures(envelope.signatures.as_slice()))
        .saturating_add(keys.len().saturating_mul(128))
}

impl Rows {
    /// None. It takes no memory.
    pub fn new(alloc: Global) -> Rows {
        Rows {
            rows: Vec::new(alloc),
            bytes: 0,
        }
    }

    // The ids that were found of an envelope and keys.
    fn find(&self, envelope: &Envelope, keys: &Keys) -> Option<&KeyIds>
        ensures { IfSome (option_copied result) (λ ids. ids ≡ env_signers envelope.now keys.now) }
    {
        'rows: for row in self.rows.as_slice() {
            if let Some(ids) = row.ids_of(envelope, keys) {
                return Some(ids);
            }
        }
        None
    }

    // Lets all rows go where there is no room for one more of so many bytes.
    fn make_room(&mut self, bytes: usize)
        ensures { length self.new < 4096 }
    {
        if self.rows.len() < MOST_ROWS && self.bytes.saturating_add(bytes) <= MOST_BYTES {
            return;
        }
        self.rows.clear();
        self.bytes = 0;
    }

    // Keeps what was found. After a want of memory it may have let go what it kept.
    fn keep(&mut self, envelope: &Envelope, keys: &Keys, ids: &KeyIds) -> Result<(), Memory>
        requires { ids.now ≡ env_signers envelope.now keys.now }
    {
        let bytes = bytes_of(envelope, keys);
        self.make_room(bytes);
        let row = FoundSigners::of(envelope, keys, ids)?;
        self.rows.push(row)?;
        self.bytes = self.bytes.saturating_add(bytes);
        Ok(())
    }

    /// The ids of those of the keys that signed an envelope. What was found of both before is not checked again.
    pub fn signers(
        &mut self,
        alloc: Global,
        envelope: &Envelope,
        keys: &Keys,
    ) -> Result<KeyIds, Memory>
        ensures { IfOk result (λ ids. ids ≡ env_signers envelope.now keys.now) }
    {
        if let Some(ids) = self.find(envelope, keys) {
            return ids.copy();
        }
        let ids = env_signers(alloc, envelope, keys)?;
        let _kept = self.keep(envelope, keys, &ids);
        Ok(ids)
    }
}
