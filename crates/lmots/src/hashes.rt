//! The messages that are hashed (RFC 8554, sections 4.2 to 4.6).

ghost use Rattle.std.specs.Prelude.{◌≡◌, ◌++◌, [], ◌∷◌};
ghost use Rattle.std.specs.Int.{w16, w32, to_be_bytes};
ghost use Rattle.sha2.specs.Sha256.{sha256};
ghost use Rattle.sha2.specs.Hashers.{Holds256};
ghost use Rattle.lmots.specs.Chain.{head, private_element};
ghost use Rattle.lmots.specs.OneTime.{message_digest};

use crate::pieces::put;
use sha2::{Digest, Sha256};

// What tags the hash of a message, and of the ends of all chains.
const MESSAGE_TAG: u16 = 0x8181;

const KEY_TAG: u16 = 0x8080;

// What stands in place of a step's number where a chain's start is drawn from the seed.
pub(crate) const START: u8 = 0xff;

// A chain's identifier, leaf and number, with which each message of its steps begins.
pub(crate) fn head(i: &[u8; 16], q: u32, chain: u16) -> [u8; 22]
    ensures { result ≡ head i.now q chain }
{
    let mut bytes = [0u8; 22];
    put(&mut bytes, 0, i);
    put(&mut bytes, 16, &q.to_be_bytes());
    put(&mut bytes, 20, &chain.to_be_bytes());
    bytes
}

// The 55 bytes of one step, in one piece: a hasher that is fed the parts takes longer.
#[inline(always)]
fn step_message(head: &[u8; 22], step: u8, value: &[u8; 32]) -> [u8; 55]
    ensures { result ≡ head.now ++ step ∷ [] ++ value.now }
{
    let mut message = [0u8; 55];
    put(&mut message, 0, head);
    put(&mut message, 22, &[step]);
    put(&mut message, 23, value);
    message
}

pub(crate) fn step_hash(head: &[u8; 22], step: u8, value: &[u8; 32]) -> [u8; 32]
    ensures { result ≡ sha256 (head.now ++ step ∷ [] ++ value.now) }
{
    Sha256::digest(step_message(head, step, value))
}

// A chain's start or, at 0xfffd, the randomizer, from the seed.
pub(crate) fn private_element(i: &[u8; 16], q: u32, chain: u16, seed: &[u8; 32]) -> [u8; 32]
    ensures { result ≡ private_element i.now q chain seed.now }
{
    step_hash(&head(i, q, chain), START, seed)
}

// The digest of a message that is signed.
pub(crate) fn message_digest(i: &[u8; 16], q: u32, randomizer: &[u8], message: &[u8]) -> [u8; 32]
    ensures { result ≡ message_digest i.now q randomizer.now message.now }
{
    let mut hasher = Sha256::new();
    hasher.update(i);
    hasher.update(q.to_be_bytes());
    hasher.update(MESSAGE_TAG.to_be_bytes());
    hasher.update(randomizer);
    hasher.update(message);
    hasher.finalize()
}

// A hasher that is to take the ends of all chains.
pub(crate) fn key_hasher(i: &[u8; 16], q: u32) -> Sha256
    ensures { Holds256 result (i.now ++ to_be_bytes w32 q ++ to_be_bytes w16 0x8080) }
{
    let mut hasher = Sha256::new();
    hasher.update(i);
    hasher.update(q.to_be_bytes());
    hasher.update(KEY_TAG.to_be_bytes());
    hasher
}
