//! The keys that the leaves of a top key sign, drawn from its identifier and seed.

ghost use Rattle.std.specs.Prelude.{◌≡◌, take};
ghost use Rattle.lmots.specs.Chain.{private_element};
ghost use Rattle.lms_keys.specs.Keeping.{IsBottom, types_of};
ghost use Rattle.lms_keys.specs.HssSecret.{bottom_of};

use crate::SecretKey;
use sha2::{Digest, Sha256};

// The numbers in place of a chain's under which an identifier and a seed are drawn: the randomizer has the one above.
const IDENTIFIER: u16 = 0xfffc;

const SEED: u16 = 0xfffb;

// What stands in place of a step's number where a value is drawn from the seed (RFC 8554, appendix A).
const START: u8 = 0xff;

// What is drawn for a leaf under a number that no chain has.
fn drawn(i: &[u8; 16], leaf: u32, number: u16, seed: &[u8; 32]) -> [u8; 32]
    ensures { result ≡ private_element i.now leaf number seed.now }
{
    let mut hasher = Sha256::new();
    hasher.update(i);
    hasher.update(leaf.to_be_bytes());
    hasher.update(number.to_be_bytes());
    hasher.update([START]);
    hasher.update(seed);
    hasher.finalize()
}

/// The identifier of the key below a leaf.
pub fn identifier_below(i: &[u8; 16], seed: &[u8; 32], leaf: u32) -> [u8; 16]
    ensures { result ≡ take 16 (private_element i.now leaf 0xfffc seed.now) }
{
    let value = drawn(i, leaf, IDENTIFIER, seed);
    let mut identifier = [0u8; 16];
    identifier.copy_from_slice(&value[..16]);
    identifier
}

/// The seed of the key below a leaf.
pub fn seed_below(i: &[u8; 16], seed: &[u8; 32], leaf: u32) -> [u8; 32]
    ensures { result ≡ private_element i.now leaf 0xfffb seed.now }
{
    drawn(i, leaf, SEED, seed)
}

/// Makes `last` the key below leaf `leaf`, in its own room, unless it is that key already.
pub fn stand_below(last: &mut SecretKey, at: u32, leaf: u32, i: &[u8; 16], seed: &[u8; 32])
    requires { IsBottom last.old i.now seed.now at }
    ensures { last.new ≡ bottom_of i.now seed.now (types_of last.old) leaf }
{
    if at != leaf {
        last.remake(identifier_below(i, seed, leaf), seed_below(i, seed, leaf));
    }
}
