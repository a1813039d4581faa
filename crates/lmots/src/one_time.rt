//! One-time keys and signatures: made from a seed, and judged by the key that a signature leads to.

ghost use Rattle.std.specs.Prelude.{◌≡◌, ◌↔◌, ℕ, ◌+◌, ◌-◌, ◌^◌, ◌<◌, ◌≤◌, List, [], length, slice_index};
ghost use Rattle.std.specs.Prelude.{slice_index_or, IsOk, IfOk};
ghost use Rattle.lmots.specs.OtsType.{chain_count, signature_len, width};
ghost use Rattle.lmots.specs.Chain.{private_element, steps};
ghost use Rattle.lmots.specs.OnWay.{AreOnWay, IsTable};
ghost use Rattle.lmots.specs.OneTime.{public_key, signature, candidate, element_in, key_of, IsOfType, HasBadLength};
ghost use Rattle.lmots.specs.OneTime.{HasBadType};

use crate::digits::digits_of;
use crate::hashes::{key_hasher, message_digest, private_element};
use crate::on_way::{Chains, begin, end_of, no_chains};
use crate::ots_type::OtsType;
use crate::pieces::{block_at, number_at, put};
use crate::side_by_side::{ends_of_leaves, starts_with};
use crate::turns::walk_all;
use sha2::Digest;

// The number in place of a chain's under which the randomizer is drawn from the seed.
const RANDOMIZER: u16 = 0xfffd;

/// Why bytes are no signature of a type.
#[derive(Debug, Clone, Copy, PartialEq, Eq)]
pub enum OtsFault {
    /// Fewer than 4 bytes, or the type's code and not the type's length.
    BadLength,
    /// The first 4 bytes are not the type's code.
    BadType,
}

// The chains of leaf `q` at their starts, which are drawn from the seed, each to go on until `to`.
fn chains_from_seed(kind: OtsType, i: &[u8; 16], q: u32, seed: &[u8; 32], to: &[u8; 265]) -> Chains
    ensures table { IsTable result.at result.to result.values }
    ensures on { AreOnWay i.now q (chain_count kind) (λ chain. steps i.now q chain 0 (slice_index to.now chain)
        (private_element i.now q chain seed.now)) result.at result.to result.values }
{
    let mut chains = no_chains();
    let mut starts = [[0u8; 32]; 8];
    'chains: for chain in 0..kind.chain_count() {
        let made = starts_with(i, q, seed, chain, starts);
        let place = chain as usize;
        begin(&mut chains, place, 0, to[place], made[place % 8]);
        starts = made;
    }
    chains
}

// The chains that a signature shows, each as far along as its digit says, to go on to their ends.
pub(crate) fn chains_shown(kind: OtsType, signature: &[u8], digits: &[u8; 265]) -> Chains
    requires long { length signature.now ≡ signature_len kind }
    requires low { (chain : ℕ) → chain < chain_count kind → slice_index digits.now chain ≤ 2 ^ width kind - 1 }
    ensures table { IsTable result.at result.to result.values }
    ensures on { (i : List ℕ) (q : ℕ)
        → AreOnWay i q (chain_count kind) (λ chain. steps i q chain (slice_index digits.now chain)
        (2 ^ width kind - 1 - slice_index digits.now chain) (element_in signature.now chain)) result.at result.to result.values }
{
    let mut chains = no_chains();
    'chains: for chain in 0..kind.chain_count() as usize {
        begin(
            &mut chains,
            chain,
            digits[chain],
            kind.top(),
            block_at(signature, 36 + 32 * chain),
        );
    }
    chains
}

// The key to which the ends of a leaf's chains lead.
fn key_of_ends(kind: OtsType, i: &[u8; 16], q: u32, chains: &Chains) -> [u8; 32]
    requires table { IsTable chains.now.at chains.now.to chains.now.values }
    ensures { (z : ℕ → List ℕ) → AreOnWay i.now q (chain_count kind) z chains.now.at chains.now.to chains.now.values
        → result ≡ key_of kind i.now q z }
{
    let mut hasher = key_hasher(i, q);
    'chains: for chain in 0..kind.chain_count() {
        hasher.update(end_of(i, q, chains, chain));
    }
    hasher.finalize()
}

/// The public key of leaf `q` (RFC 8554, section 4.3), whose private key is drawn from `seed` as in
/// appendix A.
pub fn public_of(kind: OtsType, i: &[u8; 16], q: u32, seed: &[u8; 32]) -> [u8; 32]
    ensures { result ≡ public_key kind i.now q seed.now }
{
    let mut chains = chains_from_seed(kind, i, q, seed, &[kind.top(); 265]);
    walk_all(kind, i, q, &mut chains);
    key_of_ends(kind, i, q, &chains)
}

/// The public keys of leaf `q` and the seven after it, as `public_of` makes each, in less than
/// half the time.
pub fn public_of_eight(kind: OtsType, i: &[u8; 16], q: u32, seed: &[u8; 32]) -> [[u8; 32]; 8]
    requires { q + 8 ≤ 2 ^ 32 }
    ensures { (k : ℕ) → k < 8 → slice_index_or result k [] ≡ public_key kind i.now (q + k) seed.now }
{
    let mut hasher0 = key_hasher(i, q);
    let mut hasher1 = key_hasher(i, q + 1);
    let mut hasher2 = key_hasher(i, q + 2);
    let mut hasher3 = key_hasher(i, q + 3);
    let mut hasher4 = key_hasher(i, q + 4);
    let mut hasher5 = key_hasher(i, q + 5);
    let mut hasher6 = key_hasher(i, q + 6);
    let mut hasher7 = key_hasher(i, q + 7);
    'chains: for chain in 0..kind.chain_count() {
        let ends = ends_of_leaves(kind, i, q, seed, chain);
        hasher0.update(ends[0]);
        hasher1.update(ends[1]);
        hasher2.update(ends[2]);
        hasher3.update(ends[3]);
        hasher4.update(ends[4]);
        hasher5.update(ends[5]);
        hasher6.update(ends[6]);
        hasher7.update(ends[7]);
    }
    [
        hasher0.finalize(),
        hasher1.finalize(),
        hasher2.finalize(),
        hasher3.finalize(),
        hasher4.finalize(),
        hasher5.finalize(),
        hasher6.finalize(),
        hasher7.finalize(),
    ]
}

/// Signs `message` with the key of leaf `q` (RFC 8554, section 4.5). The randomizer is drawn from
/// the seed too.
pub fn sign_ots(
    kind: OtsType,
    i: &[u8; 16],
    q: u32,
    seed: &[u8; 32],
    message: &[u8],
    out: &mut [u8],
)
    requires { length out.old ≡ signature_len kind }
    ensures { out.new ≡ signature kind i.now q seed.now message.now }
{
    let randomizer = private_element(i, q, RANDOMIZER, seed);
    let digest = message_digest(i, q, &randomizer, message);
    let mut chains = chains_from_seed(kind, i, q, seed, &digits_of(kind, &digest));
    walk_all(kind, i, q, &mut chains);
    put(out, 0, &kind.code().to_be_bytes());
    put(out, 4, &randomizer);
    'chains: for chain in 0..kind.chain_count() {
        let value = end_of(i, q, &chains, chain);
        put(out, 36 + 32 * chain as usize, &value);
    }
}

// The key that the chains of a signature lead to.
fn candidate_of(kind: OtsType, i: &[u8; 16], q: u32, message: &[u8], signature: &[u8]) -> [u8; 32]
    requires { length signature.now ≡ signature_len kind }
    ensures { result ≡ candidate kind i.now q message.now signature.now }
{
    let digest = message_digest(i, q, &block_at(signature, 4), message);
    let mut chains = chains_shown(kind, signature, &digits_of(kind, &digest));
    walk_all(kind, i, q, &mut chains);
    key_of_ends(kind, i, q, &chains)
}

/// The candidate for the public key of leaf `q`, from a signature of `message` (RFC 8554, section
/// 4.6): the signature is good exactly where it is the public key.
///
/// `BadLength` comes where there are fewer than 4 bytes, then `BadType` where these are not the
/// type's code, then `BadLength` where the length is not the type's.
pub fn candidate_key(
    kind: OtsType,
    i: &[u8; 16],
    q: u32,
    message: &[u8],
    signature: &[u8],
) -> Result<[u8; 32], OtsFault>
    ensures ok { IsOk result ↔ IsOfType kind signature.now }
    ensures key { IfOk result (λ key. key ≡ candidate kind i.now q message.now signature.now) }
    ensures length { (result ≡ Err OtsFault.BadLength) ↔ HasBadLength kind signature.now }
    ensures code { (result ≡ Err OtsFault.BadType) ↔ HasBadType kind signature.now }
{
    if signature.len() < 4 {
        return Err(OtsFault::BadLength);
    }
    if number_at(signature, 0) != kind.code() {
        return Err(OtsFault::BadType);
    }
    if signature.len() != kind.signature_len() {
        return Err(OtsFault::BadLength);
    }
    Ok(candidate_of(kind, i, q, message, signature))
}
