//! Secret keys: the whole tree from a seed, and signatures with one of its leaves.

ghost use Rattle.std.specs.Prelude.{◌≡◌, ◌+◌, ◌*◌, ◌^◌, ◌<◌, ◌≤◌, ◌++◌, length, take, IfOk};
ghost use Rattle.lmots.specs.Chain.{joined};
ghost use Rattle.lms_keys.specs.LmsType.{height};
ghost use Rattle.lms_keys.specs.Tree.{tree_node};
ghost use Rattle.lms_keys.specs.Secret.{AreNodesFrom, path_in_table};

use crate::lms_type::LmsType;
use crate::nodes::{beside, inner_value, leaf_value};
use crate::public_key::PublicKey;
use lmots::pieces::put;
use lmots::{OtsType, public_of_eight, sign_ots};
use std::alloc::{AllocError, Global};
use std::marker::Model;

/// Why no key was made.
#[derive(Debug, Clone, Copy, PartialEq, Eq)]
pub enum MakeFault {
    /// A tree of more than 15 levels: its key would take too long to make.
    TooTall,
    /// Want of memory.
    Memory,
}

/// A secret key with its whole tree, drawn from a seed as in RFC 8554, appendix A. Contracts see
/// what it is drawn from.
#[derive(Drop)]
pub struct SecretKey {
    lms: LmsType,
    ots: OtsType,
    i: [u8; 16],
    seed: [u8; 32],
    // The values of the nodes by their numbers, from 1 on.
    nodes: Vec<[u8; 32]>,
}

impl Model for SecretKey {
    ghost use Rattle.lms_keys.specs.Secret.{HasTree, Secret};

    ghost Value = { Secret };

    ghost view = { λ s. record { lms = s.lms; ots = s.ots; i = s.i; seed = s.seed } };

    ghost invariant = { λ s. HasTree s.lms s.ots s.i s.seed s.nodes.items };
}

// The values of the leaf nodes, eight leaves at a time.
fn grow_leaves(lms: LmsType, ots: OtsType, i: &[u8; 16], seed: &[u8; 32], nodes: &mut [[u8; 32]])
    requires { length nodes.old ≡ 2 * 2 ^ height lms }
    ensures { AreNodesFrom lms ots i.now seed.now nodes.new (2 ^ height lms) }
{
    let leaves = lms.leaves();
    'groups: for group in (0..leaves / 8).rev() {
        let first = 8 * group;
        let keys = public_of_eight(ots, i, first, seed);
        'lanes: for lane in (0..8u32).rev() {
            let node = leaves + first + lane;
            nodes[node as usize] = leaf_value(i, node, &keys[lane as usize]);
        }
    }
}

// The value of one inner node, where those that are greater are there.
fn node_value(
    lms: LmsType,
    ots: OtsType,
    i: &[u8; 16],
    seed: &[u8; 32],
    nodes: &[[u8; 32]],
    node: u32,
) -> [u8; 32]
    requires low { 1 ≤ node }
    requires high { node < 2 ^ height lms }
    requires below { AreNodesFrom lms ots i.now seed.now nodes.now (node + 1) }
    ensures { result ≡ tree_node ots (height lms) i.now seed.now node }
{
    let left = 2 * node as usize;
    inner_value(i, node, &nodes[left], &nodes[left + 1])
}

// The values of all nodes.
fn fill(lms: LmsType, ots: OtsType, i: &[u8; 16], seed: &[u8; 32], nodes: &mut [[u8; 32]])
    requires { length nodes.old ≡ 2 * 2 ^ height lms }
    ensures { AreNodesFrom lms ots i.now seed.now nodes.new 1 }
{
    grow_leaves(lms, ots, i, seed, nodes);
    'nodes: for node in (1..lms.leaves()).rev() {
        let value = node_value(lms, ots, i, seed, nodes, node);
        nodes[node as usize] = value;
    }
}

// The values of all nodes, in room of their own.
fn grow(
    alloc: Global,
    lms: LmsType,
    ots: OtsType,
    i: &[u8; 16],
    seed: &[u8; 32],
) -> Result<Vec<[u8; 32]>, AllocError>
    ensures { IfOk result (λ nodes. AreNodesFrom lms ots i.now seed.now nodes.items 1) }
{
    let mut nodes = vec![in alloc; [0u8; 32]; 2 * lms.leaves() as usize]?;
    fill(lms, ots, i, seed, nodes.as_mut_slice());
    Ok(nodes)
}

// Writes the path of a leaf node: the node beside it, and that beside each one above it.
fn put_path(lms: LmsType, nodes: &[[u8; 32]], leaf: u32, out: &mut [u8], at: usize)
    requires low { 2 ^ height lms ≤ leaf }
    requires high { leaf < 2 * 2 ^ height lms }
    requires nodes { length nodes.now ≡ 2 * 2 ^ height lms }
    requires room { at + 32 * height lms ≤ length out.old }
    ensures { take (at + 32 * height lms) out.new
        ≡ take at out.old ++ joined (path_in_table nodes.now leaf) (height lms) }
{
    let mut node = leaf;
    'levels: for level in 0..lms.height() {
        put(out, at + 32 * level as usize, &nodes[beside(node) as usize]);
        node /= 2;
    }
}

impl SecretKey {
    ghost use Rattle.std.specs.Prelude.{◌≡◌, ◌^◌, ◌<◌, ◌↔◌, length, IfOk};
    ghost use Rattle.lms_keys.specs.LmsType.{height, signature_len};
    ghost use Rattle.lms_keys.specs.Secret.{public_key_of, signature};
    ghost use Rattle.lms_keys.specs.PublicKey.{key_bytes};
    ghost use Rattle.lms_keys.specs.Signature.{leaf_in};
    ghost use Rattle.lms_keys.specs.SigOk.{SigOk};

    /// Makes the key of these types with identifier `i`, from a seed. It hashes the whole tree,
    /// each hash once.
    ///
    /// `TooTall` comes for heights above 15, `Memory` for want of memory.
    pub fn of(
        alloc: Global,
        lms: LmsType,
        ots: OtsType,
        i: [u8; 16],
        seed: [u8; 32],
    ) -> Result<SecretKey, MakeFault>
        ensures ok { IfOk result (λ key. key ≡ record { lms = lms; ots = ots; i = i; seed = seed }) }
        ensures tall { (result ≡ Err MakeFault.TooTall) ↔ (15 < height lms) }
    {
        if lms.height() > 15 {
            return Err(MakeFault::TooTall);
        }
        let Ok(nodes) = grow(alloc, lms, ots, &i, &seed) else {
            return Err(MakeFault::Memory);
        };
        Ok(SecretKey {
            lms,
            ots,
            i,
            seed,
            nodes,
        })
    }

    /// Makes the key of the same types with another identifier and from another seed, in the room
    /// of this one. It hashes the whole tree and takes no memory.
    pub fn remake(&mut self, i: [u8; 16], seed: [u8; 32])
        ensures { self.new ≡ record { lms = self.old.lms; ots = self.old.ots; i = i; seed = seed } }
    {
        fill(self.lms, self.ots, &i, &seed, self.nodes.as_mut_slice());
        self.i = i;
        self.seed = seed;
    }

    /// The key's public part.
    pub fn public(&self) -> PublicKey
        ensures { result ≡ public_key_of self.now }
    {
        PublicKey {
            lms: self.lms,
            ots: self.ots,
            i: self.i,
            root: self.nodes[1],
        }
    }

    /// The bytes of each of the key's signatures.
    pub fn signature_len(&self) -> usize
        ensures { result ≡ signature_len self.now.lms self.now.ots }
    {
        self.lms.signature_len(self.ots)
    }

    /// The number of leaves, each of which may sign once.
    pub fn leaves(&self) -> u32
        ensures { result ≡ 2 ^ height self.now.lms }
    {
        self.lms.leaves()
    }

    /// Signs `message` with leaf `q` (RFC 8554, section 5.4.1). The caller sees to it that no
    /// leaf signs twice.
    pub fn sign_at(&self, q: u32, message: &[u8], out: &mut [u8])
        requires leaf { q < 2 ^ height self.now.lms }
        requires room { length out.old ≡ signature_len self.now.lms self.now.ots }
        ensures bytes { out.new ≡ signature self.now q message.now }
        ensures good { SigOk (key_bytes (public_key_of self.now)) message.now out.new }
        ensures leaf { leaf_in out.new ≡ q }
    {
        let len = self.ots.signature_len();
        put(out, 0, &q.to_be_bytes());
        sign_ots(
            self.ots,
            &self.i,
            q,
            &self.seed,
            message,
            &mut out[4..4 + len],
        );
        put(out, 4 + len, &self.lms.code().to_be_bytes());
        let leaf = self.lms.leaves() + q;
        put_path(self.lms, self.nodes.as_slice(), leaf, out, 8 + len);
    }
}
