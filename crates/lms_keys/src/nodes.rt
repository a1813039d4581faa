//! The values of a tree's nodes, numbered from the root, which is 1 (RFC 8554, section 5.3).

ghost use Rattle.std.specs.Prelude.{◌≡◌, ◌+◌, ◌*◌, ◌^◌, ◌<◌, length};
ghost use Rattle.lms_keys.specs.Tree.{leaf_value, inner_value, above, beside, climbed, sibling_in};

use lmots::pieces::block_at;
use sha2::{Digest, Sha256};

// What tags the hash of a leaf, and of two nodes.
const LEAF_TAG: u16 = 0x8282;

const INNER_TAG: u16 = 0x8383;

// The value of leaf node `node`, from its one-time public key.
pub(crate) fn leaf_value(i: &[u8; 16], node: u32, key: &[u8; 32]) -> [u8; 32]
    ensures { result ≡ leaf_value i.now node key.now }
{
    let mut hasher = Sha256::new();
    hasher.update(i);
    hasher.update(node.to_be_bytes());
    hasher.update(LEAF_TAG.to_be_bytes());
    hasher.update(key);
    hasher.finalize()
}

// The value of inner node `node`, from the two nodes below it.
pub(crate) fn inner_value(i: &[u8; 16], node: u32, left: &[u8; 32], right: &[u8; 32]) -> [u8; 32]
    ensures { result ≡ inner_value i.now node left.now right.now }
{
    let mut hasher = Sha256::new();
    hasher.update(i);
    hasher.update(node.to_be_bytes());
    hasher.update(INNER_TAG.to_be_bytes());
    hasher.update(left);
    hasher.update(right);
    hasher.finalize()
}

// The other node below the one that `node` stands below.
pub(crate) fn beside(node: u32) -> u32
    requires { node + 1 < 2 ^ 32 }
    ensures { result ≡ beside node }
{
    if node % 2 == 0 { node + 1 } else { node - 1 }
}

// The value of the node above `node`.
fn above(i: &[u8; 16], node: u32, value: &[u8; 32], sibling: &[u8; 32]) -> [u8; 32]
    ensures { result ≡ above i.now node value.now sibling.now }
{
    if node % 2 == 0 {
        inner_value(i, node / 2, value, sibling)
    } else {
        inner_value(i, node / 2, sibling, value)
    }
}

// The value that is reached from `leaf` along the path, whose siblings stand in it one after
// another.
#[tactic(auto, using(crate::proofs::Climbing::climbed_none, crate::proofs::Climbing::climbed_more, crate::proofs::Climbing::halved_more))]
pub(crate) fn climb(i: &[u8; 16], leaf: u32, value: [u8; 32], path: &[u8], height: u32) -> [u8; 32]
    requires { length path.now ≡ 32 * height }
    ensures { result ≡ climbed i.now leaf value (sibling_in path.now) height }
{
    let mut value = value;
    let mut node = leaf;
    'levels: for level in 0..height {
        value = above(i, node, &value, &block_at(path, 32 * level as usize));
        node /= 2;
    }
    value
}
