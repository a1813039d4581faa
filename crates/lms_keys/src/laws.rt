//! What holds of all keys.

ghost use Rattle.std.specs.Prelude.{◌≡◌, ◌↔◌, ◌+◌, ◌*◌, ◌^◌, ◌<◌, ◌≤◌, ℕ, List, true};
ghost use Rattle.lms_keys.specs.LmsType.{height};
ghost use Rattle.lms_keys.specs.OneLeaf.{OneLeaf, OtherMessage};
ghost use Rattle.lms_keys.specs.PublicKey.{OneKey};
ghost use Rattle.lms_keys.specs.Deciding.{is_good};
ghost use Rattle.lms_keys.specs.SigOk.{ByOneKey, SigOk};
ghost use Rattle.lms_keys.specs.Tree.{inner_value, leaf_of, tree_node};

use crate::lms_type::LmsType;
use lmots::OtsType;

/// The values of a tree's nodes meet the equations of RFC 8554, section 5.3: a leaf's is made of
/// its one-time public key, and an inner node's of the two below it.
pub fn tree(lms: LmsType, ots: OtsType, i: &[u8], seed: &[u8], node: u32)
    requires { 1 ≤ node }
    ensures leaf { 2 ^ height lms ≤ node
        → tree_node ots (height lms) i.now seed.now node ≡ leaf_of ots (height lms) i.now seed.now node }
    ensures inner { node < 2 ^ height lms
        → tree_node ots (height lms) i.now seed.now node
        ≡ inner_value i.now node (tree_node ots (height lms) i.now seed.now (2 * node))
        (tree_node ots (height lms) i.now seed.now (2 * node + 1)) }
{}

/// Two public keys that are written as the same bytes are one.
pub fn one_key()
    ensures { OneKey }
{}

/// By the bytes of an LMS key exactly those signatures are good that are good for the key.
pub fn by_one_key()
    ensures { ByOneKey }
{}

/// A signature is good exactly where the test on its bytes says so, whatever the three texts are.
pub fn decided()
    ensures { (public message s : List ℕ) → (is_good public message s ≡ true) ↔ SigOk public message s }
{}

/// Two good signatures of a key with one leaf lead to the same ends of its chains and have the same
/// path, or else in one step of both verdicts different strings are hashed, which have one SHA-256.
pub fn one_leaf()
    ensures { OneLeaf }
{}

/// Where two signatures of a key with one leaf are good for different messages, the second shows of
/// some chain a value from further back, whose walk leads to the one that the first shows, or else
/// two different strings that are hashed have one SHA-256: in one step of both verdicts, or on two
/// walks along a chain.
pub fn other_message()
    ensures { OtherMessage }
{}
