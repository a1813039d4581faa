//! The policy of a demonstration: its two files, signed by key 0, and the commit that holds them.

ghost use Rattle.std.specs.Prelude.{◌≡◌, ◌<◌, ◌+◌, ◌∷◌, [], codes, IfOk, OnOk};
ghost use Rattle.git_object.specs.EntryParts.{entry_of};
ghost use Rattle.git_object.specs.Objects.{pair_id};
ghost use Rattle.git_object.specs.declared.modes.Mode.TheVariants as mode;
ghost use Rattle.metadata_writing.specs.Written.{file_text, root_text};
ghost use Rattle.demo.specs.Policies.{demo_root, demo_top, metadata_at, policy_file, policy_id, policy_objects};
ghost use Rattle.demo.specs.Trees.{tree_pair};

use crate::Keyring;
use crate::metadata::{demo_root, id_of, id_text};
use crate::rules::demo_top;
use crate::trees::{entry_of, keep, single, tree_object};
use dsse_envelope::{Envelope, Signature, Signatures, pae};
use git_object::{Kind, Mode, Object, ObjectId, Objects, Tree, TreeEntries};
use metadata_writing::{WriteFault, file_text, root_text};
use object_making::commit_object;
use octets::{Memory, Octets};
use std::alloc::Global;

// The type of what is signed.
const PAYLOAD_TYPE: &str = "application/vnd.gittuf+json";

// A payload in an envelope that key 0 signs, as a file.
fn policy_file(alloc: Global, keys: &mut Keyring, payload: Octets) -> Result<Object, Memory>
    requires { keys.old.zeroth < 1024 }
    ensures file { IfOk result (λ object. object ≡ policy_file keys.old.zeroth payload) }
    ensures next { OnOk result (keys.new ≡ record keys.old { zeroth = keys.old.zeroth + 1 }) }
{
    let message = pae(alloc, PAYLOAD_TYPE.as_bytes(), payload.as_slice())?;
    let keyid = id_text(alloc, &id_of(keys, 0))?;
    let sig = keys.sign(alloc, 0, message.as_slice())?;
    let mut signatures = Signatures::new(alloc);
    signatures.push(Signature { keyid, sig })?;
    let payload_type = Octets::from_slice(alloc, PAYLOAD_TYPE.as_bytes())?;
    let envelope = Envelope {
        payload_type,
        payload,
        signatures,
    };
    let text = envelope.write(alloc)?;
    let file = Object::new(alloc, Kind::Blob, text)?;
    Ok(file)
}

// The payload of the root.
fn root_payload(alloc: Global, keys: &Keyring) -> Result<Octets, Memory>
    ensures { IfOk result (λ text. text ≡ root_text demo_root) }
{
    let root = demo_root(alloc, keys)?;
    match root_text(alloc, &root) {
        Ok(text) => Ok(text),
        Err(WriteFault::Unwritable) => unreachable!(),
        Err(WriteFault::Memory) => Err(Memory),
    }
}

// The payload of the top file.
fn top_payload(alloc: Global, keys: &Keyring) -> Result<Octets, Memory>
    ensures { IfOk result (λ text. text ≡ file_text demo_top) }
{
    let top = demo_top(alloc, keys)?;
    match file_text(alloc, &top) {
        Ok(text) => Ok(text),
        Err(WriteFault::Unwritable) => unreachable!(),
        Err(WriteFault::Memory) => Err(Memory),
    }
}

// The tree of the two files.
fn metadata_tree(alloc: Global, root: ObjectId, top: ObjectId) -> Result<Object, Memory>
    ensures { IfOk result (λ object. object ≡ tree_pair (metadata_at root top)) }
{
    let mut entries = TreeEntries::new(alloc);
    entries.push(entry_of(alloc, Mode::File, b"root.json", root)?)?;
    entries.push(entry_of(alloc, Mode::File, b"targets.json", top)?)?;
    tree_object(alloc, &Tree { entries })
}

// The tree of the policy's commit.
fn policy_tree(alloc: Global, metadata: ObjectId) -> Result<Object, Memory>
    ensures { IfOk result (λ object. object ≡ tree_pair (entry_of mode.Dir (codes "metadata") metadata ∷ [])) }
{
    tree_object(alloc, &single(alloc, Mode::Dir, b"metadata", metadata)?)
}

/// Adds the policy's objects, which key 0 signs with its first two leaves, to none, and answers the id of its commit.
pub fn make_policy(
    alloc: Global,
    keys: &mut Keyring,
    objects: &mut Objects,
) -> Result<ObjectId, Memory>
    requires unused { keys.old ≡ record { zeroth = 0; first = 0; second = 0 } }
    requires none { objects.old ≡ [] }
    ensures objects { OnOk result (objects.new ≡ policy_objects) }
    ensures id { IfOk result (λ id. id ≡ policy_id) }
    ensures keys { OnOk result (keys.new ≡ record { zeroth = 2; first = 0; second = 0 }) }
{
    let payload = root_payload(alloc, keys)?;
    let root_file = policy_file(alloc, keys, payload)?;
    let root = keep(objects, root_file)?;
    let rules = top_payload(alloc, keys)?;
    let top_file = policy_file(alloc, keys, rules)?;
    let top = keep(objects, top_file)?;
    let metadata_object = metadata_tree(alloc, root, top)?;
    let metadata = keep(objects, metadata_object)?;
    let tree = policy_tree(alloc, metadata)?;
    let id = keep(objects, tree)?;
    let commit = commit_object(alloc, id, None, 0, b"snapshot\n")?;
    let policy = keep(objects, commit)?;
    Ok(policy)
}
