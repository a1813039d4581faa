//! The history of a demonstration, change by change.

ghost use Rattle.std.specs.Prelude.{◌≡◌, ◌+◌, ◌<◌, ◌≤◌, ◌++◌, IfOk, OnOk};
ghost use Rattle.git_object.specs.Objects.{pair_id};
ghost use Rattle.demo.specs.Histories.{change_entry, demo_change, main_name, policy_entry, refs_at, uses_after};
ghost use Rattle.demo.specs.Policies.{policy_id};
ghost use Rattle.demo.specs.Standing.{IsAt};
ghost use Rattle.demo.specs.Trees.{keys_after, new_keys_tree, number_id, root_tree, src_after, tree_objects};

use crate::Keyring;
use crate::entries::{draft_of, signed_entry};
use crate::policies::make_policy;
use crate::trees::{
    entry_of, file_name, keep, keys_tree, number_file, root_tree, tree_object, writes_key,
};
use git_object::{Mode, Object, ObjectId, Objects, RefFault, RefName, Tree, TreeEntries};
use keeper_api::{Change, RefChange, RefChanges};
use object_making::{commit_object, put_entry};
use octets::Memory;
use std::alloc::Global;

// The history up to a change: all objects, the keys, the trees that are to change, and where branch and log stand.
#[derive(Drop)]
struct History {
    objects: Objects,
    keys: Keyring,
    files: Files,
    main: Option<ObjectId>,
    tip: ObjectId,
}

/// The branch.
pub fn main_name(alloc: Global) -> Result<RefName, Memory>
    ensures { IfOk result (λ name. name ≡ main_name) }
{
    match RefName::read(alloc, b"refs/heads/main") {
        Ok(name) => Ok(name),
        Err(RefFault::BadRef) => unreachable!(),
        Err(RefFault::Memory) => Err(Memory),
    }
}

// Writes the number of the change after `done` into its file below src/, which has the id already.
fn write_src(alloc: Global, done: u64, file: ObjectId, src: &mut Tree) -> Result<(), Memory>
    requires src { src.old.entries ≡ src_after done }
    requires file { file ≡ number_id (done + 1) }
    requires few { done < 500 }
    ensures { OnOk result (src.new.entries ≡ src_after (done + 1)) }
{
    let name = file_name(alloc, done + 1)?;
    let entry = entry_of(alloc, Mode::File, name.as_slice(), file)?;
    let entries = put_entry(alloc, src.entries.as_slice(), entry)?;
    src.entries = entries;
    Ok(())
}

// Writes the number into keys/k too, where the change does.
fn write_keys(
    alloc: Global,
    done: u64,
    file: ObjectId,
    key_files: &mut Option<ObjectId>,
    objects: &mut Objects,
) -> Result<(), Memory>
    requires key_files { key_files.old ≡ keys_after done }
    requires file { file ≡ number_id (done + 1) }
    requires few { done < 500 }
    ensures key_files { OnOk result (key_files.new ≡ keys_after (done + 1)) }
    ensures objects { OnOk result (objects.new ≡ objects.old ++ new_keys_tree (done + 1)) }
{
    if !writes_key(done + 1) {
        return Ok(());
    }
    let tree = keys_tree(alloc, file)?;
    let id = keep(objects, tree)?;
    *key_files = Some(id);
    Ok(())
}

// The trees of the files that are to change.
#[derive(Drop)]
struct Files {
    src: Tree,
    keys: Option<ObjectId>,
}

// Adds the blob and the trees of the change after `done`, and answers the id of the root's tree.
fn write_trees(
    alloc: Global,
    done: u64,
    files: &mut Files,
    objects: &mut Objects,
) -> Result<ObjectId, Memory>
    requires src { files.old.src.entries ≡ src_after done }
    requires keys { files.old.keys ≡ keys_after done }
    requires few { done < 500 }
    ensures objects { OnOk result (objects.new ≡ objects.old ++ tree_objects (done + 1)) }
    ensures src { OnOk result (files.new.src.entries ≡ src_after (done + 1)) }
    ensures keys { OnOk result (files.new.keys ≡ keys_after (done + 1)) }
    ensures root { IfOk result (λ root. root ≡ pair_id (root_tree (done + 1))) }
{
    let blob = number_file(alloc, done + 1)?;
    let file = keep(objects, blob)?;
    write_keys(alloc, done, file, &mut files.keys, objects)?;
    write_src(alloc, done, file, &mut files.src)?;
    let src_tree = tree_object(alloc, &files.src)?;
    let src = keep(objects, src_tree)?;
    let tree = root_tree(alloc, &files.keys, src)?;
    let root = keep(objects, tree)?;
    Ok(root)
}

// The entry that records a change, after the log's last one, where the branch stands at the change's commit.
fn record_change(
    alloc: Global,
    done: u64,
    keys: &mut Keyring,
    tip: ObjectId,
    main: ObjectId,
) -> Result<Object, Memory>
    requires keys { keys.old ≡ uses_after done }
    requires few { done < 500 }
    ensures keys { OnOk result (keys.new ≡ uses_after (done + 1)) }
    ensures entry { IfOk result (λ object. object ≡ change_entry (done + 1) (uses_after done) tip main) }
{
    let number = done + 1;
    let name = main_name(alloc)?;
    let draft = draft_of(alloc, number + 1, Some(tip), number, name, main)?;
    let entry = signed_entry(alloc, keys, number % 3, &draft)?;
    Ok(entry)
}

// The history after a change more.
fn add_change(alloc: Global, done: u64, history: &mut History) -> Result<(), Memory>
    requires at { IsAt done history.old }
    requires few { done < 500 }
    ensures { OnOk result (IsAt (done + 1) history.new) }
{
    let root = write_trees(alloc, done, &mut history.files, &mut history.objects)?;
    let commit = commit_object(alloc, root, history.main, done + 1, b"snapshot\n")?;
    let main = keep(&mut history.objects, commit)?;
    let entry = record_change(alloc, done, &mut history.keys, history.tip, main)?;
    let tip = keep(&mut history.objects, entry)?;
    history.tip = tip;
    history.main = Some(main);
    Ok(())
}

// The entry that records the policy.
fn record_policy(alloc: Global, keys: &mut Keyring, policy: ObjectId) -> Result<Object, Memory>
    requires { keys.old ≡ record { zeroth = 2; first = 0; second = 0 } }
    ensures keys { OnOk result (keys.new ≡ uses_after 0) }
    ensures entry { IfOk result (λ object. policy ≡ policy_id → object ≡ policy_entry) }
{
    let name = RefName::of_policy(alloc)?;
    let draft = draft_of(alloc, 1, None, 0, name, policy)?;
    let entry = signed_entry(alloc, keys, 0, &draft)?;
    Ok(entry)
}

// The history before the first change, and the id of the policy's commit.
fn start(alloc: Global) -> Result<(History, ObjectId), Memory>
    ensures at { IfOk result (λ started. IsAt 0 started.0) }
    ensures policy { IfOk result (λ started. started.1 ≡ policy_id) }
{
    let mut keys = Keyring::make(alloc)?;
    let mut objects = Objects::new(alloc);
    let policy = make_policy(alloc, &mut keys, &mut objects)?;
    let entry = record_policy(alloc, &mut keys, policy)?;
    let tip = keep(&mut objects, entry)?;
    let history = History {
        objects,
        keys,
        files: Files {
            src: Tree {
                entries: TreeEntries::new(alloc),
            },
            keys: None,
        },
        main: None,
        tip,
    };
    Ok((history, policy))
}

// Where the three references are to stand.
fn refs_of(
    alloc: Global,
    main: Option<ObjectId>,
    policy: ObjectId,
    tip: ObjectId,
) -> Result<RefChanges, Memory>
    ensures { IfOk result (λ refs. refs ≡ refs_at main policy tip) }
{
    let mut refs = RefChanges::new(alloc);
    refs.push(RefChange {
        name: main_name(alloc)?,
        to: main,
    })?;
    refs.push(RefChange {
        name: RefName::of_policy(alloc)?,
        to: Some(policy),
    })?;
    refs.push(RefChange {
        name: RefName::of_log(alloc)?,
        to: Some(tip),
    })?;
    Ok(refs)
}

/// The change that makes the repository of a demonstration of so many changes, 500 at most, of nothing. It takes some
/// seconds at most, and memory for all the objects.
pub fn make_change(alloc: Global, count: u32) -> Result<Change, Memory>
    requires { count ≤ 500 }
    ensures { IfOk result (λ change. change ≡ demo_change count) }
{
    let (mut history, policy) = start(alloc)?;
    'changes: for done in 0..u64::from(count) {
        add_change(alloc, done, &mut history)?;
    }
    let refs = refs_of(alloc, history.main, policy, history.tip)?;
    Ok(Change {
        objects: history.objects,
        refs,
    })
}
