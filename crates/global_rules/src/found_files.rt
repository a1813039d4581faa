//! The file of global rules of a policy, as a store holds it.

ghost use Rattle.std.specs.Prelude.{◌≡◌, IfOk, Some};
ghost use Rattle.octets.specs.Causes.{HasCause};
ghost use Rattle.git_object.specs.Repository.{Repository};
ghost use Rattle.keeper_api.specs.Faults.{keeper_failed};
ghost use Rattle.keeper_api.specs.Undisturbed.{Undisturbed};
ghost use Rattle.approvals.specs.Lookups.{entry_in, is_file};
ghost use Rattle.policy_reading.specs.Signed.{envelope_in};
ghost use Rattle.tree_paths.specs.Readings.{Readings, Told};
ghost use Rattle.tree_paths.specs.Repositories.{readings_of};
ghost use Rattle.tree_paths.specs.Walks.{is_dir};
ghost use Rattle.global_rules.specs.Found.{by_bytes, by_envelope, by_value, found_file, global_path, is_of_type};
ghost use Rattle.global_rules.specs.Found.{is_signed};

use approvals::env_signers;
use dsse_envelope::{Envelope, EnvelopeFault};
use git_object::{Mode, ObjectId};
use keeper_api::{Keeper, KeeperFault};
use octets::Memory;
use root_metadata::{Root, count_in};
use rule_files::{GlobalFault, GlobalFile};
use std::alloc::Global;
use tree_paths::{Peeled, load_at, load_blob, root_of};

/// What stands for the global rules in the tree of a policy's target.
#[derive(Drop)]
pub enum FoundFile {
    /// Nothing stands at `global/rules.json`, or a directory.
    Absent,
    /// What stands there is no file of global rules that enough persons of the root role signed.
    Bad,
    /// The rules.
    There { file: GlobalFile },
}

fn is_of_type(envelope: &Envelope) -> bool
    ensures { result ≡ is_of_type envelope.now }
{
    envelope.payload_type.as_slice() == b"application/vnd.gittuf+json".as_slice()
}

// The envelope that a text is, where its payload is a policy's.
#[tactic(auto, unfolding(policy_reading::specs::Signed::envelope_in))]
fn envelope_in(alloc: Global, text: &[u8]) -> Result<Option<Envelope>, Memory>
    ensures { IfOk result (λ envelope. envelope ≡ envelope_in text.now) }
{
    match Envelope::read(alloc, text) {
        Ok(envelope) => {
            if is_of_type(&envelope) {
                Ok(Some(envelope))
            } else {
                Ok(None)
            }
        }
        Err(EnvelopeFault::Memory) => Err(Memory),
        Err(
            EnvelopeFault::NotJson
            | EnvelopeFault::MissingField
            | EnvelopeFault::BadCount { count: _ }
            | EnvelopeFault::BadBase64,
        ) => Ok(None),
    }
}

// Whether as many persons of the root role as it asks for signed an envelope, with keys of the root.
fn is_signed(alloc: Global, root: &Root, envelope: &Envelope) -> Result<bool, Memory>
    ensures { IfOk result (λ is. is ≡ is_signed root.now envelope.now) }
{
    let signers = env_signers(alloc, envelope, &root.keys)?;
    let got = count_in(&root.root.persons, &signers);
    Ok(root.root.threshold as usize <= got)
}

// What an envelope holds.
fn by_envelope(alloc: Global, root: &Root, envelope: &Envelope) -> Result<FoundFile, Memory>
    ensures { IfOk result (λ found. found ≡ by_envelope root.now (Some envelope.now)) }
{
    if !is_signed(alloc, root, envelope)? {
        return Ok(FoundFile::Bad);
    }
    match GlobalFile::read(alloc, envelope.payload.as_slice()) {
        Ok(file) => Ok(FoundFile::There { file }),
        Err(GlobalFault::Memory) => Err(Memory),
        Err(_) => Ok(FoundFile::Bad),
    }
}

// What the bytes of a file are.
fn by_bytes(alloc: Global, root: &Root, bytes: &[u8]) -> Result<FoundFile, Memory>
    ensures { IfOk result (λ found. found ≡ by_bytes root.now (Some bytes.now)) }
{
    match envelope_in(alloc, bytes)? {
        None => Ok(FoundFile::Bad),
        Some(envelope) => by_envelope(alloc, root, &envelope),
    }
}

fn is_file(mode: Mode) -> bool
    ensures { result ≡ is_file mode }
{
    match mode {
        Mode::File | Mode::Exec => true,
        Mode::Dir | Mode::Link | Mode::Module => false,
    }
}

fn is_dir(mode: Mode) -> bool
    ensures { result ≡ is_dir mode }
{
    match mode {
        Mode::Dir => true,
        Mode::File | Mode::Exec | Mode::Link | Mode::Module => false,
    }
}

// The mode and the id at the path of the rules in the tree of a target.
fn find_entry<R: Keeper>(
    alloc: Global,
    keeper: &mut R,
    target: &ObjectId,
) -> Result<Option<(Mode, ObjectId)>, KeeperFault>
    ensures found { IfOk result (λ found. (readings : Readings) → Told (R.content keeper.new) readings
        → found ≡ entry_in readings target.now global_path) }
    ensures same { Undisturbed R.Keeper keeper.old keeper.new }
    ensures cause { HasCause keeper_failed (R.faults keeper.old) (R.faults keeper.new) result }
{
    match root_of(alloc, keeper, target)? {
        Peeled::Nothing => Ok(None),
        Peeled::Bad(_) => Ok(None),
        Peeled::At { commit: _, tree } => {
            let found = load_at(alloc, keeper, &tree, b"global/rules.json")?;
            Ok(found)
        }
    }
}

fn find_own_entry<R: Keeper>(
    alloc: Global,
    keeper: &mut R,
    target: &ObjectId,
) -> Result<Option<(Mode, ObjectId)>, KeeperFault>
    ensures found { IfOk result (λ found. (r : Repository) → R.content keeper.new ≡ Some r
        → found ≡ entry_in (readings_of r) target.now global_path) }
    ensures same { Undisturbed R.Keeper keeper.old keeper.new }
    ensures cause { HasCause keeper_failed (R.faults keeper.old) (R.faults keeper.new) result }
{
    find_entry(alloc, keeper, target)
}

// What stands at a path that has a mode and an id.
fn by_value<R: Keeper>(
    alloc: Global,
    keeper: &mut R,
    root: &Root,
    mode: Mode,
    id: &ObjectId,
) -> Result<FoundFile, KeeperFault>
    ensures found { IfOk result (λ found. (r : Repository) → R.content keeper.new ≡ Some r
        → found ≡ by_value r root.now (Some (mode, id.now))) }
    ensures same { Undisturbed R.Keeper keeper.old keeper.new }
    ensures cause { HasCause keeper_failed (R.faults keeper.old) (R.faults keeper.new) result }
{
    if is_dir(mode) {
        return Ok(FoundFile::Absent);
    }
    if !is_file(mode) {
        return Ok(FoundFile::Bad);
    }
    match load_blob(alloc, keeper, id)? {
        None => Ok(FoundFile::Bad),
        Some(object) => Ok(by_bytes(alloc, root, object.body())?),
    }
}

/// The global rules of a policy of this root, in the tree of its target: what stands at `global/rules.json`, which is
/// to be a file, executable or not, of at most 1 MiB, an envelope of a policy's payload type that as many persons of
/// the root role signed as it asks for, with keys of the root, and whose payload is a file of global rules.
#[tactic(auto, unfolding(crate::specs::Found::found_file))]
pub fn find_file<R: Keeper>(
    alloc: Global,
    keeper: &mut R,
    root: &Root,
    target: &ObjectId,
) -> Result<FoundFile, KeeperFault>
    ensures found { IfOk result (λ found. (r : Repository) → R.content keeper.new ≡ Some r
        → found ≡ found_file r root.now target.now) }
    ensures same { Undisturbed R.Keeper keeper.old keeper.new }
    ensures cause { HasCause keeper_failed (R.faults keeper.old) (R.faults keeper.new) result }
{
    match find_own_entry(alloc, keeper, target)? {
        None => Ok(FoundFile::Absent),
        Some((mode, id)) => by_value(alloc, keeper, root, mode, &id),
    }
}
