//! The command `key-gen`.

ghost use Rattle.std.specs.Prelude.{◌≡◌, ◌≤◌, ◌+◌, [], IfErr, None, OnErr, OnOk, Some};
ghost use Rattle.std.specs.Vec.{vec_capacity};
ghost use Rattle.octets.specs.Causes.{HasCause, each};
ghost use Rattle.octets.specs.Content.{with_front};
ghost use Rattle.edge_io.specs.Moments.{LeavesOnly};
ghost use Rattle.worlds.specs.Counts.{Faults, IsCounted};
ghost use Rattle.lms_keys.specs.LmsType.{height};
ghost use Rattle.lms_keys.specs.HssSecret.{public_bytes};
ghost use Rattle.leaf_journal.specs.Faults.{create_failed};
ghost use Rattle.leaf_journal.specs.KeyFile.{KeepsUsed};
ghost use Rattle.commands_keys.specs.KeyLines.{key_line};
ghost use Rattle.commands_keys.specs.MakingKeys.{DrewPart, IsFiled, IsLow, KeyGenEnds, WhyUnmade, key_gen_ending};
ghost use Rattle.commands_keys.specs.MakingKeys.{secret_of};

use crate::key_lines::{KEY_LINE, write_key_line};
use edge_io::{Disk, Entropy, Failed, Sink, write_all};
use leaf_journal::{CreateFault, create, create_two};
use lmots::OtsType;
use lms_keys::LmsType;
use std::alloc::Global;
use worlds::{Ending, Part, Refusal};

/// Why no key was made, or none was told.
#[derive(Clone, Copy, Debug, PartialEq, Eq)]
pub enum KeyGenFault {
    /// The disk holds something already.
    NotEmpty,
    EntropyFailed,
    DiskFailed,
    /// The key was made, and could not be told.
    SinkFailed,
    Memory,
}

/// How the program ends.
pub fn key_gen_ending(outcome: &Result<(), KeyGenFault>) -> Ending
    ensures { result ≡ key_gen_ending outcome.now }
{
    let refusal = match outcome {
        Ok(()) => return Ending::Done,
        Err(KeyGenFault::NotEmpty) => Refusal::NotEmpty,
        Err(KeyGenFault::EntropyFailed) => Refusal::Fault {
            part: Part::Entropy,
        },
        Err(KeyGenFault::DiskFailed) => Refusal::Fault { part: Part::Disk },
        Err(KeyGenFault::SinkFailed) => Refusal::Fault { part: Part::Sink },
        Err(KeyGenFault::Memory) => Refusal::Memory,
    };
    Ending::Refused { refusal }
}

// Draws an identifier, and then a seed.
fn draw<E: Entropy>(entropy: &mut E, i: &mut [u8; 16], seed: &mut [u8; 32]) -> Result<(), Failed>
    ensures drawn { OnOk result (E.left entropy.old ≡ with_front i.new (with_front seed.new (E.left entropy.new))) }
    ensures part { OnErr result (DrewPart (E.left entropy.old) (E.left entropy.new)) }
    ensures cause { HasCause each (E.faults entropy.old) (E.faults entropy.new) result }
{
    entropy.fill(i)?;
    entropy.fill(seed)?;
    Ok(())
}

// Makes a key of one level and its file, and writes the line that tells it.
fn make_one<D: Disk>(
    alloc: Global,
    lms: LmsType,
    ots: OtsType,
    disk: &mut D,
    i: [u8; 16],
    seed: [u8; 32],
    line: &mut Vec<u8>,
) -> Result<(), CreateFault>
    requires low { height lms ≤ 15 }
    requires empty { line.old.items ≡ [] }
    requires room { 190 ≤ vec_capacity line.old }
    ensures filed { OnOk result (IsFiled D.Disk disk.old disk.new (secret_of lms ots None i seed)) }
    ensures told { OnOk result (line.new.items ≡ key_line (public_bytes (secret_of lms ots None i seed))) }
    ensures unmade { IfErr result (WhyUnmade D.Disk disk.old disk.new (secret_of lms ots None i seed)) }
    ensures any_moment { LeavesOnly D.moment D.left_since disk.old disk.new (KeepsUsed (D.may_leave disk.old)) }
    ensures cause { HasCause create_failed (D.faults disk.old) (D.faults disk.new) result }
{
    match create(alloc, disk, lms, ots, i, seed) {
        Ok(public) => {
            write_key_line(&public.write(), line);
            Ok(())
        }
        Err(fault) => Err(fault),
    }
}

// Makes a key of two levels and its file, and writes the line that tells it.
fn make_two<D: Disk>(
    alloc: Global,
    lms: LmsType,
    bottom: LmsType,
    ots: OtsType,
    disk: &mut D,
    i: [u8; 16],
    seed: [u8; 32],
    line: &mut Vec<u8>,
) -> Result<(), CreateFault>
    requires low { height lms + height bottom ≤ 15 }
    requires empty { line.old.items ≡ [] }
    requires room { 190 ≤ vec_capacity line.old }
    ensures filed { OnOk result (IsFiled D.Disk disk.old disk.new (secret_of lms ots (Some bottom) i seed)) }
    ensures told { OnOk result (line.new.items ≡ key_line (public_bytes (secret_of lms ots (Some bottom) i seed))) }
    ensures unmade { IfErr result (WhyUnmade D.Disk disk.old disk.new (secret_of lms ots (Some bottom) i seed)) }
    ensures any_moment { LeavesOnly D.moment D.left_since disk.old disk.new (KeepsUsed (D.may_leave disk.old)) }
    ensures cause { HasCause create_failed (D.faults disk.old) (D.faults disk.new) result }
{
    match create_two(alloc, disk, lms, bottom, ots, i, seed) {
        Ok(public) => {
            write_key_line(public.as_slice(), line);
            Ok(())
        }
        Err(fault) => Err(fault),
    }
}

// Makes a key and its file, with two levels where the height of the trees below is told.
fn make<D: Disk>(
    alloc: Global,
    lms: LmsType,
    ots: OtsType,
    bottom: Option<LmsType>,
    disk: &mut D,
    i: [u8; 16],
    seed: [u8; 32],
    line: &mut Vec<u8>,
) -> Result<(), CreateFault>
    requires low { IsLow lms bottom }
    requires empty { line.old.items ≡ [] }
    requires room { 190 ≤ vec_capacity line.old }
    ensures filed { OnOk result (IsFiled D.Disk disk.old disk.new (secret_of lms ots bottom i seed)) }
    ensures told { OnOk result (line.new.items ≡ key_line (public_bytes (secret_of lms ots bottom i seed))) }
    ensures unmade { IfErr result (WhyUnmade D.Disk disk.old disk.new (secret_of lms ots bottom i seed)) }
    ensures any_moment { LeavesOnly D.moment D.left_since disk.old disk.new (KeepsUsed (D.may_leave disk.old)) }
    ensures cause { HasCause create_failed (D.faults disk.old) (D.faults disk.new) result }
{
    match bottom {
        None => make_one(alloc, lms, ots, disk, i, seed, line),
        Some(bottom) => make_two(alloc, lms, bottom, ots, disk, i, seed, line),
    }
}

/// Makes the key of these types, from an identifier and a seed that are drawn in this order, on a disk that holds
/// nothing, and prints its id and its public key. With `bottom` the key has two levels, and that is the type of the
/// trees below. `NotEmpty` comes exactly where the disk holds something, which it keeps, also where it fails. The
/// memory for the line is taken before anything is drawn, and 48 bytes are drawn at most.
pub fn key_gen<K: Sink, D: Disk, E: Entropy>(
    alloc: Global,
    lms: LmsType,
    ots: OtsType,
    bottom: Option<LmsType>,
    sink: &mut K,
    disk: &mut D,
    entropy: &mut E,
) -> Result<(), KeyGenFault>
    requires low { IsLow lms bottom }
    ensures ends { KeyGenEnds D.Disk lms ots bottom (E.left entropy.old) (E.left entropy.new) disk.old disk.new
        (K.contents sink.old) (K.contents sink.new) result }
    ensures any_moment { LeavesOnly D.moment D.left_since disk.old disk.new (KeepsUsed (D.may_leave disk.old)) }
    ensures counted { (rest : Faults) → IsCounted (key_gen_ending result)
        (record rest { sink = K.faults sink.old; disk = D.faults disk.old; entropy = E.faults entropy.old })
        (record rest { sink = K.faults sink.new; disk = D.faults disk.new; entropy = E.faults entropy.new }) }
{
    let Ok(mut line) = Vec::with_capacity(alloc, KEY_LINE) else {
        return Err(KeyGenFault::Memory);
    };
    let (mut i, mut seed) = ([0u8; 16], [0u8; 32]);
    match draw(entropy, &mut i, &mut seed) {
        Ok(()) => {}
        Err(Failed) => return Err(KeyGenFault::EntropyFailed),
    }
    match make(alloc, lms, ots, bottom, disk, i, seed, &mut line) {
        Ok(()) => {}
        Err(CreateFault::TooTall) => unreachable!(),
        Err(CreateFault::NotEmpty { len: _ }) => return Err(KeyGenFault::NotEmpty),
        Err(CreateFault::Disk) => return Err(KeyGenFault::DiskFailed),
        Err(CreateFault::Memory) => return Err(KeyGenFault::Memory),
    }
    match write_all(sink, line.as_slice()) {
        Ok(()) => Ok(()),
        Err(Failed) => Err(KeyGenFault::SinkFailed),
    }
}
