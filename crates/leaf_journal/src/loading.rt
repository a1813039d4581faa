//! What a key file says, and which of its leaves are used.

ghost use Rattle.std.specs.Prelude.{◌≡◌, ◌+◌, ◌^◌, ◌≤◌, ℕ, List, length, drop, IfOk, IfErr, IsErrOf, OnOk, Some};
ghost use Rattle.octets.specs.Causes.{HasCause};
ghost use Rattle.edge_io.specs.Disk.{IsKept};
ghost use Rattle.edge_io.specs.Moments.{LeavesOnly};
ghost use Rattle.lms_keys.specs.LmsType.{height};
ghost use Rattle.lms_keys.specs.HssSecret.{height_below};
ghost use Rattle.leaf_journal.specs.Faults.{load_failed};
ghost use Rattle.leaf_journal.specs.KeyFile.{IsKeyFile};
ghost use Rattle.leaf_journal.specs.Loading.{Begins, WhyNotLoaded, secret_with};
ghost use Rattle.leaf_journal.specs.declared.faults.LoadFault.TheVariants as fault;

use crate::LoadFault;
use crate::first_free::first_free;
use crate::headers::{Header, read_header};
use edge_io::Disk;
use lms_keys::{Below, SigningKey};
use std::alloc::{AllocError, Global};

// Reads the first bytes of a file of `len` bytes, at least 64: 72 of them, or 64 where it has no more.
fn read_front<D: Disk>(disk: &mut D, len: u64, head: &mut [u8; 72]) -> Result<(), LoadFault>
    requires long { 64 ≤ len }
    requires size { (file : List ℕ) → D.seen disk.old ≡ Some file → length file ≡ len }
    ensures front { OnOk result ((file : List ℕ) → D.seen disk.new ≡ Some file → Begins head.new file) }
    ensures memory { IsErrOf result fault.Memory → ⊥ }
    ensures why { IfErr result (λ fault. (file : List ℕ) → D.seen disk.new ≡ Some file → WhyNotLoaded fault file) }
    ensures kept { IsKept (D.seen disk.old) (D.seen disk.new) (D.may_leave disk.old) (D.may_leave disk.new) }
    ensures any_moment { LeavesOnly D.moment D.left_since disk.old disk.new (D.may_leave disk.old) }
    ensures cause { HasCause load_failed (D.faults disk.old) (D.faults disk.new) result }
{
    if len < 72 {
        disk.read(0, &mut head[..64])?;
    } else {
        disk.read(0, head)?;
    }
    Ok(())
}

/// Reads the header of a key file of the right length, gives its types, and copies its identifier and seed out.
pub fn read_head<D: Disk>(
    disk: &mut D,
    i: &mut [u8; 16],
    seed: &mut [u8; 32],
) -> Result<Header, LoadFault>
    ensures head { IfOk result (λ header. (file : List ℕ) → D.seen disk.new ≡ Some file
        → IsKeyFile file (secret_with header i.new seed.new)) }
    ensures low { IfOk result (λ header. height header.lms + height_below header.below ≤ 15) }
    ensures memory { IsErrOf result fault.Memory → ⊥ }
    ensures why { IfErr result (λ fault. (file : List ℕ) → D.seen disk.new ≡ Some file → WhyNotLoaded fault file) }
    ensures kept { IsKept (D.seen disk.old) (D.seen disk.new) (D.may_leave disk.old) (D.may_leave disk.new) }
    ensures any_moment { LeavesOnly D.moment D.left_since disk.old disk.new (D.may_leave disk.old) }
    ensures cause { HasCause load_failed (D.faults disk.old) (D.faults disk.new) result }
{
    let len = disk.len()?;
    if len < 64 {
        return Err(LoadFault::WrongLength { len });
    }
    let mut head = [0u8; 72];
    match read_front(disk, len, &mut head) {
        Ok(()) => {}
        Err(fault) => return Err(fault),
    }
    read_header(&head, len, i, seed)
}

/// Reads the bytes of so many leaves, of which the first stands at `start`.
pub fn read_marks<D: Disk>(
    alloc: Global,
    disk: &mut D,
    start: u64,
    leaves: u64,
) -> Result<Vec<u8>, LoadFault>
    requires low { leaves ≤ 32768 }
    requires size { (file : List ℕ) → D.seen disk.old ≡ Some file → length file ≡ start + leaves }
    ensures marks { IfOk result (λ marks. (file : List ℕ) → D.seen disk.new ≡ Some file → marks.items ≡ drop start file) }
    ensures size { IfOk result (λ marks. length marks.items ≡ leaves) }
    ensures why { IfErr result (λ fault. (file : List ℕ) → D.seen disk.new ≡ Some file → WhyNotLoaded fault file) }
    ensures kept { IsKept (D.seen disk.old) (D.seen disk.new) (D.may_leave disk.old) (D.may_leave disk.new) }
    ensures any_moment { LeavesOnly D.moment D.left_since disk.old disk.new (D.may_leave disk.old) }
    ensures cause { HasCause load_failed (D.faults disk.old) (D.faults disk.new) result }
{
    let mut marks = vec![in alloc; 0u8; leaves as usize]?;
    disk.read(start, marks.as_mut_slice())?;
    Ok(marks)
}

// The leaf of the top key below which the first unused leaf stands, or the first where each is used.
fn first_above(below: Below, marks: &[u8]) -> u32 {
    match first_free(marks) {
        Some(place) => u32::try_from(place).unwrap_or(0) / below.lms.leaves(),
        None => 0,
    }
}

/// Makes the key of a header, and with two levels the key below of which the first unused leaf is one.
pub fn make_key(
    alloc: Global,
    header: &Header,
    i: [u8; 16],
    seed: [u8; 32],
    marks: &[u8],
) -> Result<SigningKey, AllocError>
    requires { height header.now.lms + height_below header.now.below ≤ 15 }
    ensures { IfOk result (λ key. key ≡ secret_with header.now i seed) }
{
    match header.below {
        None => SigningKey::of_one(alloc, header.lms, header.ots, i, seed),
        Some(below) => {
            let leaf = first_above(below, marks);
            SigningKey::of_two(alloc, header.lms, header.ots, i, seed, below, leaf)
        }
    }
}
