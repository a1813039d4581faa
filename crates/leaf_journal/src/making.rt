//! A new key file.

ghost use Rattle.std.specs.Prelude.{◌≡◌, ◌+◌, ◌<◌, ◌≤◌, ◌↔◌, [], ℕ, List, length, IfOk, OnOk, OnErr, IsErrOf, Some};
ghost use Rattle.std.specs.Prelude.{None};
ghost use Rattle.octets.specs.Causes.{HasCause, each};
ghost use Rattle.edge_io.specs.Disk.{IsKept, Written};
ghost use Rattle.edge_io.specs.Moments.{LeavesOnly};
ghost use Rattle.lms_keys.specs.LmsType.{height};
ghost use Rattle.lms_keys.specs.Secret.{public_key_of};
ghost use Rattle.lms_keys.specs.HssSecret.{height_below, public_bytes};
ghost use Rattle.lms_keys.specs.declared.below.Below.{Below};
ghost use Rattle.leaf_journal.specs.Faults.{create_failed};
ghost use Rattle.leaf_journal.specs.KeyFile.{IsNewKeyFile, KeepsUsed};
ghost use Rattle.leaf_journal.specs.Loading.{secret_with};
ghost use Rattle.leaf_journal.specs.Making.{IsCutShort, IsSpared, MayBeNew, size_of};
ghost use Rattle.leaf_journal.specs.declared.faults.CreateFault.TheVariants as fault;

use crate::CreateFault;
use crate::headers::{Header, leaves_of, write_header};
use edge_io::{Disk, Failed};
use lmots::OtsType;
use lms_keys::{Below, LmsType, PublicKey, SecretKey, hss_public};
use octets::Octets;
use std::alloc::{AllocError, Global};

// The bytes of a new key file.
fn new_file(
    alloc: Global,
    header: &Header,
    i: &[u8; 16],
    seed: &[u8; 32],
) -> Result<Vec<u8>, AllocError>
    requires { height header.now.lms + height_below header.now.below ≤ 15 }
    ensures { IfOk result (λ file. IsNewKeyFile (secret_with header.now i.now seed.now) file.items) }
{
    let start = header.start() as usize;
    let mut file = vec![in alloc; 0u8; start + leaves_of(header.height()) as usize]?;
    let (head, _) = file.as_mut_slice().split_at_mut(start);
    write_header(header, i, seed, head);
    Ok(file)
}
// Writes what an empty disk is to hold, and makes it last.
fn write_whole<D: Disk>(disk: &mut D, bytes: &[u8]) -> Result<(), Failed>
    requires { (file : List ℕ) → D.seen disk.old ≡ Some file → file ≡ [] }
    ensures only { OnOk result ((c : List ℕ) → D.may_leave disk.new c → c ≡ bytes.now) }
    ensures file { OnOk result ((c : List ℕ) → D.seen disk.new ≡ Some c → (c ≡ bytes.now) × (D.seen disk.old ≡ Some [])) }
    ensures cut { OnErr result (IsCutShort D.Disk disk.old disk.new (length bytes.now)) }
    ensures any_moment { LeavesOnly D.moment D.left_since disk.old disk.new (MayBeNew D.Disk disk.old) }
    ensures cause { HasCause each (D.faults disk.old) (D.faults disk.new) result }
{
    disk.write_at(0, bytes)?;
    disk.sync()?;
    Ok(())
}

// That the disk holds nothing.
fn expect_empty<D: Disk>(disk: &mut D) -> Result<(), CreateFault>
    ensures empty { OnOk result ((file : List ℕ) → D.seen disk.new ≡ Some file → file ≡ []) }
    ensures tall { IsErrOf result fault.TooTall → ⊥ }
    ensures memory { IsErrOf result fault.Memory → ⊥ }
    ensures not_empty { (len : ℕ) → IsErrOf result (fault.NotEmpty len) → (file : List ℕ) → D.seen disk.new ≡ Some file
        → (len ≡ length file) × (0 < len) }
    ensures kept { IsKept (D.seen disk.old) (D.seen disk.new) (D.may_leave disk.old) (D.may_leave disk.new) }
    ensures any_moment { LeavesOnly D.moment D.left_since disk.old disk.new (D.may_leave disk.old) }
    ensures cause { HasCause create_failed (D.faults disk.old) (D.faults disk.new) result }
{
    let len = disk.len()?;
    if len != 0 {
        return Err(CreateFault::NotEmpty { len });
    }
    Ok(())
}

/// Writes the key file of a new key of one level, of which no leaf is used, to a disk that holds nothing, and answers
/// the key's public part. The key is drawn from an identifier, which RFC 8554 calls I, and a seed.
///
/// `TooTall` comes exactly for more than 15 levels, and `NotEmpty` exactly where the disk holds something; then, and at
/// `Memory`, the disk is as it was. After `Disk` it is so too, or it held nothing and may hold a part of the file, with
/// any bytes. After Ok a crash leaves the file and nothing else. A leaf that was used in all that a crash might have
/// left is used in all that one may leave at any moment of the call.
pub fn create<D: Disk>(
    alloc: Global,
    disk: &mut D,
    lms: LmsType,
    ots: OtsType,
    i: [u8; 16],
    seed: [u8; 32],
) -> Result<PublicKey, CreateFault>
    ensures key { IfOk result (λ key. key ≡ public_key_of (record { lms = lms; ots = ots; i = i; seed = seed })) }
    ensures only { OnOk result ((c : List ℕ) → D.may_leave disk.new c
        → IsNewKeyFile (record { top = record { lms = lms; ots = ots; i = i; seed = seed }; below = None }) c) }
    ensures file { OnOk result ((c : List ℕ) → D.seen disk.new ≡ Some c
        → IsNewKeyFile (record { top = record { lms = lms; ots = ots; i = i; seed = seed }; below = None }) c) }
    ensures one { OnOk result ((a b : List ℕ) → D.may_leave disk.new a → D.may_leave disk.new b → a ≡ b) }
    ensures was { OnOk result ((c : List ℕ) → D.seen disk.new ≡ Some c → D.seen disk.old ≡ Some []) }
    ensures tall { IsErrOf result fault.TooTall ↔ (15 < height lms) }
    ensures not_empty { (len : ℕ) → IsErrOf result (fault.NotEmpty len) → (file : List ℕ) → D.seen disk.new ≡ Some file
        → (len ≡ length file) × (0 < len) }
    ensures memory { IsErrOf result fault.Memory → (file : List ℕ) → D.seen disk.new ≡ Some file → file ≡ [] }
    ensures untouched { OnErr result ((IsErrOf result fault.Disk → ⊥)
        → IsKept (D.seen disk.old) (D.seen disk.new) (D.may_leave disk.old) (D.may_leave disk.new)) }
    ensures spared { IsErrOf result fault.Disk
        → IsSpared D.Disk disk.old disk.new
        (size_of (record { top = record { lms = lms; ots = ots; i = i; seed = seed }; below = None })) }
    ensures any_moment { LeavesOnly D.moment D.left_since disk.old disk.new (KeepsUsed (D.may_leave disk.old)) }
    ensures cause { HasCause create_failed (D.faults disk.old) (D.faults disk.new) result }
{
    if lms.height() > 15 {
        return Err(CreateFault::TooTall);
    }
    match expect_empty(disk) {
        Ok(()) => {}
        Err(fault) => return Err(fault),
    }
    let header = Header {
        lms,
        ots,
        below: None,
    };
    let file = new_file(alloc, &header, &i, &seed)?;
    let Ok(key) = SecretKey::of(alloc, lms, ots, i, seed) else {
        return Err(CreateFault::Memory);
    };
    write_whole(disk, file.as_slice())?;
    Ok(key.public())
}

// The 60 bytes of the public key of two levels with this top key.
fn public_of_two(
    alloc: Global,
    lms: LmsType,
    ots: OtsType,
    i: [u8; 16],
    seed: [u8; 32],
) -> Result<Octets, AllocError>
    requires { height lms ≤ 15 }
    ensures long { IfOk result (λ bytes. length bytes ≡ 60) }
    ensures key { IfOk result (λ bytes. (below : Below)
        → bytes ≡ public_bytes (record {
          top = record { lms = lms; ots = ots; i = i; seed = seed };
          below = Some below;
        })) }
{
    let Ok(key) = SecretKey::of(alloc, lms, ots, i, seed) else {
        return Err(AllocError);
    };
    match Octets::from_slice(alloc, hss_public(&key.public()).as_slice()) {
        Ok(bytes) => Ok(bytes),
        Err(_) => Err(AllocError),
    }
}

/// Writes the key file of a new key of two levels, as `create` does of one: the keys below have `bottom` for their
/// tree, and all have one-time keys of one type. It answers the 60 bytes of the public key (RFC 8554, section 6.1).
///
/// `TooTall` comes exactly where the two heights add up to more than 15; the others come as from `create`.
pub fn create_two<D: Disk>(
    alloc: Global,
    disk: &mut D,
    top: LmsType,
    bottom: LmsType,
    ots: OtsType,
    i: [u8; 16],
    seed: [u8; 32],
) -> Result<Octets, CreateFault>
    ensures long { IfOk result (λ bytes. length bytes ≡ 60) }
    ensures key { IfOk result (λ bytes. bytes
        ≡ public_bytes (record {
          top = record { lms = top; ots = ots; i = i; seed = seed };
          below = Some (record { lms = bottom; ots = ots });
        })) }
    ensures only { OnOk result ((c : List ℕ) → D.may_leave disk.new c
        → IsNewKeyFile (record {
          top = record { lms = top; ots = ots; i = i; seed = seed };
          below = Some (record { lms = bottom; ots = ots });
        }) c) }
    ensures file { OnOk result ((c : List ℕ) → D.seen disk.new ≡ Some c
        → IsNewKeyFile (record {
          top = record { lms = top; ots = ots; i = i; seed = seed };
          below = Some (record { lms = bottom; ots = ots });
        }) c) }
    ensures one { OnOk result ((a b : List ℕ) → D.may_leave disk.new a → D.may_leave disk.new b → a ≡ b) }
    ensures was { OnOk result ((c : List ℕ) → D.seen disk.new ≡ Some c → D.seen disk.old ≡ Some []) }
    ensures tall { IsErrOf result fault.TooTall ↔ (15 < height top + height bottom) }
    ensures not_empty { (len : ℕ) → IsErrOf result (fault.NotEmpty len) → (file : List ℕ) → D.seen disk.new ≡ Some file
        → (len ≡ length file) × (0 < len) }
    ensures memory { IsErrOf result fault.Memory → (file : List ℕ) → D.seen disk.new ≡ Some file → file ≡ [] }
    ensures untouched { OnErr result ((IsErrOf result fault.Disk → ⊥)
        → IsKept (D.seen disk.old) (D.seen disk.new) (D.may_leave disk.old) (D.may_leave disk.new)) }
    ensures spared { IsErrOf result fault.Disk
        → IsSpared D.Disk disk.old disk.new
        (size_of (record {
          top = record { lms = top; ots = ots; i = i; seed = seed };
          below = Some (record { lms = bottom; ots = ots });
        })) }
    ensures any_moment { LeavesOnly D.moment D.left_since disk.old disk.new (KeepsUsed (D.may_leave disk.old)) }
    ensures cause { HasCause create_failed (D.faults disk.old) (D.faults disk.new) result }
{
    if top.height() + bottom.height() > 15 {
        return Err(CreateFault::TooTall);
    }
    match expect_empty(disk) {
        Ok(()) => {}
        Err(fault) => return Err(fault),
    }
    let header = Header {
        lms: top,
        ots,
        below: Some(Below { lms: bottom, ots }),
    };
    let file = new_file(alloc, &header, &i, &seed)?;
    let public = public_of_two(alloc, top, ots, i, seed)?;
    write_whole(disk, file.as_slice())?;
    Ok(public)
}
