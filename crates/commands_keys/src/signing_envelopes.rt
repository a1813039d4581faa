//! Signing an envelope with the key file.

ghost use Rattle.std.specs.Prelude.{◌≡◌, ℕ, List, length, true, IfOk, IsUtf8, Ok, Some};
ghost use Rattle.octets.specs.Causes.{HasCause};
ghost use Rattle.edge_io.specs.Moments.{LeavesOnly};
ghost use Rattle.leaf_journal.specs.KeyFile.{KeepsUsed};
ghost use Rattle.leaf_journal.specs.Signing.{IsLoaded};
ghost use Rattle.lms_keys.specs.HssSecret.{signature_len};
ghost use Rattle.dsse_envelope.specs.Envelopes.{reading};
ghost use Rattle.dsse_envelope.specs.Sealing.{has_room, sealed};
ghost use Rattle.dsse_envelope.specs.Written.{HasTextId, text_of};
ghost use Rattle.commands_keys.specs.Seals.{IsSealable, id_text};
ghost use Rattle.commands_keys.specs.EnvelopeSigning.{SigningEnds, disk_failed, line_of};

use crate::{has_place, id_text, sealed, signed_text};
use dsse_envelope::{Envelope, Signature};
use edge_io::Disk;
use leaf_journal::{OpenFault, OpenKey, SignFault, open_key, use_leaf};
use octets::{Memory, Octets};
use std::alloc::Global;

/// Why an envelope was not signed.
#[derive(Clone, Copy, Debug, PartialEq, Eq)]
pub enum SigningFault {
    /// The key file was not opened. Nothing was signed.
    Unopened { fault: OpenFault },
    /// The envelope has 64 signatures, and none is of the file's key. Nothing was signed.
    Full,
    /// Each leaf of the key file is used. Nothing was signed.
    Exhausted,
    /// The disk failed. The byte of the first unused leaf may be any.
    DiskFailed,
    /// Memory was wanting before anything was signed.
    Memory,
    /// Memory was wanting behind the signature. The leaf is used.
    MemoryAfter,
}

// The line of an envelope with a signature in its place.
fn sealed_line(alloc: Global, envelope: Envelope, signature: Signature) -> Result<Octets, Memory>
    requires sealable { IsSealable envelope }
    requires id { HasTextId signature }
    requires place { has_room signature.keyid envelope.signatures ≡ true }
    ensures line { IfOk result (λ line. line ≡ line_of (sealed signature envelope)) }
    ensures reads_back { IfOk result
        (λ line. reading (text_of (sealed signature envelope)) ≡ Ok (sealed signature envelope)) }
{
    let envelope = sealed(alloc, envelope, signature)?;
    let mut line = envelope.write(alloc)?;
    line.append(b"\n")?;
    Ok(line)
}

// Signs an envelope with the first unused leaf of an open key, whose id has a place there.
fn sign_with<D: Disk>(
    alloc: Global,
    key: OpenKey,
    keyid: Octets,
    envelope: Envelope,
    disk: &mut D,
) -> Result<Octets, SigningFault>
    requires loaded { (file : List ℕ) → D.seen disk.old ≡ Some file → IsLoaded file key.signer }
    requires room { length key.room.items ≡ signature_len key.signer.secret }
    requires sealable { IsSealable envelope }
    requires id { keyid ≡ id_text key.signer.secret }
    requires utf8 { IsUtf8 keyid }
    requires place { has_room keyid envelope.signatures ≡ true }
    ensures ends { SigningEnds D.Disk envelope disk.old disk.new result }
    ensures any_moment { LeavesOnly D.moment D.left_since disk.old disk.new (KeepsUsed (D.may_leave disk.old)) }
    ensures cause { HasCause disk_failed (D.faults disk.old) (D.faults disk.new) result }
{
    let Ok(text) = signed_text(alloc, &envelope) else {
        return Err(SigningFault::Memory);
    };
    let sig = match use_leaf(key, disk, text.as_slice()) {
        Ok(sig) => sig,
        Err(SignFault::Exhausted) => return Err(SigningFault::Exhausted),
        Err(SignFault::Disk) => return Err(SigningFault::DiskFailed),
    };
    match sealed_line(alloc, envelope, Signature { keyid, sig }) {
        Ok(line) => Ok(line),
        Err(Memory) => Err(SigningFault::MemoryAfter),
    }
}

/// Opens the key file that a disk holds, signs an envelope with its first unused leaf, and gives the text of the
/// envelope with the signature in place of the first whose `keyid` is the key's id in lower-case hexadecimal, or else
/// at the end, and a line feed. A file that is none is refused before an envelope that is full, and that before a key
/// that is used up.
pub fn sign_envelope<D: Disk>(
    alloc: Global,
    envelope: Envelope,
    disk: &mut D,
) -> Result<Octets, SigningFault>
    requires sealable { IsSealable envelope }
    ensures ends { SigningEnds D.Disk envelope disk.old disk.new result }
    ensures any_moment { LeavesOnly D.moment D.left_since disk.old disk.new (KeepsUsed (D.may_leave disk.old)) }
    ensures cause { HasCause disk_failed (D.faults disk.old) (D.faults disk.new) result }
{
    let key = match open_key(alloc, disk) {
        Ok(key) => key,
        Err(fault) => return Err(SigningFault::Unopened { fault }),
    };
    let Ok(keyid) = id_text(alloc, &key) else {
        return Err(SigningFault::Memory);
    };
    if !has_place(keyid.as_slice(), envelope.signatures.as_slice()) {
        return Err(SigningFault::Full);
    }
    match sign_with(alloc, key, keyid, envelope, disk) {
        Ok(line) => Ok(line),
        Err(fault) => Err(fault),
    }
}
