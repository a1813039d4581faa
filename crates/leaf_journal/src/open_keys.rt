//! A key file that is open, and one signature with it.

ghost use Rattle.std.specs.Prelude.{◌≡◌, ℕ, List, length, IfOk, IfErr, Some};
ghost use Rattle.octets.specs.Causes.{HasCause};
ghost use Rattle.edge_io.specs.Disk.{IsKept};
ghost use Rattle.edge_io.specs.Moments.{LeavesOnly};
ghost use Rattle.leaf_journal.specs.Faults.{sign_failed};
ghost use Rattle.leaf_journal.specs.KeyFile.{KeepsUsed};
ghost use Rattle.leaf_journal.specs.Signing.{IsLoaded};
ghost use Rattle.lms_keys.specs.HssSecret.{public_bytes, signature_len};
ghost use Rattle.leaf_journal.specs.Opening.{WhyUnopened, open_failed, opened_fault};
ghost use Rattle.leaf_journal.specs.Using.{UseEnds};

use crate::{LoadFault, SignFault, Signer};
use edge_io::Disk;
use octets::Octets;
use std::alloc::Global;

/// Why a key file was not opened.
#[derive(Clone, Copy, Debug, PartialEq, Eq)]
pub enum OpenFault {
    /// What the disk holds is no key file.
    KeyFile,
    /// The disk failed.
    DiskFailed,
    Memory,
}

/// A key file that is open, with room for one signature.
#[derive(Drop)]
pub struct OpenKey {
    signer: Signer,
    room: Vec<u8>,
}

impl OpenKey {
    /// The public key: 56 bytes of one level (RFC 8554, section 5.3), or 60 of two (section 6.1).
    pub fn public_bytes(&self) -> &[u8]
        ensures { result.now ≡ public_bytes self.now.signer.secret }
    {
        self.signer.public_bytes()
    }

    /// The number of bytes of a signature by this key.
    pub fn signature_len(&self) -> usize
        ensures { result ≡ signature_len self.now.signer.secret }
    {
        self.signer.signature_len()
    }
}

// What a refusal of the journal is here.
fn open_fault(fault: LoadFault) -> OpenFault
    ensures { result ≡ opened_fault fault }
{
    match fault {
        LoadFault::WrongLength { len: _ } => OpenFault::KeyFile,
        LoadFault::BadHeader => OpenFault::KeyFile,
        LoadFault::Disk => OpenFault::DiskFailed,
        LoadFault::Memory => OpenFault::Memory,
    }
}

/// Opens the key file that a disk holds, and takes the memory for one signature. The disk is as it was.
pub fn open_key<D: Disk>(alloc: Global, disk: &mut D) -> Result<OpenKey, OpenFault>
    ensures loaded { IfOk result (λ key. (file : List ℕ) → D.seen disk.new ≡ Some file → IsLoaded file key.signer) }
    ensures room { IfOk result (λ key. length key.room.items ≡ signature_len key.signer.secret) }
    ensures why { IfErr result (λ fault. (file : List ℕ) → D.seen disk.new ≡ Some file → WhyUnopened fault file) }
    ensures kept { IsKept (D.seen disk.old) (D.seen disk.new) (D.may_leave disk.old) (D.may_leave disk.new) }
    ensures any_moment { LeavesOnly D.moment D.left_since disk.old disk.new (D.may_leave disk.old) }
    ensures cause { HasCause open_failed (D.faults disk.old) (D.faults disk.new) result }
{
    let signer = match Signer::load(alloc, disk) {
        Ok(signer) => signer,
        Err(fault) => return Err(open_fault(fault)),
    };
    match vec![in alloc; 0u8; signer.signature_len()] {
        Ok(room) => Ok(OpenKey { signer, room }),
        Err(_) => Err(OpenFault::Memory),
    }
}

/// Signs with the first unused leaf of the file, which is used from then on. The disk has to be as it was opened.
///
/// `Exhausted` comes exactly where every leaf is used, and leaves the disk as it was. After `Disk` the byte of the
/// first unused leaf may be any. It takes no memory.
pub fn use_leaf<D: Disk>(key: OpenKey, disk: &mut D, message: &[u8]) -> Result<Octets, SignFault>
    requires loaded { (file : List ℕ) → D.seen disk.old ≡ Some file → IsLoaded file key.signer }
    requires room { length key.room.items ≡ signature_len key.signer.secret }
    ensures ends { UseEnds D.Disk key.signer.secret message.now disk.old disk.new result }
    ensures long { IfOk result (λ signature. length signature ≡ signature_len key.signer.secret) }
    ensures any_moment { LeavesOnly D.moment D.left_since disk.old disk.new (KeepsUsed (D.may_leave disk.old)) }
    ensures cause { HasCause sign_failed (D.faults disk.old) (D.faults disk.new) result }
{
    let OpenKey {
        mut signer,
        mut room,
    } = key;
    match signer.sign(disk, message, room.as_mut_slice()) {
        Ok(_) => Ok(Octets::from_vec(room)),
        Err(SignFault::Exhausted) => Err(SignFault::Exhausted),
        Err(SignFault::Disk) => Err(SignFault::Disk),
    }
}
