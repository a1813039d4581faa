//! Opening a key file and signing one message.

ghost use Rattle.std.specs.Prelude.{◌≡◌, ℕ, List};
ghost use Rattle.octets.specs.Causes.{HasCause};
ghost use Rattle.edge_io.specs.Moments.{LeavesOnly};
ghost use Rattle.leaf_journal.specs.KeyFile.{KeepsUsed};
ghost use Rattle.leaf_journal.specs.KeySigning.{SignEnds, key_failed};

use crate::SignFault;
use crate::open_keys::{OpenFault, open_key, use_leaf};
use edge_io::Disk;
use octets::Octets;
use std::alloc::Global;

/// Why nothing was signed.
#[derive(Clone, Copy, Debug, PartialEq, Eq)]
pub enum KeyFault {
    /// The key file was not opened, and no leaf is used.
    Unopened { fault: OpenFault },
    /// The key file was opened.
    Unsigned { fault: SignFault },
}

/// A signature, and the bytes of the public key of the key that made it.
#[derive(Drop)]
pub struct Signed {
    pub public: Octets,
    pub signature: Octets,
}

/// Opens the key file that a disk holds, and signs with its first unused leaf. The memory is taken before the leaf is
/// used.
pub fn sign_message<D: Disk>(
    alloc: Global,
    disk: &mut D,
    message: &[u8],
) -> Result<Signed, KeyFault>
    ensures ends { SignEnds D.Disk message.now disk.old disk.new result }
    ensures any_moment { LeavesOnly D.moment D.left_since disk.old disk.new (KeepsUsed (D.may_leave disk.old)) }
    ensures cause { HasCause key_failed (D.faults disk.old) (D.faults disk.new) result }
{
    let key = match open_key(alloc, disk) {
        Ok(key) => key,
        Err(fault) => return Err(KeyFault::Unopened { fault }),
    };
    let Ok(public) = Octets::from_slice(alloc, key.public_bytes()) else {
        return Err(KeyFault::Unopened {
            fault: OpenFault::Memory,
        });
    };
    match use_leaf(key, disk, message) {
        Ok(signature) => Ok(Signed { public, signature }),
        Err(SignFault::Exhausted) => Err(KeyFault::Unsigned {
            fault: SignFault::Exhausted,
        }),
        Err(SignFault::Disk) => Err(KeyFault::Unsigned {
            fault: SignFault::Disk,
        }),
    }
}
