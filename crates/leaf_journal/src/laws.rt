//! What holds of all runs of a key.

ghost use Rattle.leaf_journal.specs.Runs.{LeavesOnce, in_use};

use edge_io::Disk;

/// In every run of a key over a disk the leaves that signed are distinct: signers are opened, leaves sign or fail, and
/// a stop comes before any next opening. `Signer::load` that is Ok is an opening, and `Signer::sign` that answers Ok
/// or `Disk` a leaf that signed or failed.
pub fn leaves_once<D: Disk>()
    ensures { LeavesOnce (in_use D.Disk) }
{}
