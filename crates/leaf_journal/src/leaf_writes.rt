//! One leaf's byte on a disk.

ghost use Rattle.std.specs.Prelude.{◌≡◌, ◌+◌, ◌<◌, ◌≤◌, ◌∷◌, [], ℕ, List, length, OnOk, Some};
ghost use Rattle.octets.specs.Causes.{HasCause, each};
ghost use Rattle.octets.specs.Content.{Told};
ghost use Rattle.edge_io.specs.Disk.{Only, Torn, Written};
ghost use Rattle.edge_io.specs.Moments.{LeavesOnly};
ghost use Rattle.leaf_journal.specs.Signing.{IsTornImage};

use edge_io::{Disk, Failed};

/// Writes the byte of a leaf that is used, in a file whose leaves begin at `start`, and makes it last. After `Failed`
/// its byte may be any.
pub fn write_leaf<D: Disk>(disk: &mut D, start: u64, leaf: u32) -> Result<(), Failed>
    requires near { start ≤ 72 }
    requires inside { (file : List ℕ) → D.seen disk.old ≡ Some file → start + leaf < length file }
    ensures only { OnOk result ((file : List ℕ) → D.seen disk.new ≡ Some file → Only file (D.may_leave disk.new)) }
    ensures written { OnOk result (Told (Written (start + leaf) (1 ∷ [])) (D.seen disk.old) (D.seen disk.new)) }
    ensures torn { Told (Torn (start + leaf) 1) (D.seen disk.old) (D.seen disk.new) }
    ensures any_moment { LeavesOnly D.moment D.left_since disk.old disk.new
        (IsTornImage (start + leaf) 1 (D.may_leave disk.old)) }
    ensures cause { HasCause each (D.faults disk.old) (D.faults disk.new) result }
{
    disk.write_at(start + u64::from(leaf), &[1])?;
    disk.sync()?;
    Ok(())
}
