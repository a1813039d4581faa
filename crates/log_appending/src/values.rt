//! Adding the entry that records a reference's value, before anything is printed.

ghost use Rattle.std.specs.Prelude.{◌≡◌, ◌≤◌, ◌+◌, ℕ, List, IfOk, Some};
ghost use Rattle.octets.specs.Causes.{HasCause};
ghost use Rattle.edge_io.specs.Moments.{LeavesOnly};
ghost use Rattle.git_object.specs.Names.{log_name};
ghost use Rattle.git_object.specs.Repository.{Repository, value_of};
ghost use Rattle.keeper_api.specs.Faults.{keeper_failed};
ghost use Rattle.keeper_api.specs.Undisturbed.{Undisturbed};
ghost use Rattle.leaf_journal.specs.KeyFile.{KeepsUsed};
ghost use Rattle.rsl_chain.specs.declared.entries.EntryBody.TheVariants.{Reference};
ghost use Rattle.log_appending.specs.Recording.{ValueEnds, no_clock, no_disk, no_keeper};

use crate::appending::{AppendFault, Appended, append_entry};
use crate::opening::{ReadingFault, open_log};
use edge_io::{Clock, Disk};
use git_object::{ObjectId, RefName};
use keeper_api::{Keeper, KeeperFault};
use octets::Copied;
use rsl_chain::EntryBody;
use std::alloc::Global;

/// Why no entry was added.
#[derive(Clone, Copy, Debug, PartialEq, Eq)]
pub enum NotAppended {
    /// What is wanted was not read.
    Unread { fault: ReadingFault },
    /// All was read.
    Unappended { fault: AppendFault },
}

// The body that records the value of a reference, `zeros` where it is not there.
fn body_of<R: Keeper>(
    alloc: Global,
    name: &RefName,
    keeper: &mut R,
) -> Result<EntryBody, KeeperFault>
    ensures body { IfOk result (λ body. (target : List ℕ) × (body ≡ Reference name.now target)
        × ((r : Repository) → R.content keeper.new ≡ Some r → target ≡ value_of r name.now)) }
    ensures same { Undisturbed R.Keeper keeper.old keeper.new }
    ensures cause { HasCause keeper_failed (R.faults keeper.old) (R.faults keeper.new) result }
    ensures reads { R.reads keeper.new ≡ R.reads keeper.old }
{
    let name_of_its_own = name.copied()?;
    let found = keeper.read_ref(alloc, name)?;
    Ok(EntryBody::Reference {
        name: name_of_its_own,
        target: found.unwrap_or(ObjectId::zeros()),
    })
}

/// Adds an entry that records the value of a reference to the log.
pub fn append_value<R: Keeper, D: Disk, C: Clock>(
    alloc: Global,
    name: &RefName,
    keeper: &mut R,
    disk: &mut D,
    clock: &mut C,
) -> Result<Appended, NotAppended>
    requires { name.now ≡ log_name → ⊥ }
    ensures ends { ValueEnds R.Keeper D.Disk name.now (C.left clock.old) (C.left clock.new) keeper.old keeper.new
        disk.old disk.new result }
    ensures any_moment { LeavesOnly D.moment D.left_since disk.old disk.new (KeepsUsed (D.may_leave disk.old)) }
    ensures keeper { HasCause no_keeper (R.faults keeper.old) (R.faults keeper.new) result }
    ensures disk { HasCause no_disk (D.faults disk.old) (D.faults disk.new) result }
    ensures clock { HasCause no_clock (C.faults clock.old) (C.faults clock.new) result }
    ensures reads { R.reads keeper.new ≤ R.reads keeper.old + 1000000 }
{
    let opened = match open_log(alloc, keeper, disk) {
        Ok(opened) => opened,
        Err(fault) => return Err(NotAppended::Unread { fault }),
    };
    let body = match body_of(alloc, name, keeper) {
        Ok(body) => body,
        Err(KeeperFault::Failed) => return Err(NotAppended::Unread {
            fault: ReadingFault::KeeperFailed,
        }),
        Err(KeeperFault::Memory) => return Err(NotAppended::Unread {
            fault: ReadingFault::Memory,
        }),
    };
    match append_entry(alloc, opened, body, keeper, disk, clock) {
        Ok(appended) => Ok(appended),
        Err(fault) => Err(NotAppended::Unappended { fault }),
    }
}
