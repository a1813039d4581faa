//! Reading the policy that is to be recorded, and adding its entry, before anything is printed.

ghost use Rattle.std.specs.Prelude.{◌≡◌, ◌≤◌, ◌+◌, ℕ, List, IfErr, IfOk, IsErrOf, OnOk, Some, sum_by};
ghost use Rattle.octets.specs.Causes.{HasCause};
ghost use Rattle.octets.specs.Content.{Told};
ghost use Rattle.edge_io.specs.Moments.{LeavesOnly};
ghost use Rattle.git_object.specs.Repository.{Repository, value_of};
ghost use Rattle.keeper_api.specs.Undisturbed.{Undisturbed};
ghost use Rattle.leaf_journal.specs.KeyFile.{KeepsUsed};
ghost use Rattle.rsl_chain.specs.Logs.{IsBrokenAs, IsLogOf, log_failed};
ghost use Rattle.policy_epochs.specs.declared.faults.PolicyFault.{PolicyFault};
ghost use Rattle.policy_reading.specs.Policies.{policy_reads};
ghost use Rattle.policy_reading.specs.Reading.{entry_reads};
ghost use Rattle.commands_policy.specs.Reads.{ReadsPolicies};
ghost use Rattle.commands_policy.specs.Applying.{IsRefusal, Judges, PolicyEnds, no_clock, no_disk, no_keeper};
ghost use Rattle.commands_policy.specs.Applying.{policy_line};
ghost use Rattle.commands_policy.specs.declared.policies.NotApplied.TheVariants as none;

use edge_io::{Clock, Disk};
use git_object::{Ids, ObjectId, RefName};
use keeper_api::{Keeper, KeeperFault};
use log_appending::{AppendFault, Appended, ReadingFault, append_entry, open_log, unread_log};
use octets::{Memory, Octets};
use policy_epochs::PolicyFault;
use policy_reading::epoch_fault;
use rsl_chain::{EntryBody, LogFault};
use std::alloc::Global;

/// Why no entry was added.
#[derive(Drop)]
pub enum NotApplied {
    /// What is wanted was not read.
    Unread { fault: ReadingFault },
    /// The entry would be no epoch; and the line that tells why.
    Refused { why: PolicyFault, line: Octets },
    /// It would be one.
    Unappended { fault: AppendFault },
}

fn policy_line(alloc: Global, why: &PolicyFault) -> Result<Octets, Memory>
    ensures { IfOk result (λ line. line ≡ policy_line why.now) }
{
    let mut line = Octets::from_slice(alloc, b"policy ")?;
    line.append(why.text(alloc)?.as_slice())?;
    line.append(b"\n")?;
    Ok(line)
}

// The refusal of a policy.
fn refused(alloc: Global, why: PolicyFault) -> NotApplied
    ensures { IsRefusal why result }
{
    match policy_line(alloc, &why) {
        Ok(line) => NotApplied::Refused { why, line },
        Err(Memory) => NotApplied::Unread {
            fault: ReadingFault::Memory,
        },
    }
}

// The value of the policy's reference, where it is an epoch behind the entries at the ids of a log, or what keeps it
// from being one.
fn judge_value<R: Keeper>(
    alloc: Global,
    name: &RefName,
    ids: &Ids,
    keeper: &mut R,
) -> Result<Result<ObjectId, PolicyFault>, LogFault>
    ensures judges { IfOk result (λ judged. (r : Repository) → R.content keeper.new ≡ Some r → IsLogOf r ids.now
        → Judges r name.now judged) }
    ensures broken { IfErr result (λ fault. (r : Repository) → R.content keeper.new ≡ Some r → IsLogOf r ids.now
        → IsBrokenAs r fault) }
    ensures same { Undisturbed R.Keeper keeper.old keeper.new }
    ensures cause { HasCause log_failed (R.faults keeper.old) (R.faults keeper.new) result }
    ensures reads { (r : Repository) → R.content keeper.new ≡ Some r → R.reads keeper.new ≤ R.reads keeper.old
        + (sum_by (entry_reads r) ids.now + policy_reads r (value_of r name.now)) }
{
    let found = match keeper.read_ref(alloc, name) {
        Ok(found) => found,
        Err(KeeperFault::Failed) => return Err(LogFault::Failed),
        Err(KeeperFault::Memory) => return Err(LogFault::Memory),
    };
    let target = found.unwrap_or(ObjectId::zeros());
    match epoch_fault(alloc, keeper, None, ids.as_slice(), &target) {
        Ok(None) => Ok(Ok(target)),
        Ok(Some(why)) => Ok(Err(why)),
        Err(fault) => Err(fault),
    }
}

/// Adds an entry that records the value of the policy's reference to the log, where it is an epoch.
pub fn append_policy<R: Keeper, D: Disk, C: Clock>(
    alloc: Global,
    keeper: &mut R,
    disk: &mut D,
    clock: &mut C,
) -> Result<Appended, NotApplied>
    ensures ends { PolicyEnds R.Keeper D.Disk (C.left clock.old) (C.left clock.new) keeper.old keeper.new disk.old
        disk.new result }
    ensures any_moment { LeavesOnly D.moment D.left_since disk.old disk.new (KeepsUsed (D.may_leave disk.old)) }
    ensures keeper { HasCause no_keeper (R.faults keeper.old) (R.faults keeper.new) result }
    ensures disk { HasCause no_disk (D.faults disk.old) (D.faults disk.new) result }
    ensures clock { HasCause no_clock (C.faults clock.old) (C.faults clock.new) result }
    ensures reads { OnOk result (Told (λ r now. ReadsPolicies r (R.reads keeper.old) (R.reads keeper.new))
        (R.content keeper.old) (R.content keeper.new)) }
    ensures reads_refused { (why : PolicyFault) (line : List ℕ) → IsErrOf result (none.Refused why line)
        → (r : Repository) → R.content keeper.new ≡ Some r → ReadsPolicies r (R.reads keeper.old) (R.reads keeper.new) }
{
    let Ok(name) = RefName::of_policy(alloc) else {
        return Err(NotApplied::Unread {
            fault: ReadingFault::Memory,
        });
    };
    let opened = match open_log(alloc, keeper, disk) {
        Ok(opened) => opened,
        Err(fault) => {
            drop(name);
            return Err(NotApplied::Unread { fault });
        }
    };
    let target = match judge_value(alloc, &name, &opened.log.ids, keeper) {
        Ok(Ok(target)) => target,
        Ok(Err(why)) => {
            drop(opened);
            drop(name);
            return Err(refused(alloc, why));
        }
        Err(fault) => {
            drop(opened);
            drop(name);
            return Err(NotApplied::Unread {
                fault: unread_log(fault),
            });
        }
    };
    let body = EntryBody::Reference { name, target };
    match append_entry(alloc, opened, body, keeper, disk, clock) {
        Ok(appended) => Ok(appended),
        Err(fault) => Err(NotApplied::Unappended { fault }),
    }
}
