//! The command `policy-apply`.

ghost use Rattle.std.specs.Prelude.{◌≡◌, ℕ, List, IsErrOf, OnOk, Some};
ghost use Rattle.octets.specs.Causes.{HasCause};
ghost use Rattle.octets.specs.Content.{Told};
ghost use Rattle.edge_io.specs.Moments.{LeavesOnly};
ghost use Rattle.git_object.specs.Repository.{Repository};
ghost use Rattle.leaf_journal.specs.KeyFile.{KeepsUsed};
ghost use Rattle.policy_epochs.specs.declared.faults.PolicyFault.{PolicyFault};
ghost use Rattle.commands_policy.specs.Applying.{ApplyEnds, clock_failed, disk_failed, keeper_failed, sink_failed};
ghost use Rattle.commands_policy.specs.Reads.{ReadsPolicies};
ghost use Rattle.commands_policy.specs.declared.applying.ApplyFault.TheVariants as apply;

use crate::policies::{NotApplied, append_policy};
use edge_io::{Clock, Disk, Failed, Sink, write_all};
use keeper_api::Keeper;
use log_appending::{
    AppendFault, LONGEST_LINE, ReadingFault, RecordFault, tell_unread, write_entry_line,
};
use octets::Octets;
use policy_epochs::PolicyFault;
use std::alloc::Global;

/// Why no policy was applied, or why that was not told.
#[derive(Drop)]
pub enum ApplyFault {
    /// The policy is to be recorded or was not judged, and no entry was recorded or told.
    Unrecorded { fault: RecordFault },
    /// The entry would be no epoch, for this fault, which the line tells. Nothing changed.
    Refused { why: PolicyFault, line: Octets },
}

fn unrecorded(fault: RecordFault) -> ApplyFault
    ensures { result ≡ ApplyFault.Unrecorded fault }
{
    ApplyFault::Unrecorded { fault }
}

/// Adds an entry to the log that records the value of the policy's reference, and prints its line, where the entry is
/// an epoch whatever keys the first root has. It reads the key file, then the log, then the reference and the policies,
/// asks the clock, signs with the first unused leaf, commits once and prints; the first refusal decides. The memory for
/// the line is taken before anything is read. Each entry of the log is read twice, and each policy that one brings, and
/// the new one, once.
pub fn policy_apply<K: Sink, R: Keeper, D: Disk, C: Clock>(
    alloc: Global,
    sink: &mut K,
    keeper: &mut R,
    disk: &mut D,
    clock: &mut C,
) -> Result<(), ApplyFault>
    ensures ends { ApplyEnds R.Keeper D.Disk (C.left clock.old) (C.left clock.new) keeper.old keeper.new disk.old
        disk.new (K.contents sink.old) (K.contents sink.new) result }
    ensures any_moment { LeavesOnly D.moment D.left_since disk.old disk.new (KeepsUsed (D.may_leave disk.old)) }
    ensures sink { HasCause sink_failed (K.faults sink.old) (K.faults sink.new) result }
    ensures keeper { HasCause keeper_failed (R.faults keeper.old) (R.faults keeper.new) result }
    ensures disk { HasCause disk_failed (D.faults disk.old) (D.faults disk.new) result }
    ensures clock { HasCause clock_failed (C.faults clock.old) (C.faults clock.new) result }
    ensures reads { OnOk result (Told (λ r now. ReadsPolicies r (R.reads keeper.old) (R.reads keeper.new))
        (R.content keeper.old) (R.content keeper.new)) }
    ensures reads_refused { (why : PolicyFault) (line : List ℕ) → IsErrOf result (apply.Refused why line)
        → (r : Repository) → R.content keeper.new ≡ Some r → ReadsPolicies r (R.reads keeper.old) (R.reads keeper.new) }
{
    let Ok(mut line) = Vec::with_capacity(alloc, LONGEST_LINE) else {
        return Err(unrecorded(RecordFault::Unread {
            fault: ReadingFault::Memory,
        }));
    };
    let appended = match append_policy(alloc, keeper, disk, clock) {
        Ok(appended) => appended,
        Err(NotApplied::Unread { fault }) => {
            return Err(ApplyFault::Unrecorded {
                fault: tell_unread(fault, line, sink),
            });
        }
        Err(NotApplied::Refused { why, line: told }) => {
            return Err(ApplyFault::Refused { why, line: told });
        }
        Err(NotApplied::Unappended { fault }) => {
            return Err(ApplyFault::Unrecorded {
                fault: RecordFault::Unappended { fault },
            });
        }
    };
    write_entry_line(&appended, &mut line);
    match write_all(sink, line.as_slice()) {
        Ok(()) => Ok(()),
        Err(Failed) => Err(ApplyFault::Unrecorded {
            fault: RecordFault::SinkFailed,
        }),
    }
}
