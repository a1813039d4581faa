//! The line of an entry of a judged log.

ghost use Rattle.std.specs.Prelude.{◌≡◌, ◌≤◌, ◌-◌, Some, length, slice_get, IfErr, IfOk};
ghost use Rattle.octets.specs.Causes.{HasCause, one_more};
ghost use Rattle.git_object.specs.Repository.{Repository};
ghost use Rattle.keeper_api.specs.Undisturbed.{Undisturbed};
ghost use Rattle.rsl_chain.specs.Logs.{IsNamed, IsUnbroken, log_failed};
ghost use Rattle.account_lines.specs.declared.rows.EntryRow.{EntryRow};
ghost use Rattle.accounts.specs.Accounts.{IsLine};
ghost use Rattle.accounts.specs.Judging.{IsJudgedLog};

use crate::JudgedLog;
use account_lines::{Later, entry_line as line_of};
use entry_rules::Fault;
use keeper_api::Keeper;
use octets::Octets;
use policy_epochs::Policy;
use rsl_chain::{LogFault, read_entry};
use std::alloc::Global;

/// The line of JSON that tells the entry of a number of a judged log, from 1, with its line feed: what it says, under
/// which policy it was judged, who signed, what is answered of it, and by which later entries it is skipped and
/// rescued. It reads the entry once more. `Broken` names the entry, and does not come where the store still holds the
/// repository that was judged.
pub fn entry_line<R: Keeper>(
    alloc: Global,
    keeper: &mut R,
    judged: &JudgedLog,
    number: u64,
) -> Result<Octets, LogFault>
    requires some { 1 ≤ number }
    requires within { number ≤ length judged.now.rows }
    ensures line { IfOk result (λ text. (r : Repository) → R.content keeper.new ≡ Some r
        → (is : IsJudgedLog judged.now.engine.rules.anchor r judged.now)
        → IsLine judged.now.engine.rules.anchor is.log number text) }
    ensures unbroken { IfErr result (λ fault. (r : Repository) → R.content keeper.new ≡ Some r
        → IsJudgedLog judged.now.engine.rules.anchor r judged.now → IsUnbroken fault) }
    ensures named { (row : EntryRow) → slice_get judged.now.rows (number - 1) ≡ Some row
        → IfErr result (IsNamed row.id) }
    ensures same { Undisturbed R.Keeper keeper.old keeper.new }
    ensures cause { HasCause log_failed (R.faults keeper.old) (R.faults keeper.new) result }
    ensures reads { R.reads keeper.new ≡ one_more (R.reads keeper.old) }
{
    let row = &judged.rows.as_slice()[(number - 1) as usize];
    let entry = match read_entry(alloc, keeper, &row.id) {
        Ok(entry) => entry,
        Err(fault) => return Err(fault),
    };
    let later = Later {
        skipper: judged.later.skipper::<Policy, Fault>(number),
        rescuer: judged.later.rescuer::<Policy, Fault>(number),
    };
    match line_of(alloc, &entry, row, &later) {
        Ok(text) => Ok(text),
        Err(_) => Err(LogFault::Memory),
    }
}
