//! The line of an entry of a log of which the entries from a number on were judged.

ghost use Rattle.std.specs.Prelude.{◌≡◌, ◌≤◌, ◌-◌, Some, length, slice_get, IfErr, IfOk};
ghost use Rattle.octets.specs.Causes.{HasCause, one_more};
ghost use Rattle.git_object.specs.Repository.{Repository};
ghost use Rattle.keeper_api.specs.Undisturbed.{Undisturbed};
ghost use Rattle.rsl_chain.specs.Logs.{IsNamed, IsUnbroken, log_failed};
ghost use Rattle.account_lines.specs.declared.rows.EntryRow.{EntryRow};
ghost use Rattle.accounts.specs.Accounts.{IsLine};
ghost use Rattle.accounts.specs.Later.{IsJudgedFrom};

use crate::LaterLog;
use account_lines::{Later, entry_line as line_of};
use entry_rules::Fault;
use keeper_api::Keeper;
use octets::Octets;
use policy_epochs::Policy;
use rsl_chain::{LogFault, read_entry};
use std::alloc::Global;

/// The line of an entry that was judged, by its number, as `entry_line` tells it of a log of which all were. It reads
/// the entry once more. `Broken` names the entry, and does not come where the store still holds the repository that was
/// judged.
pub fn later_line<R: Keeper>(
    alloc: Global,
    keeper: &mut R,
    judged: &LaterLog,
    number: u64,
) -> Result<Octets, LogFault>
    requires some { 1 ≤ number }
    requires judged { judged.now.engine.first ≤ number }
    requires within { number ≤ length judged.now.rows }
    ensures line { IfOk result (λ text. (r : Repository) → R.content keeper.new ≡ Some r
        → (is : IsJudgedFrom judged.now.engine.rules.anchor r judged.now.engine.first judged.now)
        → IsLine judged.now.engine.rules.anchor is.log number text) }
    ensures unbroken { IfErr result (λ fault. (r : Repository) → R.content keeper.new ≡ Some r
        → IsJudgedFrom judged.now.engine.rules.anchor r judged.now.engine.first judged.now → IsUnbroken fault) }
    ensures named { (row : EntryRow) → slice_get judged.now.rows (number - 1) ≡ Some row
        → IfErr result (IsNamed row.id) }
    ensures same { Undisturbed R.Keeper keeper.old keeper.new }
    ensures cause { HasCause log_failed (R.faults keeper.old) (R.faults keeper.new) result }
    ensures reads { R.reads keeper.new ≡ one_more (R.reads keeper.old) }
{
    let row = &judged.rows.as_slice()[(number - 1) as usize];
    let entry = match read_entry(alloc, keeper, &row.id) {
        Ok(entry) => entry,
        Err(fault) => return Err(fault),
    };
    let later = Later {
        skipper: judged.later.skipper::<Policy, Fault>(number),
        rescuer: judged.later.rescuer::<Policy, Fault>(number),
    };
    match line_of(alloc, &entry, row, &later) {
        Ok(text) => Ok(text),
        Err(_) => Err(LogFault::Memory),
    }
}
