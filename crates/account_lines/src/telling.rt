//! Telling the greatest leaf of a key that stands signed in a log.

ghost use Rattle.std.specs.Prelude.{◌≡◌, Some, IfOk};
ghost use Rattle.octets.specs.Causes.{HasCause};
ghost use Rattle.git_object.specs.Repository.{Repository};
ghost use Rattle.keeper_api.specs.Undisturbed.{Undisturbed};
ghost use Rattle.rsl_chain.specs.Logs.{log_failed};
ghost use Rattle.account_lines.specs.Used.{IsToldUsed};

use crate::lines::used_line;
use crate::walking::greatest_used;
use git_object::KeyId;
use keeper_api::Keeper;
use octets::Octets;
use rsl_chain::{Log, LogFault};
use std::alloc::Global;

/// The line of JSON that tells the greatest leaf by which the key of this id and these public bytes signed an entry of
/// the log of the store's repository, with its line feed. It judges nothing, and reads each entry twice, once to find
/// the log.
pub fn tell_used<R: Keeper>(
    alloc: Global,
    keeper: &mut R,
    id: &KeyId,
    public: &[u8],
) -> Result<Octets, LogFault>
    ensures told { IfOk result (λ line. (r : Repository) → R.content keeper.new ≡ Some r
        → IsToldUsed r id.now public.now line) }
    ensures same { Undisturbed R.Keeper keeper.old keeper.new }
    ensures cause { HasCause log_failed (R.faults keeper.old) (R.faults keeper.new) result }
{
    let log = Log::load(alloc, keeper)?;
    let most = match greatest_used(alloc, keeper, id, public, log.ids.as_slice()) {
        Ok(most) => most,
        Err(fault) => return Err(fault),
    };
    match used_line(alloc, id, most) {
        Ok(line) => Ok(line),
        Err(_) => Err(LogFault::Memory),
    }
}
