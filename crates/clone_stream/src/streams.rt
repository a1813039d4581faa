//! Streams from a source into an empty keeper.

ghost use Rattle.std.specs.Prelude.{◌≡◌, ◌≢◌, ◌≤◌, Some, IfErr, IfSome, IsErrOf, OnOk};
ghost use Rattle.octets.specs.Causes.{HasCause};
ghost use Rattle.clone_stream.specs.Faults.{stream_keeper_failed, stream_source_failed};
ghost use Rattle.git_object.specs.Repository.{Repository, empty_repository};
ghost use Rattle.clone_stream.specs.Taking.{IsDecided, IsOfInput, LeavesRefused, TakesInto};

use crate::{StreamFault, read_change};
use edge_io::Source;
use keeper_api::{Keeper, is_empty};
use std::alloc::Global;

/// Reads a stream to the end of its source and commits its repository at once into an empty keeper. `NotEmpty`
/// is tried first, before a byte is read; of the other refusals of the input the first place decides. Where the
/// source fails, nothing that was read before is refused. Memory is wanting only before a byte was read, at an
/// object that may come or a reference after the longest front, or where the whole stream was read. After
/// `KeeperFailed` the keeper holds what it held or, where the commit failed, perhaps the spelled repository; after
/// every other refusal it holds what it held.
pub fn read_stream<S: Source, R: Keeper>(
    alloc: Global,
    source: &mut S,
    keeper: &mut R,
) -> Result<(), StreamFault>
    ensures ok { OnOk result (TakesInto R.Keeper (S.left source.old) (S.left source.new) keeper.old keeper.new) }

    // The refusals that are exact, and what a refusal leaves.
    ensures decided { IfErr result
        (λ fault. IfSome (S.left source.old) (λ input. IsDecided input (S.left source.new) fault)) }
    ensures was_empty { IfErr result (λ fault. IsOfInput fault → (r : Repository) → R.content keeper.new ≡ Some r
        → r ≡ empty_repository) }
    ensures not_empty { IsErrOf result StreamFault.NotEmpty → (r : Repository) → R.content keeper.new ≡ Some r
        → r ≢ empty_repository }
    ensures unread { IsErrOf result StreamFault.NotEmpty → S.left source.new ≡ S.left source.old }
    ensures held { IfErr result (LeavesRefused R.Keeper (S.left source.old) (S.left source.new) keeper.old keeper.new) }

    // Faults and counts.
    ensures source_cause { HasCause stream_source_failed (S.faults source.old) (S.faults source.new) result }
    ensures keeper_cause { HasCause stream_keeper_failed (R.faults keeper.old) (R.faults keeper.new) result }
    ensures reads { R.reads keeper.new ≡ R.reads keeper.old }
{
    if !is_empty(alloc, keeper)? {
        return Err(StreamFault::NotEmpty);
    }
    let change = match read_change(alloc, source) {
        Ok(change) => change,
        Err(fault) => return Err(fault),
    };
    keeper.commit(alloc, &change)?;
    Ok(())
}
