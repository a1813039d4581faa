//! Printing the entries of a log, in pieces.

ghost use Rattle.std.specs.Prelude.{◌≡◌, ◌≤◌, ◌+◌, ◌*◌, ◌++◌, length, IfErr, IfOk, OnErr, OnOk, Some};
ghost use Rattle.octets.specs.Causes.{HasCause, each, one_more};
ghost use Rattle.octets.specs.Content.{GainsPart};
ghost use Rattle.git_object.specs.Repository.{Repository};
ghost use Rattle.keeper_api.specs.Undisturbed.{Undisturbed};
ghost use Rattle.rsl_chain.specs.Logs.{IsNoEntryAs, log_failed};
ghost use Rattle.commands_log.specs.Faults.{of_keeper, of_sink};
ghost use Rattle.commands_log.specs.Logging.{Prints};
ghost use Rattle.commands_log.specs.Printing.{Gathers, PrintsAt, Releases};

use crate::faults::LogCommandFault;
use crate::lines::append_entry;
use edge_io::{Failed, Sink, write_all};
use git_object::ObjectId;
use keeper_api::Keeper;
use octets::Octets;
use rsl_chain::{Log, LogFault, read_entry};
use std::alloc::Global;

// How many bytes are gathered before they go out.
const PIECE: usize = 4096;

// Reads the entry at an id, and adds its line to the piece.
fn gather<R: Keeper>(
    alloc: Global,
    keeper: &mut R,
    id: &ObjectId,
    piece: &mut Octets,
) -> Result<(), LogFault>
    ensures gathers { OnOk result (Gathers (R.content keeper.new) id.now piece.old piece.new) }
    ensures broken { IfErr result (λ fault. (r : Repository) → R.content keeper.new ≡ Some r
        → IsNoEntryAs r id.now fault) }
    ensures same { Undisturbed R.Keeper keeper.old keeper.new }
    ensures cause { HasCause log_failed (R.faults keeper.old) (R.faults keeper.new) result }
    ensures reads { R.reads keeper.new ≡ one_more (R.reads keeper.old) }
{
    let entry = read_entry(alloc, keeper, id)?;
    append_entry(piece, &entry)?;
    Ok(())
}

// Prints the piece where it is long, which is then empty.
fn release<K: Sink>(sink: &mut K, piece: &mut Octets) -> Result<(), Failed>
    ensures releases { OnOk result (Releases (K.contents sink.old) (K.contents sink.new) piece.old piece.new) }
    ensures part { OnErr result (GainsPart (K.contents sink.old) (K.contents sink.new) piece.old) }
    ensures cause { HasCause each (K.faults sink.old) (K.faults sink.new) result }
{
    if piece.len() < PIECE {
        return Ok(());
    }
    write_all(sink, piece.as_slice())?;
    let alloc = piece.allocator();
    *piece = Octets::new(alloc);
    Ok(())
}

// Prints the lines of the entries at these ids. It reads each once, and holds one of them at a time.
fn print_entries<K: Sink, R: Keeper>(
    alloc: Global,
    sink: &mut K,
    keeper: &mut R,
    ids: &[ObjectId],
) -> Result<(), LogCommandFault>
    ensures prints { PrintsAt ids.now (R.content keeper.new) (K.contents sink.old) (K.contents sink.new) result }
    ensures same { Undisturbed R.Keeper keeper.old keeper.new }
    ensures keeper_cause { HasCause of_keeper (R.faults keeper.old) (R.faults keeper.new) result }
    ensures sink_cause { HasCause of_sink (K.faults sink.old) (K.faults sink.new) result }
    ensures reads { R.reads keeper.new ≤ R.reads keeper.old + length ids.now }
{
    let mut piece = Octets::new(alloc);
    'ids: for id in ids {
        gather(alloc, keeper, id, &mut piece)?;
        release(sink, &mut piece)?;
    }
    write_all(sink, piece.as_slice())?;
    Ok(())
}

/// Loads the log, prints the lines of its entries, and answers how many there are. A break is only found, and not
/// printed.
pub(crate) fn print_log<K: Sink, R: Keeper>(
    alloc: Global,
    sink: &mut K,
    keeper: &mut R,
) -> Result<usize, LogCommandFault>
    ensures prints { Prints (R.content keeper.new) (K.contents sink.old) (K.contents sink.new) result }
    ensures same { Undisturbed R.Keeper keeper.old keeper.new }
    ensures keeper_cause { HasCause of_keeper (R.faults keeper.old) (R.faults keeper.new) result }
    ensures sink_cause { HasCause of_sink (K.faults sink.old) (K.faults sink.new) result }
    ensures reads { IfOk result (λ count. R.reads keeper.new ≤ R.reads keeper.old + 2 * count) }
    ensures most { R.reads keeper.new ≤ R.reads keeper.old + 2000000 }
{
    let log = Log::load(alloc, keeper)?;
    match print_entries(alloc, sink, keeper, log.ids.as_slice()) {
        Ok(()) => Ok(log.ids.len()),
        Err(fault) => Err(fault),
    }
}
