//! The store that a word names: how it is opened, and how its use ends.

ghost use Rattle.std.specs.Prelude.{◌≡◌, ◌⊎◌, ◌≤◌, IfErr, IfOk};
ghost use Rattle.worlds.specs.Endings.{refusal_status};
ghost use Rattle.worlds.specs.declared.ending.Part.TheVariants as part;
ghost use Rattle.worlds.specs.declared.ending.Refusal.TheVariants as refusal;
ghost use Rattle.program_stores.specs.Opening.{IsFaultStatus, IsOfKind, IsRefusal};

use crate::any::{AnyKeeper, Folder};
use crate::{refuse, refuse_schema};
use command_words::Store;
use keeper_api::MemKeeper;
use keeper_directory::{DirKeeper, OpenFault};
use keeper_layers::{CachedKeeper, EitherKeeper};
use keeper_sqlite::{SqlFault, SqlKeeper};
use sqlite::{File, FileStore};
use worlds::{Part, Refusal};

const FAULT: Refusal = Refusal::Fault { part: Part::Keeper };

// The store in a folder, with a cache before it: what is read twice is opened and hashed once.
fn open_folder(rt: &HostRuntime, folder: &str, to_change: bool) -> Result<Folder, u8>
    ensures { IfErr result IsFaultStatus }
{
    let opened = if to_change {
        DirKeeper::to_change(rt, rt.alloc(), folder)
    } else {
        DirKeeper::to_read(rt, rt.alloc(), folder)
    };
    match opened {
        Ok(keeper) => Ok(CachedKeeper::new(rt.alloc(), keeper)),
        Err(OpenFault::Failed) => Err(refuse(rt.stderr(), &FAULT)),
        Err(OpenFault::Memory) => Err(refuse(rt.stderr(), &Refusal::Memory)),
    }
}

// The store in a database file.
fn open_database(
    rt: &HostRuntime,
    path: &str,
    to_change: bool,
) -> Result<SqlKeeper<FileStore<File>>, u8>
    ensures { IfErr result (λ status. (status ≡ 3) ⊎ IsFaultStatus status) }
{
    let opened = if to_change {
        SqlKeeper::to_change(rt, path)
    } else {
        SqlKeeper::to_read(rt, path)
    };
    match opened {
        Ok(keeper) => Ok(keeper),
        Err(SqlFault::BadSchema { found }) => Err(refuse_schema(rt.alloc(), rt.stderr(), found)),
        Err(SqlFault::Failed) => Err(refuse(rt.stderr(), &FAULT)),
        Err(SqlFault::Memory) => Err(refuse(rt.stderr(), &Refusal::Memory)),
    }
}

/// Opens the store that a word names. A folder or a database file that is not there is made where the store is to be
/// changed alone, so that a wrong path is not taken for an empty store; one in memory is empty. Where it cannot be had
/// this is said on standard error, and the status is answered: for a database with another schema 3, with its number on
/// that line, else that of a fault of the store or of want of memory. A store in memory is never refused.
pub fn open_store(rt: &HostRuntime, store: Store, to_change: bool) -> Result<AnyKeeper, u8>
    ensures kind { IfOk result (λ k. IsOfKind store.entry k.kind) }
    ensures refused { IfErr result (IsRefusal store.entry) }
{
    let kind = match store {
        Store::Memory => EitherKeeper::First(MemKeeper::new(rt.alloc())),
        Store::Directory(folder) => {
            let keeper = open_folder(rt, folder, to_change)?;
            EitherKeeper::Second(EitherKeeper::First(keeper))
        }
        Store::Database(path) => {
            let keeper = open_database(rt, path, to_change)?;
            EitherKeeper::Second(EitherKeeper::Second(keeper))
        }
    };
    Ok(AnyKeeper { kind })
}

// Whether the use of a store ended well: a folder is unlocked, and a database's log is in its file.
fn is_ended(rt: &HostRuntime, keeper: AnyKeeper) -> bool {
    match keeper.kind {
        EitherKeeper::First(_) => true,
        EitherKeeper::Second(EitherKeeper::First(folder)) => {
            folder.into_inner().end(rt.alloc()).is_ok()
        }
        EitherKeeper::Second(EitherKeeper::Second(database)) => database.end().is_ok(),
    }
}

/// Ends the use of a store after a command of this status, and answers the program's. Where a folder stays locked, or
/// the log of a database file cannot be put into it, that is a fault of the store, which is said on standard error;
/// after a refusal its own status and line say enough.
pub fn end_store(rt: &HostRuntime, keeper: AnyKeeper, status: u8) -> u8
    ensures refused { 2 ≤ status → result ≡ status }
    ensures ended { (result ≡ status) ⊎ (result ≡ refusal_status (refusal.Fault part.Keeper)) }
{
    if !is_ended(rt, keeper) && status < 2 {
        return refuse(rt.stderr(), &FAULT);
    }
    status
}
