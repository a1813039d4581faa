//! How a refusal of the database is answered.

ghost use Rattle.std.specs.Prelude.{◌≡◌, false, if◌then◌else◌, IsTrue};
ghost use Rattle.sqlite.specs.Held.{state};
ghost use Rattle.sqlite.specs.State.{HasCleanDisk, Survives};
ghost use Rattle.keeper_sqlite.specs.Answering.{MayGoOn};
ghost use Rattle.keeper_sqlite.specs.Faults.{wants_memory};
ghost use Rattle.keeper_sqlite.specs.States.{IsSame};

use keeper_api::KeeperFault;
use sqlite::{Alter, Connection, Error, ErrorCode};

/// Whether the database still answers.
pub fn is_alive<S: Alter>(conn: &mut Connection<S>) -> bool
    requires idle { conn.old.in_transaction ≡ false }
    ensures idle { conn.new.in_transaction ≡ false }
    ensures was_open { IsTrue (state S.Store conn.new).is_open → IsTrue (state S.Store conn.old).is_open }
    ensures same { IsTrue (state S.Store conn.new).is_open → IsSame (state S.Store conn.old) (state S.Store conn.new) }
    ensures opens { HasCleanDisk (state S.Store conn.new) → IsTrue result → IsTrue (state S.Store conn.new).is_open }
    ensures survives { Survives (state S.Store conn.old) (state S.Store conn.new) (λ _. ⊥) }
{
    let _ = conn.is_autocommit();
    match conn.prepare("SELECT 1") {
        Ok(_) => true,
        Err(_) => false,
    }
}

/// What a refusal is: want of memory, or a failure.
pub fn fault_of(error: Error) -> KeeperFault
    ensures { result ≡ (if wants_memory error then KeeperFault.Memory else KeeperFault.Failed) }
{
    match error {
        Error::SqliteFailure(ErrorCode::OutOfMemory) => KeeperFault::Memory,
        _ => KeeperFault::Failed,
    }
}

/// How a refusal is answered: a database that answers no more has failed.
pub fn refusal<S: Alter>(conn: &mut Connection<S>, error: Error) -> KeeperFault
    requires idle { conn.old.in_transaction ≡ false }
    ensures idle { conn.new.in_transaction ≡ false }
    ensures was_open { IsTrue (state S.Store conn.new).is_open → IsTrue (state S.Store conn.old).is_open }
    ensures same { IsTrue (state S.Store conn.new).is_open → IsSame (state S.Store conn.old) (state S.Store conn.new) }
    ensures cause { result ≡ KeeperFault.Memory → IsTrue (wants_memory error) }
    ensures answered { HasCleanDisk (state S.Store conn.new) → MayGoOn result
        → IsTrue (state S.Store conn.new).is_open }
    ensures survives { Survives (state S.Store conn.old) (state S.Store conn.new) (λ _. ⊥) }
{
    if is_alive(conn) {
        fault_of(error)
    } else {
        KeeperFault::Failed
    }
}
