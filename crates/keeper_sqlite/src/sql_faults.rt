//! Why a database is not taken as a store.

ghost use Rattle.std.specs.Prelude.{◌≡◌, if◌then◌else◌};
ghost use Rattle.keeper_sqlite.specs.Faults.{wants_memory};

use sqlite::{Error, ErrorCode};

/// Why a database is not taken as a store.
#[derive(Clone, Copy, Debug, PartialEq, Eq, Drop)]
pub enum SqlFault {
    /// Its tables are those of the schema with another number, which is 0 where none is told.
    BadSchema { found: i64 },
    /// It has other tables, a transaction is open, or it refused a statement.
    Failed,
    Memory,
}

impl From<Error> for SqlFault {
    ghost use Rattle.keeper_sqlite.specs.declared.sql_faults.SqlFault.TheVariants as fault;

    ghost from_gives = { λ error f. f ≡ (if wants_memory error then fault.Memory else fault.Failed) };

    fn from(error: Error) -> SqlFault {
        match error {
            Error::SqliteFailure(ErrorCode::OutOfMemory) => SqlFault::Memory,
            _ => SqlFault::Failed,
        }
    }
}
