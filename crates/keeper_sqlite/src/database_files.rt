//! The keeper over a database file and its log.

ghost use Rattle.std.specs.Prelude.{◌≡◌, IfOk};

use crate::sql_faults::SqlFault;
use crate::sql_keepers::SqlKeeper;
use sqlite::{Connection, File, FileStore};
use std::fs;
use std::io::ErrorKind;

impl SqlKeeper<FileStore<File>> {
    /// The keeper over the database file of this path, which is made where nothing is. `Failed` also where another
    /// process has it open, and where it is no database.
    pub fn to_change(rt: &HostRuntime, path: &str) -> Result<SqlKeeper<FileStore<File>>, SqlFault>
        ensures counts { IfOk result (λ keeper. (keeper.faults ≡ 0) × (keeper.reads ≡ 0)) }
    {
        match Connection::open(rt, path) {
            Ok(connection) => SqlKeeper::adopt(rt.alloc(), connection),
            Err(error) => Err(SqlFault::from(error)),
        }
    }

    /// The same, and `Failed` where nothing is, so that a wrong path is not read as an empty repository.
    pub fn to_read(rt: &HostRuntime, path: &str) -> Result<SqlKeeper<FileStore<File>>, SqlFault>
        ensures counts { IfOk result (λ keeper. (keeper.faults ≡ 0) × (keeper.reads ≡ 0)) }
    {
        match fs::exists(rt, path) {
            Ok(true) => SqlKeeper::to_change(rt, path),
            Ok(false) => Err(SqlFault::Failed),
            Err(error) if error.kind() == ErrorKind::OutOfMemory => Err(SqlFault::Memory),
            Err(_) => Err(SqlFault::Failed),
        }
    }

    /// Copies what the log has into the file, and closes both.
    pub fn end(self) -> Result<(), SqlFault> {
        match self.into_connection().close() {
            Ok(()) => Ok(()),
            Err(error) => Err(SqlFault::from(error)),
        }
    }
}
