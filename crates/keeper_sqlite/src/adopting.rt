//! A database, taken as a store.

ghost use Rattle.std.specs.Prelude.{◌≡◌, ◌≢◌, ◌≤◌, ℤ, true, false, pos, [], codes, Ok, Err, IfErr, IfOk, IsErrOf};
ghost use Rattle.std.specs.Prelude.{IsTrue};
ghost use Rattle.sqlite.specs.Held.{state};
ghost use Rattle.sqlite.specs.Order.{column};
ghost use Rattle.sqlite.specs.State.{HasCleanDisk, QueriesRow};
ghost use Rattle.sqlite_trees.specs.View.{doubt};
ghost use Rattle.sqlite_value.specs.declared.value.Value.TheVariants.{Int};
ghost use Rattle.keeper_sqlite.specs.Adopting.{AreShapedTables, HasNumber, IsReliable, IsReopened, IsUnnumbered};
ghost use Rattle.keeper_sqlite.specs.Adopting.{TellsNumber};
ghost use Rattle.keeper_sqlite.specs.States.{IsSame};
ghost use Rattle.keeper_sqlite.specs.Tables.{store_schema};

use crate::schemas::is_empty;
use crate::sql_faults::SqlFault;
use sqlite::{Alter, Connection, Error, Row};
use std::alloc::Global;

// The number of the schema.
const NUMBER: i64 = 1;

const TABLES: &str = "CREATE TABLE objects
    (id BLOB NOT NULL PRIMARY KEY, kind INTEGER NOT NULL, body BLOB NOT NULL) STRICT;
CREATE TABLE refs (name BLOB NOT NULL PRIMARY KEY, id BLOB NOT NULL) STRICT;
CREATE TABLE facts (name TEXT NOT NULL PRIMARY KEY, value INTEGER NOT NULL) STRICT;
INSERT INTO facts (name, value) VALUES ('schema', 1)";

// Makes the tables and the row with the schema's number, in one transaction.
fn make_tables<S: Alter>(conn: &mut Connection<S>) -> Result<(), Error>
    requires idle { conn.old.in_transaction ≡ false }
    ensures idle { conn.new.in_transaction ≡ false }
{
    let mut tx = conn.transaction();
    tx.execute_batch(TABLES)?;
    tx.commit()
}

// Makes the tables of a database that has none.
fn expect_tables<S: Alter>(conn: &mut Connection<S>) -> Result<(), SqlFault>
    requires idle { conn.old.in_transaction ≡ false }
    ensures idle { conn.new.in_transaction ≡ false }
    ensures kept { conn.old.schema ≡ store_schema → conn.new ≡ conn.old }
    ensures taken { conn.old.schema ≡ store_schema → IfErr result (λ _. ⊥) }
    ensures unnumbered { IfErr result IsUnnumbered }
{
    if !is_empty(conn.schema()) {
        return Ok(());
    }
    make_tables(conn)?;
    Ok(())
}

fn schema_row<S: Alter>(conn: &mut Connection<S>) -> Result<Row, Error>
    requires idle { conn.old.in_transaction ≡ false }
    ensures idle { conn.new.in_transaction ≡ false }
    ensures was_open { IsTrue (state S.Store conn.new).is_open → IsTrue (state S.Store conn.old).is_open }
    ensures same { IsTrue (state S.Store conn.new).is_open → conn.old.schema ≡ store_schema
        → IsSame (state S.Store conn.old) (state S.Store conn.new) }
    ensures row { HasCleanDisk (state S.Store conn.new) → QueriesRow (codes "SELECT value FROM facts WHERE name = 'schema'") []
        (state S.Store conn.old) (state S.Store conn.new) result }
    ensures clean { doubt (state S.Store conn.old).is_clean ≤ doubt (state S.Store conn.new).is_clean }
{
    let _ = conn.is_autocommit();
    conn.query_row("SELECT value FROM facts WHERE name = 'schema'", &[])
}

fn number_in(row: &Row) -> Result<i64, Error>
    ensures { IfOk result (λ number. column row.now 0 ≡ Int number) }
{
    row.get(0)
}

// The number in the row `schema`, or 0 where there is no such row.
fn schema_number<S: Alter>(conn: &mut Connection<S>) -> Result<i64, SqlFault>
    requires idle { conn.old.in_transaction ≡ false }
    ensures idle { conn.new.in_transaction ≡ false }
    ensures was_open { IsTrue (state S.Store conn.new).is_open → IsTrue (state S.Store conn.old).is_open }
    ensures same { IsTrue (state S.Store conn.new).is_open → conn.old.schema ≡ store_schema
        → IsSame (state S.Store conn.old) (state S.Store conn.new) }
    ensures number { HasCleanDisk (state S.Store conn.new) → conn.old.schema ≡ store_schema
        → IfOk result (TellsNumber ((state S.Store conn.old).now.trees 4)) }
    ensures clean { doubt (state S.Store conn.old).is_clean ≤ doubt (state S.Store conn.new).is_clean }
    ensures unnumbered { IfErr result IsUnnumbered }
{
    let row = match schema_row(conn) {
        Ok(row) => row,
        Err(Error::QueryReturnedNoRows) => return Ok(0),
        Err(error) => return Err(SqlFault::from(error)),
    };
    match number_in(&row) {
        Ok(number) => Ok(number),
        Err(error) => Err(SqlFault::from(error)),
    }
}

fn expect_number<S: Alter>(conn: &mut Connection<S>) -> Result<(), SqlFault>
    requires idle { conn.old.in_transaction ≡ false }
    ensures idle { conn.new.in_transaction ≡ false }
    ensures was_open { IsTrue (state S.Store conn.new).is_open → IsTrue (state S.Store conn.old).is_open }
    ensures same { IsTrue (state S.Store conn.new).is_open → conn.old.schema ≡ store_schema
        → IsSame (state S.Store conn.old) (state S.Store conn.new) }
    ensures number { HasCleanDisk (state S.Store conn.new) → conn.old.schema ≡ store_schema
        → HasNumber result ((state S.Store conn.old).now.trees 4) }
    ensures clean { doubt (state S.Store conn.old).is_clean ≤ doubt (state S.Store conn.new).is_clean }
    ensures other { IsErrOf result (SqlFault.BadSchema (pos 1)) → ⊥ }
{
    let found = schema_number(conn)?;
    if found == NUMBER {
        Ok(())
    } else {
        Err(SqlFault::BadSchema { found })
    }
}

/// The connection made anew over its store, whose rows are gone over once more: only of what was just opened is it
/// known that rowids rise.
fn reopened<S: Alter + Drop>(
    alloc: Global,
    connection: Connection<S>,
) -> Result<Connection<S>, SqlFault>
    ensures idle { IfOk result (λ conn. conn.in_transaction ≡ false) }
    ensures again { IfOk result (λ conn. HasCleanDisk (state S.Store conn)
        → IsReopened (state S.Store connection) (state S.Store conn)) }
    ensures schema { IfOk result (λ conn. HasCleanDisk (state S.Store conn) → connection.in_transaction ≡ false
        → conn.schema ≡ connection.schema) }
    ensures clean { IfOk result (λ conn. doubt (state S.Store connection).is_clean ≤ doubt (state S.Store conn).is_clean) }
    ensures unnumbered { IfErr result IsUnnumbered }
{
    let _ = connection.schema();
    let _ = connection.is_autocommit();
    let store = connection.into_store();
    if store.is_broken() {
        return Err(SqlFault::Failed);
    }
    match Connection::over(alloc, store) {
        Ok(conn) => Ok(conn),
        Err((error, _)) => Err(SqlFault::from(error)),
    }
}

/// A connection whose database has the tables of the schema with number 1, made anew. An empty database gets them.
pub(crate) fn checked<S: Alter + Drop>(
    alloc: Global,
    connection: Connection<S>,
) -> Result<Connection<S>, SqlFault>
    ensures idle { IfOk result (λ conn. conn.in_transaction ≡ false) }
    ensures open { IfOk result (λ conn. HasCleanDisk (state S.Store conn) → IsTrue (state S.Store conn).is_open) }
    ensures shaped { IfOk result (λ conn. HasCleanDisk (state S.Store conn)
        → AreShapedTables (state S.Store conn).now) }
    ensures kept { IfOk result (λ conn. HasCleanDisk (state S.Store conn) → connection.schema ≡ store_schema
        → (state S.Store conn).committed.trees ≡ (state S.Store connection).committed.trees) }
    ensures schema { IfOk result (λ conn. HasCleanDisk (state S.Store conn) → connection.schema ≡ store_schema
        → conn.schema ≡ store_schema) }
    ensures number { IfOk result (λ conn. HasCleanDisk (state S.Store conn) → connection.schema ≡ store_schema
        → TellsNumber ((state S.Store connection).now.trees 4) (pos 1)) }
    ensures refused { IsReliable S.Store → connection.schema ≡ store_schema
        → HasNumber result ((state S.Store connection).now.trees 4) }
    ensures other { IsErrOf result (SqlFault.BadSchema (pos 1)) → ⊥ }
    ensures busy { connection.in_transaction ≡ true → result ≡ Err SqlFault.Failed }
{
    let mut conn = connection;
    if !conn.is_autocommit() {
        return Err(SqlFault::Failed);
    }
    expect_tables(&mut conn)?;
    expect_number(&mut conn)?;
    reopened(alloc, conn)
}
