//! The statements, each a call of the database.

ghost use Rattle.std.specs.Prelude.{◌≡◌, ◌≤◌, pos, false, IfOk, IsTrue, OnOk};
ghost use Rattle.sqlite.specs.Given.{IsPlain};
ghost use Rattle.sqlite.specs.Held.{state};
ghost use Rattle.sqlite.specs.Listing.{understood};
ghost use Rattle.sqlite_trees.specs.View.{doubt};
ghost use Rattle.sqlite.specs.State.{HasCleanDisk, Survives};
ghost use Rattle.keeper_sqlite.specs.Rows.{Selects, Follows, one_column, two_columns, key_and_column};
ghost use Rattle.keeper_sqlite.specs.Answering.{IsAnswered};
ghost use Rattle.keeper_sqlite.specs.States.{Answers, DropsRef, Inside, IsSame, IsStore, PutsObject, PutsRef};
ghost use Rattle.keeper_sqlite.specs.Tables.{store_schema};

use crate::refusals::refusal;
use keeper_api::KeeperFault;
use sqlite::{Alter, Connection, Error, Row, Transaction, params};

// The row of a selection by one key, or None where there is none.
fn select_row<S: Alter>(
    conn: &mut Connection<S>,
    sql: &str,
    key: &[u8],
) -> Result<Option<Row>, Error>
    requires idle { conn.old.in_transaction ≡ false }
    ensures idle { conn.new.in_transaction ≡ false }
    ensures was_open { IsTrue (state S.Store conn.new).is_open → IsTrue (state S.Store conn.old).is_open }
    ensures same { IsTrue (state S.Store conn.new).is_open → IsPlain (understood conn.old.schema sql.now)
        → IsSame (state S.Store conn.old) (state S.Store conn.new) }
    ensures row { IsTrue (state S.Store conn.new).is_open
        → IfOk result (Answers sql.now key.now (state S.Store conn.old) (state S.Store conn.new)) }
    ensures answered { HasCleanDisk (state S.Store conn.new) → OnOk result (IsTrue (state S.Store conn.new).is_open) }
    ensures clean { doubt (state S.Store conn.old).is_clean ≤ doubt (state S.Store conn.new).is_clean }
    ensures survives { IsPlain (understood conn.old.schema sql.now)
        → Survives (state S.Store conn.old) (state S.Store conn.new) (λ _. ⊥) }
{
    let _ = conn.is_autocommit();
    match conn.query_row(sql, params![key]) {
        Ok(row) => Ok(Some(row)),
        Err(Error::QueryReturnedNoRows) => Ok(None),
        Err(error) => Err(error),
    }
}

// The same, where a refusal is answered as the keeper answers it.
fn select<S: Alter>(
    conn: &mut Connection<S>,
    sql: &str,
    key: &[u8],
) -> Result<Option<Row>, KeeperFault>
    requires idle { conn.old.in_transaction ≡ false }
    ensures idle { conn.new.in_transaction ≡ false }
    ensures was_open { IsTrue (state S.Store conn.new).is_open → IsTrue (state S.Store conn.old).is_open }
    ensures same { IsTrue (state S.Store conn.new).is_open → IsPlain (understood conn.old.schema sql.now)
        → IsSame (state S.Store conn.old) (state S.Store conn.new) }
    ensures row { IsTrue (state S.Store conn.new).is_open
        → IfOk result (Answers sql.now key.now (state S.Store conn.old) (state S.Store conn.new)) }
    ensures answered { HasCleanDisk (state S.Store conn.new) → IsAnswered result
        → IsTrue (state S.Store conn.new).is_open }
    ensures clean { doubt (state S.Store conn.old).is_clean ≤ doubt (state S.Store conn.new).is_clean }
    ensures survives { IsPlain (understood conn.old.schema sql.now)
        → Survives (state S.Store conn.old) (state S.Store conn.new) (λ _. ⊥) }
{
    match select_row(conn, sql, key) {
        Ok(found) => Ok(found),
        Err(error) => Err(refusal(conn, error)),
    }
}

/// Kind and body of the object at an id.
pub fn select_object<S: Alter>(
    conn: &mut Connection<S>,
    id: &[u8],
) -> Result<Option<Row>, KeeperFault>
    requires idle { conn.old.in_transaction ≡ false }
    ensures idle { conn.new.in_transaction ≡ false }
    ensures was_open { IsTrue (state S.Store conn.new).is_open → IsTrue (state S.Store conn.old).is_open }
    ensures same { IsTrue (state S.Store conn.new).is_open → conn.old.schema ≡ store_schema
        → IsSame (state S.Store conn.old) (state S.Store conn.new) }
    ensures found { IsTrue (state S.Store conn.new).is_open → conn.old.schema ≡ store_schema
        → IfOk result (Selects ((state S.Store conn.old).now.trees 0) id.now two_columns) }
    ensures answered { HasCleanDisk (state S.Store conn.new) → IsAnswered result
        → IsTrue (state S.Store conn.new).is_open }
    ensures clean { doubt (state S.Store conn.old).is_clean ≤ doubt (state S.Store conn.new).is_clean }
    ensures survives { conn.old.schema ≡ store_schema
        → Survives (state S.Store conn.old) (state S.Store conn.new) (λ _. ⊥) }
{
    select(conn, "SELECT kind, body FROM objects WHERE id = ?1", id)
}

/// The id that a reference name stands at.
pub fn select_ref<S: Alter>(
    conn: &mut Connection<S>,
    name: &[u8],
) -> Result<Option<Row>, KeeperFault>
    requires idle { conn.old.in_transaction ≡ false }
    ensures idle { conn.new.in_transaction ≡ false }
    ensures was_open { IsTrue (state S.Store conn.new).is_open → IsTrue (state S.Store conn.old).is_open }
    ensures same { IsTrue (state S.Store conn.new).is_open → conn.old.schema ≡ store_schema
        → IsSame (state S.Store conn.old) (state S.Store conn.new) }
    ensures found { IsTrue (state S.Store conn.new).is_open → conn.old.schema ≡ store_schema
        → IfOk result (Selects ((state S.Store conn.old).now.trees 2) name.now one_column) }
    ensures answered { HasCleanDisk (state S.Store conn.new) → IsAnswered result
        → IsTrue (state S.Store conn.new).is_open }
    ensures clean { doubt (state S.Store conn.old).is_clean ≤ doubt (state S.Store conn.new).is_clean }
    ensures survives { conn.old.schema ≡ store_schema
        → Survives (state S.Store conn.old) (state S.Store conn.new) (λ _. ⊥) }
{
    select(conn, "SELECT id FROM refs WHERE name = ?1", name)
}

/// Id and kind of the object with the least id above this one.
pub fn select_next_object<S: Alter>(
    conn: &mut Connection<S>,
    after: &[u8],
) -> Result<Option<Row>, KeeperFault>
    requires idle { conn.old.in_transaction ≡ false }
    ensures idle { conn.new.in_transaction ≡ false }
    ensures was_open { IsTrue (state S.Store conn.new).is_open → IsTrue (state S.Store conn.old).is_open }
    ensures same { IsTrue (state S.Store conn.new).is_open → conn.old.schema ≡ store_schema
        → IsSame (state S.Store conn.old) (state S.Store conn.new) }
    ensures found { IsTrue (state S.Store conn.new).is_open → conn.old.schema ≡ store_schema
        → IfOk result (Follows ((state S.Store conn.old).now.trees 0) after.now key_and_column) }
    ensures answered { HasCleanDisk (state S.Store conn.new) → IsAnswered result
        → IsTrue (state S.Store conn.new).is_open }
    ensures clean { doubt (state S.Store conn.old).is_clean ≤ doubt (state S.Store conn.new).is_clean }
    ensures survives { conn.old.schema ≡ store_schema
        → Survives (state S.Store conn.old) (state S.Store conn.new) (λ _. ⊥) }
{
    select(
        conn,
        "SELECT id, kind FROM objects WHERE id > ?1 ORDER BY id LIMIT 1",
        after,
    )
}

/// The reference with the least name above this one, and its id.
pub fn select_next_ref<S: Alter>(
    conn: &mut Connection<S>,
    after: &[u8],
) -> Result<Option<Row>, KeeperFault>
    requires idle { conn.old.in_transaction ≡ false }
    ensures idle { conn.new.in_transaction ≡ false }
    ensures was_open { IsTrue (state S.Store conn.new).is_open → IsTrue (state S.Store conn.old).is_open }
    ensures same { IsTrue (state S.Store conn.new).is_open → conn.old.schema ≡ store_schema
        → IsSame (state S.Store conn.old) (state S.Store conn.new) }
    ensures found { IsTrue (state S.Store conn.new).is_open → conn.old.schema ≡ store_schema
        → IfOk result (Follows ((state S.Store conn.old).now.trees 2) after.now key_and_column) }
    ensures answered { HasCleanDisk (state S.Store conn.new) → IsAnswered result
        → IsTrue (state S.Store conn.new).is_open }
    ensures clean { doubt (state S.Store conn.old).is_clean ≤ doubt (state S.Store conn.new).is_clean }
    ensures survives { conn.old.schema ≡ store_schema
        → Survives (state S.Store conn.old) (state S.Store conn.new) (λ _. ⊥) }
{
    select(
        conn,
        "SELECT name, id FROM refs WHERE name > ?1 ORDER BY name LIMIT 1",
        after,
    )
}

/// Puts a row in the place of that with the same id.
pub fn put_object_row<S: Alter>(
    tx: &mut Transaction<'_, S>,
    id: &[u8],
    kind: u32,
    body: &[u8],
) -> Result<usize, Error>
    ensures same_reference { tx.new.conn.ghost_name ≡ tx.old.conn.ghost_name }
    ensures inside { Inside (state S.Store tx.old.conn.now) (state S.Store tx.new.conn.now) }
    ensures put { HasCleanDisk (state S.Store tx.new.conn.now) → IsStore (state S.Store tx.old.conn.now).now
        → OnOk result (PutsObject id.now (pos kind) body.now (state S.Store tx.old.conn.now).now (state S.Store tx.new.conn.now).now) }
{
    tx.execute(
        "INSERT OR REPLACE INTO objects (id, kind, body) VALUES (?1, ?2, ?3)",
        params![id, kind, body],
    )
}

/// Puts a row in the place of that with the same name.
pub fn put_ref_row<S: Alter>(
    tx: &mut Transaction<'_, S>,
    name: &[u8],
    id: &[u8],
) -> Result<usize, Error>
    ensures same_reference { tx.new.conn.ghost_name ≡ tx.old.conn.ghost_name }
    ensures inside { Inside (state S.Store tx.old.conn.now) (state S.Store tx.new.conn.now) }
    ensures put { HasCleanDisk (state S.Store tx.new.conn.now) → IsStore (state S.Store tx.old.conn.now).now
        → OnOk result (PutsRef name.now id.now (state S.Store tx.old.conn.now).now (state S.Store tx.new.conn.now).now) }
{
    tx.execute(
        "INSERT OR REPLACE INTO refs (name, id) VALUES (?1, ?2)",
        params![name, id],
    )
}

/// Takes the row with a name away.
pub fn drop_ref_row<S: Alter>(tx: &mut Transaction<'_, S>, name: &[u8]) -> Result<usize, Error>
    ensures same_reference { tx.new.conn.ghost_name ≡ tx.old.conn.ghost_name }
    ensures inside { Inside (state S.Store tx.old.conn.now) (state S.Store tx.new.conn.now) }
    ensures put { HasCleanDisk (state S.Store tx.new.conn.now) → IsStore (state S.Store tx.old.conn.now).now
        → OnOk result (DropsRef name.now (state S.Store tx.old.conn.now).now (state S.Store tx.new.conn.now).now) }
{
    tx.execute("DELETE FROM refs WHERE name = ?1", params![name])
}
