//! What is read of the store.

ghost use Rattle.std.specs.Prelude.{◌≡◌, ◌≤◌, ◌↔◌, false, IfOk, IsTrue};
ghost use Rattle.std.specs.Option.{option_map, option_copied};
ghost use Rattle.std.specs.FinMap.{get};
ghost use Rattle.sqlite.specs.Held.{state};
ghost use Rattle.sqlite_trees.specs.View.{doubt};
ghost use Rattle.sqlite.specs.State.{HasCleanDisk, Survives};
ghost use Rattle.octets.specs.BytesMap.{entry_after};
ghost use Rattle.keeper_api.specs.Changes.{ref_value};
ghost use Rattle.keeper_sqlite.specs.Answering.{IsAnswered};
ghost use Rattle.keeper_sqlite.specs.Rows.{map_in, object_of, ref_of};
ghost use Rattle.keeper_sqlite.specs.States.{IsSame, IsStore};
ghost use Rattle.keeper_sqlite.specs.Tables.{store_schema};

use crate::columns::{RowFault, id_in, object_id_in, object_in, ref_in};
use crate::statements::{select_next_object, select_next_ref, select_object, select_ref};
use git_object::{Object, ObjectId, RefName};
use keeper_api::{KeeperFault, RefValue};
use sqlite::{Alter, Connection};
use std::alloc::Global;

// A row that stands for nothing is a failure of the database.
fn row_fault(fault: RowFault) -> KeeperFault
    ensures nothing { (result ≡ KeeperFault.Failed) ↔ (fault ≡ RowFault.Nothing) }
    ensures memory { (result ≡ KeeperFault.Memory) ↔ (fault ≡ RowFault.Memory) }
{
    match fault {
        RowFault::Nothing => KeeperFault::Failed,
        RowFault::Memory => KeeperFault::Memory,
    }
}

/// The object at an id.
pub fn look_object<S: Alter>(
    conn: &mut Connection<S>,
    alloc: Global,
    id: &ObjectId,
) -> Result<Option<Object>, KeeperFault>
    requires idle { conn.old.in_transaction ≡ false }
    ensures idle { conn.new.in_transaction ≡ false }
    ensures was_open { IsTrue (state S.Store conn.new).is_open → IsTrue (state S.Store conn.old).is_open }
    ensures same { IsTrue (state S.Store conn.new).is_open → conn.old.schema ≡ store_schema
        → IsSame (state S.Store conn.old) (state S.Store conn.new) }
    ensures found { IsTrue (state S.Store conn.new).is_open → IsStore (state S.Store conn.old).now
        → IfOk result (λ found. found ≡ get (map_in object_of ((state S.Store conn.old).now.trees 0)) id.now) }
    ensures answered { HasCleanDisk (state S.Store conn.new) → IsAnswered result
        → IsTrue (state S.Store conn.new).is_open }
    ensures clean { doubt (state S.Store conn.old).is_clean ≤ doubt (state S.Store conn.new).is_clean }
    ensures survives { conn.old.schema ≡ store_schema
        → Survives (state S.Store conn.old) (state S.Store conn.new) (λ _. ⊥) }
{
    match select_object(conn, id.as_bytes()) {
        Ok(Some(row)) => match object_in(alloc, &row) {
            Ok(object) => Ok(Some(object)),
            Err(fault) => Err(row_fault(fault)),
        },
        Ok(None) => Ok(None),
        Err(fault) => Err(fault),
    }
}

/// The id that a reference name stands at.
pub fn look_ref<S: Alter>(
    conn: &mut Connection<S>,
    name: &RefName,
) -> Result<Option<ObjectId>, KeeperFault>
    requires idle { conn.old.in_transaction ≡ false }
    ensures idle { conn.new.in_transaction ≡ false }
    ensures was_open { IsTrue (state S.Store conn.new).is_open → IsTrue (state S.Store conn.old).is_open }
    ensures same { IsTrue (state S.Store conn.new).is_open → conn.old.schema ≡ store_schema
        → IsSame (state S.Store conn.old) (state S.Store conn.new) }
    ensures found { IsTrue (state S.Store conn.new).is_open → IsStore (state S.Store conn.old).now
        → IfOk result (λ found. found ≡ get (map_in ref_of ((state S.Store conn.old).now.trees 2)) name.now) }
    ensures answered { HasCleanDisk (state S.Store conn.new) → IsAnswered result
        → IsTrue (state S.Store conn.new).is_open }
    ensures clean { doubt (state S.Store conn.old).is_clean ≤ doubt (state S.Store conn.new).is_clean }
    ensures survives { conn.old.schema ≡ store_schema
        → Survives (state S.Store conn.old) (state S.Store conn.new) (λ _. ⊥) }
{
    match select_ref(conn, name.text()) {
        Ok(Some(row)) => match id_in(&row) {
            Ok(id) => Ok(Some(id)),
            Err(fault) => Err(row_fault(fault)),
        },
        Ok(None) => Ok(None),
        Err(fault) => Err(fault),
    }
}

/// The least id above one, or the least of all.
pub fn look_next_object<S: Alter>(
    conn: &mut Connection<S>,
    after: Option<&ObjectId>,
) -> Result<Option<ObjectId>, KeeperFault>
    requires idle { conn.old.in_transaction ≡ false }
    ensures idle { conn.new.in_transaction ≡ false }
    ensures was_open { IsTrue (state S.Store conn.new).is_open → IsTrue (state S.Store conn.old).is_open }
    ensures same { IsTrue (state S.Store conn.new).is_open → conn.old.schema ≡ store_schema
        → IsSame (state S.Store conn.old) (state S.Store conn.new) }
    ensures found { IsTrue (state S.Store conn.new).is_open → IsStore (state S.Store conn.old).now
        → IfOk result (λ found. found ≡ option_map (λ e. e.0)
        (entry_after (map_in object_of ((state S.Store conn.old).now.trees 0)) (option_copied after.entry))) }
    ensures answered { HasCleanDisk (state S.Store conn.new) → IsAnswered result
        → IsTrue (state S.Store conn.new).is_open }
    ensures clean { doubt (state S.Store conn.old).is_clean ≤ doubt (state S.Store conn.new).is_clean }
    ensures survives { conn.old.schema ≡ store_schema
        → Survives (state S.Store conn.old) (state S.Store conn.new) (λ _. ⊥) }
{
    let key: &[u8] = match after {
        Some(id) => id.as_bytes(),
        None => &[],
    };
    match select_next_object(conn, key) {
        Ok(Some(row)) => match object_id_in(&row) {
            Ok(id) => Ok(Some(id)),
            Err(fault) => Err(row_fault(fault)),
        },
        Ok(None) => Ok(None),
        Err(fault) => Err(fault),
    }
}

/// The reference with the least name above one, or the least of all.
pub fn look_next_ref<S: Alter>(
    conn: &mut Connection<S>,
    alloc: Global,
    after: Option<&RefName>,
) -> Result<Option<RefValue>, KeeperFault>
    requires idle { conn.old.in_transaction ≡ false }
    ensures idle { conn.new.in_transaction ≡ false }
    ensures was_open { IsTrue (state S.Store conn.new).is_open → IsTrue (state S.Store conn.old).is_open }
    ensures same { IsTrue (state S.Store conn.new).is_open → conn.old.schema ≡ store_schema
        → IsSame (state S.Store conn.old) (state S.Store conn.new) }
    ensures found { IsTrue (state S.Store conn.new).is_open → IsStore (state S.Store conn.old).now
        → IfOk result (λ found. found ≡ option_map ref_value
        (entry_after (map_in ref_of ((state S.Store conn.old).now.trees 2)) (option_copied after.entry))) }
    ensures answered { HasCleanDisk (state S.Store conn.new) → IsAnswered result
        → IsTrue (state S.Store conn.new).is_open }
    ensures clean { doubt (state S.Store conn.old).is_clean ≤ doubt (state S.Store conn.new).is_clean }
    ensures survives { conn.old.schema ≡ store_schema
        → Survives (state S.Store conn.old) (state S.Store conn.new) (λ _. ⊥) }
{
    let key: &[u8] = match after {
        Some(name) => name.text(),
        None => &[],
    };
    match select_next_ref(conn, key) {
        Ok(Some(row)) => match ref_in(alloc, &row) {
            Ok((name, id)) => Ok(Some(RefValue { name, id })),
            Err(fault) => Err(row_fault(fault)),
        },
        Ok(None) => Ok(None),
        Err(fault) => Err(fault),
    }
}
