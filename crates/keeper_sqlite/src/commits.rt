//! A change, made in one transaction.

ghost use Rattle.std.specs.Prelude.{◌≡◌, false, IsTrue, OnOk, OnErr};
ghost use Rattle.sqlite.specs.Held.{state};
ghost use Rattle.sqlite.specs.State.{HasCleanDisk, Survives};
ghost use Rattle.keeper_api.specs.Changes.{changed};
ghost use Rattle.keeper_sqlite.specs.Making.{GoesOn};
ghost use Rattle.keeper_sqlite.specs.Rows.{kind_number, repository_in};
ghost use Rattle.keeper_sqlite.specs.States.{Becomes, Inside, IsStore, with_all, with_change, with_changes};
ghost use Rattle.keeper_sqlite.specs.States.{with_object};

use crate::refusals::{fault_of, is_alive};
use crate::statements::{drop_ref_row, put_object_row, put_ref_row};
use git_object::{Kind, Object};
use keeper_api::{Change, KeeperFault, RefChange};
use sqlite::{Alter, Connection, Error, Transaction};

// The number of a kind.
fn number_of(kind: Kind) -> u32
    ensures { result ≡ kind_number kind }
{
    match kind {
        Kind::Blob => 1,
        Kind::Tree => 2,
        Kind::Commit => 3,
        Kind::Tag => 4,
    }
}

// Keeps an object at its own id.
fn put_object<S: Alter>(tx: &mut Transaction<'_, S>, object: &Object) -> Result<usize, Error>
    ensures same_reference { tx.new.conn.ghost_name ≡ tx.old.conn.ghost_name }
    ensures inside { Inside (state S.Store tx.old.conn.now) (state S.Store tx.new.conn.now) }
    ensures put { HasCleanDisk (state S.Store tx.new.conn.now) → IsStore (state S.Store tx.old.conn.now).now
        → OnOk result (Becomes (with_object object.now) (state S.Store tx.old.conn.now).now (state S.Store tx.new.conn.now).now) }
{
    let id = object.id();
    let kind = number_of(object.kind());
    put_object_row(tx, id.as_bytes(), kind, object.body())
}

// Makes one reference change.
fn change_ref<S: Alter>(tx: &mut Transaction<'_, S>, change: &RefChange) -> Result<usize, Error>
    ensures same_reference { tx.new.conn.ghost_name ≡ tx.old.conn.ghost_name }
    ensures inside { Inside (state S.Store tx.old.conn.now) (state S.Store tx.new.conn.now) }
    ensures put { HasCleanDisk (state S.Store tx.new.conn.now) → IsStore (state S.Store tx.old.conn.now).now
        → OnOk result (Becomes (with_change change.now) (state S.Store tx.old.conn.now).now (state S.Store tx.new.conn.now).now) }
{
    match &change.to {
        Some(id) => put_ref_row(tx, change.name.text(), id.as_bytes()),
        None => drop_ref_row(tx, change.name.text()),
    }
}

// Keeps objects, one after the other.
#[tactic(auto, using(crate::proofs::Insides::inside_none, crate::proofs::Insides::inside_then))]
fn put_each<S: Alter>(tx: &mut Transaction<'_, S>, objects: &[Object]) -> Result<(), Error>
    ensures same_reference { tx.new.conn.ghost_name ≡ tx.old.conn.ghost_name }
    ensures inside { Inside (state S.Store tx.old.conn.now) (state S.Store tx.new.conn.now) }
    ensures put { HasCleanDisk (state S.Store tx.new.conn.now) → IsStore (state S.Store tx.old.conn.now).now
        → OnOk result (Becomes (with_all objects.now) (state S.Store tx.old.conn.now).now (state S.Store tx.new.conn.now).now) }
{
    'objects: for object in objects {
        put_object(tx, object)?;
    }
    Ok(())
}

// Makes reference changes in order.
#[tactic(auto, using(crate::proofs::Insides::inside_none, crate::proofs::Insides::inside_then))]
fn change_each<S: Alter>(tx: &mut Transaction<'_, S>, changes: &[RefChange]) -> Result<(), Error>
    ensures same_reference { tx.new.conn.ghost_name ≡ tx.old.conn.ghost_name }
    ensures inside { Inside (state S.Store tx.old.conn.now) (state S.Store tx.new.conn.now) }
    ensures put { HasCleanDisk (state S.Store tx.new.conn.now) → IsStore (state S.Store tx.old.conn.now).now
        → OnOk result (Becomes (with_changes changes.now) (state S.Store tx.old.conn.now).now (state S.Store tx.new.conn.now).now) }
{
    'changes: for change in changes {
        change_ref(tx, change)?;
    }
    Ok(())
}

// Makes a whole change inside a transaction.
#[tactic(auto, using(crate::proofs::Insides::inside_then))]
fn make_inside<S: Alter>(tx: &mut Transaction<'_, S>, change: &Change) -> Result<(), Error>
    ensures same_reference { tx.new.conn.ghost_name ≡ tx.old.conn.ghost_name }
    ensures inside { Inside (state S.Store tx.old.conn.now) (state S.Store tx.new.conn.now) }
    ensures put { HasCleanDisk (state S.Store tx.new.conn.now) → IsStore (state S.Store tx.old.conn.now).now
        → OnOk result (Becomes (changed change.now) (state S.Store tx.old.conn.now).now (state S.Store tx.new.conn.now).now) }
{
    put_each(tx, change.objects.as_slice())?;
    change_each(tx, change.refs.as_slice())
}

/// Makes a change in one transaction, all or nothing.
pub fn make<S: Alter>(conn: &mut Connection<S>, change: &Change) -> Result<(), Error>
    requires idle { conn.old.in_transaction ≡ false }
    ensures idle { conn.new.in_transaction ≡ false }
    ensures opens { HasCleanDisk (state S.Store conn.new) → OnOk result (IsTrue (state S.Store conn.new).is_open) }
    ensures made { HasCleanDisk (state S.Store conn.new) → IsStore (state S.Store conn.old).now
        → OnOk result (Becomes (changed change.now) (state S.Store conn.old).now (state S.Store conn.new).committed) }
    ensures neither { IsTrue (state S.Store conn.new).is_open
        → OnErr result ((state S.Store conn.new).committed ≡ (state S.Store conn.old).committed) }
    ensures was_open { IsTrue (state S.Store conn.new).is_open → IsTrue (state S.Store conn.old).is_open }
    ensures survives { Survives (state S.Store conn.old) (state S.Store conn.new)
        (λ db. IsStore (state S.Store conn.old).now → repository_in db ≡ changed change.now (repository_in (state S.Store conn.old).now.trees)) }
{
    let mut tx = conn.transaction();
    make_inside(&mut tx, change)?;
    tx.commit()
}

/// How a change was answered.
#[derive(Clone, Copy, Debug, PartialEq, Eq, Drop)]
pub enum Made {
    Done,
    /// The tables are as they were.
    Refused(KeeperFault),
    /// The database answers no more, and a stop may leave the old or the new tables.
    InDoubt,
}

/// Makes a change where the database answers, and where it was refused asks whether it still does.
pub fn try_make<S: Alter>(conn: &mut Connection<S>, change: &Change) -> Made
    requires idle { conn.old.in_transaction ≡ false }
    ensures idle { conn.new.in_transaction ≡ false }
    ensures was_open { IsTrue (state S.Store conn.new).is_open → IsTrue (state S.Store conn.old).is_open }
    ensures done { result ≡ Made.Done → HasCleanDisk (state S.Store conn.new) → IsStore (state S.Store conn.old).now
        → Becomes (changed change.now) (state S.Store conn.old).now (state S.Store conn.new).committed }
    ensures same { (result ≡ Made.Done → ⊥) → IsTrue (state S.Store conn.new).is_open
        → (state S.Store conn.new).committed ≡ (state S.Store conn.old).committed }
    ensures answered { HasCleanDisk (state S.Store conn.new) → GoesOn result
        → IsTrue (state S.Store conn.new).is_open }
    ensures in_doubt { result ≡ Made.InDoubt → HasCleanDisk (state S.Store conn.new)
        → IsTrue (state S.Store conn.old).is_open }
    ensures survives { Survives (state S.Store conn.old) (state S.Store conn.new)
        (λ db. IsStore (state S.Store conn.old).now → repository_in db ≡ changed change.now (repository_in (state S.Store conn.old).now.trees)) }
{
    if !is_alive(conn) {
        return Made::Refused(KeeperFault::Failed);
    }
    match make(conn, change) {
        Ok(()) => Made::Done,
        Err(error) => {
            if is_alive(conn) {
                Made::Refused(fault_of(error))
            } else {
                Made::InDoubt
            }
        }
    }
}
