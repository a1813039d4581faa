//! A store in a database in memory.

use git_object::{Kind, Object, ObjectId, Objects, Octets, RefName, id_of};
use keeper_api::{Change, Keeper, RefChange, RefChanges, load_object};
use keeper_sqlite::{SqlFault, SqlKeeper};
use octets::Memory;
use sqlite::{Connection, MemStore};
use std::alloc::Global;
use std::process::Abort;

// Ends the test at a row, by its number from 0 on, where it is not so.
fn want(rt: &impl Abort, row: usize, is_so: bool) {
    assert!(rt; is_so, "row {row}");
}

// The store over an empty database.
fn empty_store(alloc: Global) -> Result<SqlKeeper<MemStore>, Memory> {
    let Ok(connection) = Connection::open_in_memory(alloc) else {
        return Err(Memory);
    };
    match SqlKeeper::adopt(alloc, connection) {
        Ok(keeper) => Ok(keeper),
        Err(_) => Err(Memory),
    }
}

// Why the database that a text makes is no store, if it is none.
fn refused(alloc: Global, made: &str) -> Result<Option<SqlFault>, Memory> {
    let Ok(mut connection) = Connection::open_in_memory(alloc) else {
        return Err(Memory);
    };
    if connection.execute_batch(made).is_err() {
        return Err(Memory);
    }
    match SqlKeeper::adopt(alloc, connection) {
        Ok(_) => Ok(None),
        Err(fault) => Ok(Some(fault)),
    }
}

// A change that adds a blob of each text and puts main at an id.
fn change_of(alloc: Global, texts: &[&[u8]], to: Option<ObjectId>) -> Result<Change, Memory> {
    let mut objects = Objects::new(alloc);
    for text in texts {
        let body = Octets::from_slice(alloc, text)?;
        objects.push(Object::new(alloc, Kind::Blob, body)?)?;
    }
    let mut refs = RefChanges::new(alloc);
    let name = main_name(alloc)?;
    refs.push(RefChange { name, to })?;
    Ok(Change { objects, refs })
}

fn main_name(alloc: Global) -> Result<RefName, Memory> {
    match RefName::read(alloc, b"refs/heads/main") {
        Ok(name) => Ok(name),
        Err(_) => Err(Memory),
    }
}

// Whether a text's blob is read as it was put there.
fn has(alloc: Global, keeper: &mut SqlKeeper<MemStore>, text: &[u8]) -> bool {
    match load_object(alloc, keeper, &id_of(Kind::Blob, text)) {
        Ok(Some(object)) => object.body() == text,
        _ => false,
    }
}

// Whether main is there.
fn is_main_at(
    alloc: Global,
    keeper: &mut SqlKeeper<MemStore>,
    id: Option<ObjectId>,
) -> Result<bool, Memory> {
    let name = main_name(alloc)?;
    Ok(keeper.read_ref(alloc, &name) == Ok(id))
}

#[test]
fn a_change_is_read_as_rows(rt: HostRuntime) -> Result<(), Memory> {
    let alloc = rt.alloc();
    let mut keeper = empty_store(alloc)?;
    let first = id_of(Kind::Blob, b"first");
    let change = change_of(alloc, &[b"first", b"second"], Some(first))?;
    want(
        &rt,
        0,
        keeper.tells() && keeper.commit(alloc, &change) == Ok(()),
    );
    want(
        &rt,
        1,
        has(alloc, &mut keeper, b"first") && has(alloc, &mut keeper, b"second"),
    );
    want(&rt, 2, !has(alloc, &mut keeper, b"third"));
    want(&rt, 3, is_main_at(alloc, &mut keeper, Some(first))?);
    want(&rt, 4, keeper.faults() == 0);
    Ok(())
}

#[test]
fn a_reference_goes_and_objects_stay(rt: HostRuntime) -> Result<(), Memory> {
    let alloc = rt.alloc();
    let mut keeper = empty_store(alloc)?;
    let first = id_of(Kind::Blob, b"first");
    let put = change_of(alloc, &[b"first"], Some(first))?;
    let gone = change_of(alloc, &[b"first"], None)?;
    want(&rt, 0, keeper.commit(alloc, &put) == Ok(()));
    want(&rt, 1, keeper.commit(alloc, &gone) == Ok(()));
    want(&rt, 2, is_main_at(alloc, &mut keeper, None)?);
    want(&rt, 3, has(alloc, &mut keeper, b"first"));
    Ok(())
}

// Whether this id comes after one.
fn comes_after(
    alloc: Global,
    keeper: &mut SqlKeeper<MemStore>,
    id: &ObjectId,
    next: Option<ObjectId>,
) -> bool {
    keeper.next_object_after(alloc, Some(id)) == Ok(next)
}

#[test]
fn ids_come_in_order(rt: HostRuntime) -> Result<(), Memory> {
    let alloc = rt.alloc();
    let mut keeper = empty_store(alloc)?;
    let change = change_of(alloc, &[b"first", b"second"], None)?;
    want(&rt, 0, keeper.commit(alloc, &change) == Ok(()));
    let one = id_of(Kind::Blob, b"first");
    let other = id_of(Kind::Blob, b"second");
    let (low, high) = if one < other {
        (one, other)
    } else {
        (other, one)
    };
    want(
        &rt,
        1,
        keeper.next_object_after(alloc, None) == Ok(Some(low)),
    );
    want(&rt, 2, comes_after(alloc, &mut keeper, &low, Some(high)));
    want(&rt, 3, comes_after(alloc, &mut keeper, &high, None));
    Ok(())
}

const FACTS: &str = "CREATE TABLE objects
    (id BLOB NOT NULL PRIMARY KEY, kind INTEGER NOT NULL, body BLOB NOT NULL) STRICT;
CREATE TABLE refs (name BLOB NOT NULL PRIMARY KEY, id BLOB NOT NULL) STRICT;
CREATE TABLE facts (name TEXT NOT NULL PRIMARY KEY, value INTEGER NOT NULL) STRICT";

const NINE: &str =
    "CREATE TABLE facts (name TEXT NOT NULL PRIMARY KEY, value INTEGER NOT NULL) STRICT;
INSERT INTO facts (name, value) VALUES ('schema', 9)";

const NOTES: &str = "CREATE TABLE notes (text TEXT)";

#[test]
fn another_schema_is_told_by_its_number(rt: HostRuntime) -> Result<(), Memory> {
    let alloc = rt.alloc();
    want(
        &rt,
        0,
        refused(alloc, FACTS)? == Some(SqlFault::BadSchema { found: 0 }),
    );
    want(
        &rt,
        1,
        refused(alloc, NINE)? == Some(SqlFault::BadSchema { found: 9 }),
    );
    want(&rt, 2, refused(alloc, NOTES)? == Some(SqlFault::Failed));
    Ok(())
}
