//! Names in the order in which they came first.

ghost use Rattle.std.specs.Prelude.{◌≡◌, ◌++◌, ◌∷◌, [], ℕ, List, true, false, is_some, if◌then◌else◌, OnErr, OnOk};
ghost use Rattle.std.specs.BTreeMap as tree;
ghost use Rattle.std.specs.Ordering.{is_eq};
ghost use Rattle.octets.specs.BytesMap.{by_bytes};
ghost use Rattle.policy_changes.specs.Keeping.{AreKept};
ghost use Rattle.policy_changes.specs.Names.{has_name, with_body, with_name};

use git_object::RefName;
use octets::{Copied, Items, Memory};
use rsl_chain::{Entry, EntryBody};
use std::alloc::Global;
use std::collections::BTreeMap;
use std::marker::Model;

/// The names of the references that entries speak of, seen as the list of them, each once, in the order in which they
/// came first.
#[derive(Drop)]
pub struct LogNames {
    names: Items<RefName>,
    table: BTreeMap<RefName, u64>,
}

impl Model for LogNames {
    ghost use Rattle.std.specs.Prelude.{ℕ, List};
    ghost use Rattle.policy_changes.specs.Keeping.{AreKept};

    ghost Value = { List (List ℕ) };

    ghost view = { λ n. n.names };

    ghost invariant = { λ n. AreKept n.names n.table };
}

// Puts a name into the table. After a refusal nothing has changed.
fn put(table: &mut BTreeMap<RefName, u64>, name: RefName) -> Result<(), Memory>
    ensures put { OnOk result ((q : List ℕ) → is_some (tree.get by_bytes table.new q)
        ≡ (if is_eq (by_bytes name q) then true else is_some (tree.get by_bytes table.old q))) }
    ensures same { OnErr result (table.new.entries ≡ table.old.entries) }
{
    let _had = table.insert(name, 0)?;
    Ok(())
}

// Takes a name out of the table.
fn take_out(table: &mut BTreeMap<RefName, u64>, name: &RefName)
    ensures { (q : List ℕ) → is_some (tree.get by_bytes table.new q)
        ≡ (if is_eq (by_bytes name.now q) then false else is_some (tree.get by_bytes table.old q)) }
{
    let _had = table.remove(name);
}

// Adds a name that is not there.
fn add_new(
    names: &mut Items<RefName>,
    table: &mut BTreeMap<RefName, u64>,
    name: &RefName,
) -> Result<(), Memory>
    requires kept { AreKept names.old table.old }
    requires new { has_name names.old name.now ≡ false }
    ensures added { OnOk result (names.new ≡ names.old ++ name.now ∷ []) }
    ensures same { OnErr result (names.new ≡ names.old) }
    ensures kept { AreKept names.new table.new }
{
    let key = name.copied()?;
    let item = name.copied()?;
    put(table, key)?;
    match names.push(item) {
        Ok(()) => Ok(()),
        Err(_) => {
            take_out(table, name);
            Err(Memory)
        }
    }
}

// Whether a name is in the table.
fn is_there(table: &BTreeMap<RefName, u64>, name: &RefName) -> bool
    ensures { result ≡ is_some (tree.get by_bytes table.now name.now) }
{
    table.get(name).is_some()
}

// Adds a name, unless it is there.
fn add(
    names: &mut Items<RefName>,
    table: &mut BTreeMap<RefName, u64>,
    name: &RefName,
) -> Result<(), Memory>
    requires { AreKept names.old table.old }
    ensures added { OnOk result (names.new ≡ with_name names.old name.now) }
    ensures same { OnErr result (names.new ≡ names.old) }
    ensures kept { AreKept names.new table.new }
{
    if is_there(table, name) {
        return Ok(());
    }
    add_new(names, table, name)
}

impl LogNames {
    /// No name. It takes no memory.
    pub fn new(alloc: Global) -> LogNames
        ensures { result ≡ [] }
    {
        LogNames {
            names: Items::new(alloc),
            table: BTreeMap::new(alloc),
        }
    }

    /// The names, lent.
    pub fn as_slice(&self) -> &[RefName]
        ensures { result.now ≡ self.now }
    {
        self.names.as_slice()
    }

    /// Whether a name is one of them. It takes no memory.
    pub fn has(&self, name: &RefName) -> bool
        ensures { result ≡ has_name self.now name.now }
    {
        is_there(&self.table, name)
    }

    /// Adds a name at the end, unless it is there. After a refusal the names are as before.
    pub fn add(&mut self, name: &RefName) -> Result<(), Memory>
        ensures added { OnOk result (self.new ≡ with_name self.old name.now) }
        ensures same { OnErr result (self.new ≡ self.old) }
    {
        add(&mut self.names, &mut self.table, name)
    }

    /// Adds the name of which an entry records a target, unless it is there. After a refusal the names are as before.
    pub fn take(&mut self, entry: &Entry) -> Result<(), Memory>
        ensures added { OnOk result (self.new ≡ with_body self.old entry.now.body) }
        ensures same { OnErr result (self.new ≡ self.old) }
    {
        match &entry.body {
            EntryBody::Reference { name, target: _ } => self.add(name),
            EntryBody::Annotation {
                ids: _,
                skip: _,
                message: _,
            } => Ok(()),
        }
    }
}
