//! Whether the tables of a database are those of the schema with number 1.

ghost use Rattle.std.specs.Prelude.{◌≡◌, ◌<◌, ◌↔◌, [], ◌∷◌, None, Some, IsTrue, false, slice_get, codes};
ghost use Rattle.sqlite_value.specs.Keys.{plain};
ghost use Rattle.keeper_sqlite.specs.Tables.{no_schema, store_schema};
ghost use Rattle.keeper_sqlite.specs.Schemas.{IsKeyed, IsSimple, automatic_of, facts_columns, objects_columns};
ghost use Rattle.keeper_sqlite.specs.Schemas.{refs_columns, table_at};

use crate::table_columns::{are_facts_columns, are_objects_columns, are_refs_columns, is_name};
use sqlite_items::Items;
use sqlite_schema::code::Terms;
use sqlite_schema::schema::{Index, Schema, Stamps, Table};
use sqlite_value::keys::Order;

// Whether the places are that of the first column alone.
fn is_first(places: &Items<usize>) -> bool
    ensures { IsTrue result ↔ (places.now ≡ 1 ∷ []) }
{
    if places.len() != 1 {
        return false;
    }
    match places.get(0) {
        Some(place) => *place == 1,
        None => false,
    }
}

fn is_first_alone(keys: &Items<Items<usize>>) -> bool
    ensures { IsTrue result ↔ (keys.now ≡ (1 ∷ []) ∷ []) }
{
    if keys.len() != 1 {
        return false;
    }
    match keys.get(0) {
        Some(places) => is_first(places),
        None => false,
    }
}

fn is_plain(order: Order) -> bool
    ensures { IsTrue result ↔ (order ≡ plain) }
{
    order.digits == 0
}

fn is_plain_alone(orders: &Items<Order>) -> bool
    ensures { IsTrue result ↔ (orders.now ≡ plain ∷ []) }
{
    if orders.len() != 1 {
        return false;
    }
    match orders.get(0) {
        Some(order) => is_plain(*order),
        None => false,
    }
}

fn has_no_terms(terms: &Terms) -> bool
    ensures { IsTrue result ↔ (terms.now ≡ []) }
{
    terms.roots.is_empty()
}

fn is_unstamped(stamps: &Stamps) -> bool
    ensures { IsTrue result ↔ (stamps.now ≡ record { places = []; terms = []; formats = [] }) }
{
    if !stamps.places.is_empty() {
        return false;
    }
    if !stamps.formats.is_empty() {
        return false;
    }
    has_no_terms(&stamps.terms)
}

// Whether a table has no rule beside its columns and its key.
fn is_simple(table: &Table) -> bool
    ensures { IsTrue result ↔ IsSimple table.now }
{
    if table.key.is_some() {
        return false;
    }
    if !has_no_terms(&table.checks) {
        return false;
    }
    if !table.references.is_empty() {
        return false;
    }
    if !table.computed.is_empty() {
        return false;
    }
    if !is_unstamped(&table.stamps) {
        return false;
    }
    !table.is_counted
}

// Whether the first column of a table is its key.
fn is_keyed(table: &Table) -> bool
    ensures { IsTrue result ↔ IsKeyed table.now }
{
    if !is_first(&table.primary) {
        return false;
    }
    if !is_first_alone(&table.uniques) {
        return false;
    }
    is_plain_alone(&table.orders)
}

fn is_table(table: &Table, name: &[u8], tree: u32) -> bool
    ensures { IsTrue result ↔ (table.now ≡ table_at name.now table.now.columns tree) }
{
    if !is_name(&table.name, name) {
        return false;
    }
    if table.tree != tree {
        return false;
    }
    if !is_simple(table) {
        return false;
    }
    is_keyed(table)
}

fn is_objects(table: &Table) -> bool
    ensures { IsTrue result ↔ (table.now ≡ table_at (codes "objects") objects_columns 0) }
{
    if !is_table(table, b"objects", 0) {
        return false;
    }
    are_objects_columns(&table.columns)
}

fn is_refs(table: &Table) -> bool
    ensures { IsTrue result ↔ (table.now ≡ table_at (codes "refs") refs_columns 2) }
{
    if !is_table(table, b"refs", 2) {
        return false;
    }
    are_refs_columns(&table.columns)
}

fn is_facts(table: &Table) -> bool
    ensures { IsTrue result ↔ (table.now ≡ table_at (codes "facts") facts_columns 4) }
{
    if !is_table(table, b"facts", 4) {
        return false;
    }
    are_facts_columns(&table.columns)
}

fn has_objects(tables: &Items<Table>) -> bool
    ensures { IsTrue result ↔ (slice_get tables.now 0 ≡ Some (table_at (codes "objects") objects_columns 0)) }
{
    match tables.get(0) {
        Some(table) => is_objects(table),
        None => false,
    }
}

fn has_refs(tables: &Items<Table>) -> bool
    ensures { IsTrue result ↔ (slice_get tables.now 1 ≡ Some (table_at (codes "refs") refs_columns 2)) }
{
    match tables.get(1) {
        Some(table) => is_refs(table),
        None => false,
    }
}

fn has_facts(tables: &Items<Table>) -> bool
    ensures { IsTrue result ↔ (slice_get tables.now 2 ≡ Some (table_at (codes "facts") facts_columns 4)) }
{
    match tables.get(2) {
        Some(table) => is_facts(table),
        None => false,
    }
}

fn are_tables(tables: &Items<Table>) -> bool
    ensures { IsTrue result ↔ (tables.now ≡ store_schema.tables) }
{
    if tables.len() != 3 {
        return false;
    }
    if !has_objects(tables) {
        return false;
    }
    if !has_refs(tables) {
        return false;
    }
    has_facts(tables)
}

// Whether an index is the one that a table's key has.
fn is_automatic(index: &Index, name: &[u8], table: u32) -> bool
    requires small { table < 8 }
    ensures { IsTrue result ↔ (index.now ≡ automatic_of name.now table) }
{
    if !is_name(&index.name, name) {
        return false;
    }
    if index.tree != table + 1 {
        return false;
    }
    if index.table != table {
        return false;
    }
    if !is_first(&index.columns) {
        return false;
    }
    if !is_plain(index.order) {
        return false;
    }
    index.is_unique
}

fn is_automatic_at(indexes: &Items<Index>, at: usize, name: &[u8], table: u32) -> bool
    requires small { table < 8 }
    ensures { IsTrue result ↔ (slice_get indexes.now at ≡ Some (automatic_of name.now table)) }
{
    match indexes.get(at) {
        Some(index) => is_automatic(index, name, table),
        None => false,
    }
}

fn are_indexes(indexes: &Items<Index>) -> bool
    ensures { IsTrue result ↔ (indexes.now ≡ store_schema.indexes) }
{
    if indexes.len() != 3 {
        return false;
    }
    if !is_automatic_at(indexes, 0, b"sqlite_autoindex_objects_1", 0) {
        return false;
    }
    if !is_automatic_at(indexes, 1, b"sqlite_autoindex_refs_1", 2) {
        return false;
    }
    is_automatic_at(indexes, 2, b"sqlite_autoindex_facts_1", 4)
}

/// Whether a schema is the one with number 1.
pub(crate) fn is_store_schema(schema: &Schema) -> bool
    ensures { IsTrue result ↔ (schema.now ≡ store_schema) }
{
    if !schema.views.is_empty() {
        return false;
    }
    if !are_tables(&schema.tables) {
        return false;
    }
    are_indexes(&schema.indexes)
}

/// Whether a schema has no table, index or view.
pub(crate) fn is_empty(schema: &Schema) -> bool
    ensures { IsTrue result ↔ (schema.now ≡ no_schema) }
{
    if !schema.tables.is_empty() {
        return false;
    }
    schema.indexes.is_empty() && schema.views.is_empty()
}
