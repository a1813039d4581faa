//! Whether the columns of a table are those of the schema with number 1.

ghost use Rattle.std.specs.Prelude.{◌≡◌, ◌↔◌, Some, IsTrue, slice_get};
ghost use Rattle.sqlite.specs.declared.types.Value.TheVariants.{Null};
ghost use Rattle.keeper_sqlite.specs.Tables.{column_of};
ghost use Rattle.keeper_sqlite.specs.Schemas.{facts_columns, objects_columns, refs_columns};

use sqlite_items::Items;
use sqlite_schema::schema::{Column, Kind};
use sqlite_value::keys::Collation;
use sqlite_value::value::{Bytes, Value};

pub(crate) fn is_name(bytes: &Bytes, wanted: &[u8]) -> bool
    ensures { IsTrue result ↔ (bytes.now ≡ wanted.now) }
{
    bytes.as_slice() == wanted
}

fn is_kind(kind: Kind, wanted: Kind) -> bool
    ensures { IsTrue result ↔ (kind ≡ wanted) }
{
    kind == wanted
}

fn is_null(value: &Value) -> bool
    ensures { IsTrue result ↔ (value.now ≡ Null) }
{
    matches!(value, Value::Null)
}

fn is_binary(collation: Collation) -> bool
    ensures { IsTrue result ↔ (collation ≡ Collation.Binary) }
{
    matches!(collation, Collation::Binary)
}

fn is_column(column: &Column, name: &[u8], kind: Kind) -> bool
    ensures { IsTrue result ↔ (column.now ≡ column_of name.now kind) }
{
    if !is_name(&column.name, name) {
        return false;
    }
    if !is_kind(column.kind, kind) {
        return false;
    }
    if !column.is_strict {
        return false;
    }
    if !column.not_null {
        return false;
    }
    if !is_null(&column.default) {
        return false;
    }
    is_binary(column.collation)
}

fn is_column_at(columns: &Items<Column>, at: usize, name: &[u8], kind: Kind) -> bool
    ensures { IsTrue result ↔ (slice_get columns.now at ≡ Some (column_of name.now kind)) }
{
    match columns.get(at) {
        Some(column) => is_column(column, name, kind),
        None => false,
    }
}

pub(crate) fn are_objects_columns(columns: &Items<Column>) -> bool
    ensures { IsTrue result ↔ (columns.now ≡ objects_columns) }
{
    if columns.len() != 3 {
        return false;
    }
    if !is_column_at(columns, 0, b"id", Kind::Blob) {
        return false;
    }
    if !is_column_at(columns, 1, b"kind", Kind::Integer) {
        return false;
    }
    is_column_at(columns, 2, b"body", Kind::Blob)
}

pub(crate) fn are_refs_columns(columns: &Items<Column>) -> bool
    ensures { IsTrue result ↔ (columns.now ≡ refs_columns) }
{
    if columns.len() != 2 {
        return false;
    }
    if !is_column_at(columns, 0, b"name", Kind::Blob) {
        return false;
    }
    is_column_at(columns, 1, b"id", Kind::Blob)
}

pub(crate) fn are_facts_columns(columns: &Items<Column>) -> bool
    ensures { IsTrue result ↔ (columns.now ≡ facts_columns) }
{
    if columns.len() != 2 {
        return false;
    }
    if !is_column_at(columns, 0, b"name", Kind::Text) {
        return false;
    }
    is_column_at(columns, 1, b"value", Kind::Integer)
}
