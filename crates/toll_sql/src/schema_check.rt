//! The test whether a schema is ours.
ghost use Rattle.std.specs.Prelude.{◌≡◌, ◌≢◌, ◌↔◌, [], ◌∷◌, false, IsTrue};
ghost use Rattle.sqlite_value.specs.Keys.{plain};
ghost use Rattle.std.specs.List.{AllByRecursion};
ghost use Rattle.toll_sql.specs.First.{AreFirst};
ghost use Rattle.toll_sql.specs.Others.{ExtendsBy, GuardsNone, HasOurs, RefersToNone};
ghost use Rattle.toll_sql.specs.Plain.{no_schema, no_stamps, table_with};
ghost use Rattle.toll_sql.specs.Plainly.{IsPlainColumn, IsPlainIndex, IsPlainTable, schema_of};
ghost use Rattle.toll_sql.specs.Schema.{made_all};

use sqlite_items::Items;
use sqlite_schema::code::Terms;
use sqlite_schema::schema::{Column, Index, Schema, Stamps, Table};
use sqlite_value::keys::{Collation, Order};
use sqlite_value::value::{Bytes, Value};

/// How many tables version 1 has. It has as many indexes.
const FIRST_TABLES: usize = 13;

/// Whether the schema is empty.
pub(crate) fn is_blank(schema: &Schema) -> bool
    ensures same { IsTrue result → schema.now ≡ no_schema }
    ensures other { result ≡ false → schema.now ≢ no_schema }
{
    schema.tables.is_empty() && schema.indexes.is_empty() && schema.views.is_empty()
}

fn same_bytes(a: &Bytes, b: &Bytes) -> bool
    ensures { IsTrue result ↔ a.now ≡ b.now }
{
    a.as_slice() == b.as_slice()
}

fn same_places(a: &Items<usize>, b: &Items<usize>) -> bool
    ensures { IsTrue result ↔ a.now ≡ b.now }
{
    a.as_slice() == b.as_slice()
}

// Whether the column is the plain one.
fn is_column(column: &Column, wanted: &Column) -> bool
    ensures { IsPlainColumn wanted.now → (IsTrue result ↔ column.now ≡ wanted.now) }
{
    same_bytes(&column.name, &wanted.name)
        && column.kind == wanted.kind
        && column.is_strict
        && column.not_null
        && matches!(column.default, Value::Null)
        && matches!(column.collation, Collation::Binary)
}

// Whether the columns are the plain ones.
fn are_columns(columns: &[Column], wanted: &[Column]) -> bool
    ensures { AllByRecursion IsPlainColumn wanted.now → (IsTrue result ↔ columns.now ≡ wanted.now) }
{
    match (columns, wanted) {
        ([], []) => true,
        ([first, columns @ ..], [one, wanted @ ..]) => is_column(first, one)
            && are_columns(columns, wanted),
        _ => false,
    }
}

fn has_no_terms(terms: &Terms) -> bool
    ensures { IsTrue result ↔ terms.now ≡ [] }
{
    terms.roots.is_empty()
}

fn has_no_stamps(stamps: &Stamps) -> bool
    ensures { IsTrue result ↔ stamps.now ≡ no_stamps }
{
    stamps.places.is_empty() && has_no_terms(&stamps.terms) && stamps.formats.is_empty()
}

// Whether these places are the only key.
fn is_one_key(uniques: &[Items<usize>], primary: &Items<usize>) -> bool
    ensures { IsTrue result ↔ uniques.now ≡ primary.now ∷ [] }
{
    match uniques {
        [key] => same_places(key, primary),
        _ => false,
    }
}

// Whether it is the one order, the plain one.
fn is_one_order(orders: &[Order]) -> bool
    ensures { IsTrue result ↔ orders.now ≡ plain ∷ [] }
{
    match orders {
        [order] => order.digits == 0,
        _ => false,
    }
}

// Whether the table has columns and its key, and nothing else.
fn is_plain(table: &Table) -> bool
    ensures { IsTrue result ↔ table.now ≡ table_with table.now.tree table.now.name table.now.columns table.now.primary }
{
    table.key.is_none()
        && is_one_key(table.uniques.as_slice(), &table.primary)
        && is_one_order(table.orders.as_slice())
        && has_no_terms(&table.checks)
        && table.references.is_empty()
        && table.computed.is_empty()
        && has_no_stamps(&table.stamps)
        && !table.is_counted
}

// Whether the table is the plain one.
fn is_table(table: &Table, wanted: &Table) -> bool
    ensures { IsPlainTable wanted.now → (IsTrue result ↔ table.now ≡ wanted.now) }
{
    same_bytes(&table.name, &wanted.name)
        && table.tree == wanted.tree
        && same_places(&table.primary, &wanted.primary)
        && are_columns(table.columns.as_slice(), wanted.columns.as_slice())
        && is_plain(table)
}

// Whether the tables are the plain ones.
fn are_tables(tables: &[Table], wanted: &[Table]) -> bool
    ensures { AllByRecursion IsPlainTable wanted.now → (IsTrue result ↔ tables.now ≡ wanted.now) }
{
    match (tables, wanted) {
        ([], []) => true,
        ([first, tables @ ..], [one, wanted @ ..]) => is_table(first, one)
            && are_tables(tables, wanted),
        _ => false,
    }
}

// Whether the index is the plain one.
fn is_index(index: &Index, wanted: &Index) -> bool
    ensures { IsPlainIndex wanted.now → (IsTrue result ↔ index.now ≡ wanted.now) }
{
    same_bytes(&index.name, &wanted.name)
        && index.tree == wanted.tree
        && index.table == wanted.table
        && same_places(&index.columns, &wanted.columns)
        && index.order.digits == 0
        && index.is_unique == wanted.is_unique
}

// Whether the indexes are the plain ones.
fn are_indexes(indexes: &[Index], wanted: &[Index]) -> bool
    ensures { AllByRecursion IsPlainIndex wanted.now → (IsTrue result ↔ indexes.now ≡ wanted.now) }
{
    match (indexes, wanted) {
        ([], []) => true,
        ([first, indexes @ ..], [one, wanted @ ..]) => is_index(first, one)
            && are_indexes(indexes, wanted),
        _ => false,
    }
}

/// The tables that a schema has.
#[derive(Clone, Copy)]
pub(crate) enum Layout {
    /// The office's tables of this version, and perhaps others after them.
    Ours,
    /// The office's tables of version 1, and no others.
    First,
    /// Other tables, or not all of the office's.
    Other,
}

/// Which tables these are. `made` is the schema of the office's tables.
pub(crate) fn layout_of(schema: &Schema, made: &Schema) -> Layout
    requires { made.now ≡ made_all }
    ensures ours { result ≡ Layout.Ours → HasOurs schema.now }
    ensures first { result ≡ Layout.First → AreFirst schema.now }
    ensures other { result ≡ Layout.Other → (¬ HasOurs schema.now) × (¬ AreFirst schema.now) }
{
    if has_ours(schema, made) {
        return Layout::Ours;
    }
    if has_tables(
        schema,
        &made.tables.as_slice()[..FIRST_TABLES],
        &made.indexes.as_slice()[..FIRST_TABLES],
    ) {
        return Layout::First;
    }
    Layout::Other
}

// Whether the schema has the plain tables and indexes, and nothing else.
fn has_tables(schema: &Schema, tables: &[Table], indexes: &[Index]) -> bool
    ensures { AllByRecursion IsPlainTable tables.now → AllByRecursion IsPlainIndex indexes.now
        → (IsTrue result ↔ schema.now ≡ schema_of tables.now indexes.now) }
{
    are_tables(schema.tables.as_slice(), tables)
        && are_indexes(schema.indexes.as_slice(), indexes)
        && schema.views.is_empty()
}

// Whether the schema has the office's tables, and no others after them that affect their rows.
fn has_ours(schema: &Schema, made: &Schema) -> bool
    requires { made.now ≡ made_all }
    ensures { IsTrue result ↔ HasOurs schema.now }
{
    let tables = made.tables.as_slice();
    begin_with_tables(schema.tables.as_slice(), tables)
        && begin_with_indexes(schema.indexes.as_slice(), made.indexes.as_slice(), tables)
}

// Whether the first tables are the plain ones, and no table after them has a foreign key.
fn begin_with_tables(tables: &[Table], wanted: &[Table]) -> bool
    ensures { AllByRecursion IsPlainTable wanted.now → (IsTrue result ↔ ExtendsBy RefersToNone wanted.now tables.now) }
{
    match tables.split_at_checked(wanted.len()) {
        Some((first, others)) => are_tables(first, wanted) && refer_to_none(others),
        None => false,
    }
}

// Whether the first indexes are the plain ones, and no index after them is a unique one of these tables.
fn begin_with_indexes(indexes: &[Index], wanted: &[Index], tables: &[Table]) -> bool
    ensures { AllByRecursion IsPlainIndex wanted.now → (IsTrue result ↔ ExtendsBy (GuardsNone tables.now) wanted.now indexes.now) }
{
    match indexes.split_at_checked(wanted.len()) {
        Some((first, others)) => are_indexes(first, wanted) && all_guard_none(others, tables),
        None => false,
    }
}

fn refer_to_none(tables: &[Table]) -> bool
    ensures { IsTrue result ↔ AllByRecursion RefersToNone tables.now }
{
    match tables {
        [] => true,
        [table, tables @ ..] => table.references.is_empty() && refer_to_none(tables),
    }
}

fn all_guard_none(indexes: &[Index], tables: &[Table]) -> bool
    ensures { IsTrue result ↔ AllByRecursion (GuardsNone tables.now) indexes.now }
{
    match indexes {
        [] => true,
        [index, indexes @ ..] => guards_none(index, tables) && all_guard_none(indexes, tables),
    }
}

// Whether the index isn't a unique one of any of these tables.
fn guards_none(index: &Index, tables: &[Table]) -> bool
    ensures { IsTrue result ↔ GuardsNone tables.now index.now }
{
    match tables {
        [] => true,
        [table, tables @ ..] => !(index.is_unique && index.table == table.tree)
            && guards_none(index, tables),
    }
}
