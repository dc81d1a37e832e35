//! Whether the tables of a database are those of a store, or those of edition 1.
//!
//! What a statement does is known for these tables alone, so a database with others, or with others
//! beside them, is not adopted.
ghost use Rattle.std.specs.Prelude.{◌≡◌, ◌≢◌, ◌↔◌, ◌+◌, ◌<◌, ◌∷◌, [], IfSome, IsTrue, None, Some};
ghost use Rattle.sqlite_value.specs.Keys.{plain};
ghost use Rattle.xq_tables.specs.Labels.{id_column, label_index, label_table, node2_index, node2_table, IsStoreSchema};
ghost use Rattle.xq_tables.specs.Editions.{AreTables};
ghost use Rattle.xq_tables.specs.private.Schemas.{IsBare};
ghost use Rattle.xq_tables.specs.Tables.{IsOldSchema, layout_table, no_schema, required_column, node_index, node_table};

use sqlite_items::Items;
use sqlite_schema::code::Terms;
use sqlite_schema::schema::{Column, Index, Kind, Schema, Stamps, Table};
use sqlite_value::keys::{Collation, Order};
use sqlite_value::value::{Bytes, Value};

/// The tables of a database that may be adopted.
#[derive(Clone, Copy, Debug, PartialEq, Eq)]
pub enum Tables {
    /// There is none.
    Blank,
    /// The two of edition 1, whichever was made first.
    Old,
    /// Those of edition 2.
    Current,
}

/// Whether a name is this text.
fn is_named(name: &Bytes, text: &str) -> bool
    ensures { IsTrue result ↔ (name.now ≡ text.now) }
{
    name.as_slice() == text.as_bytes()
}

/// Whether this is a column of a STRICT table that is NOT NULL.
fn is_needed(column: &Column, name: &str, kind: Kind) -> bool
    ensures { IsTrue result ↔ (column.now ≡ required_column name.now kind) }
{
    is_named(&column.name, name)
        && column.kind == kind
        && column.is_strict
        && column.not_null
        && matches!(column.default, Value::Null)
        && column.collation == Collation::Binary
}

/// Whether there is no expression.
fn are_none(terms: &Terms) -> bool
    ensures { IsTrue result ↔ (terms.now ≡ []) }
{
    terms.roots.is_empty()
}

/// Whether no default reads the time.
fn are_unstamped(stamps: &Stamps) -> bool
    ensures { IsTrue result ↔ (stamps.now ≡ record { places = []; terms = []; formats = [] }) }
{
    stamps.places.is_empty() && are_none(&stamps.terms) && stamps.formats.is_empty()
}

/// Whether these are the places of the first two columns.
fn are_first_two(places: &Items<usize>) -> bool
    ensures { IsTrue result ↔ (places.now ≡ 1 ∷ 2 ∷ []) }
{
    matches!(places.as_slice(), [1, 2])
}

/// Whether a table has nothing beside its name, its columns and its keys.
fn is_bare(table: &Table) -> bool
    ensures { IsTrue result ↔ IsBare table.now }
{
    are_none(&table.checks)
        && table.references.is_empty()
        && table.computed.is_empty()
        && are_unstamped(&table.stamps)
        && !table.is_counted
}

/// Whether the column of the editions is the only one.
fn are_edition(columns: &Items<Column>) -> bool
    ensures { IsTrue result ↔ (columns.now ≡ layout_table.columns) }
{
    match columns.as_slice() {
        [edition] => is_needed(edition, "edition", Kind::Integer),
        _ => false,
    }
}

/// Whether these are the columns of the nodes.
fn are_node_columns(columns: &Items<Column>) -> bool
    ensures { IsTrue result ↔ (columns.now ≡ node_table.columns) }
{
    match columns.as_slice() {
        [address, pre, size, level, kind, name, value] => {
            is_needed(address, "address", Kind::Text)
                && is_needed(pre, "pre", Kind::Integer)
                && is_needed(size, "size", Kind::Integer)
                && is_needed(level, "level", Kind::Integer)
                && is_needed(kind, "kind", Kind::Integer)
                && is_needed(name, "name", Kind::Text)
                && is_needed(value, "value", Kind::Text)
        }
        _ => false,
    }
}

/// Whether this is the table of the edition, and its rows lie in this tree.
fn is_layout(table: &Table, tree: u32) -> bool
    ensures { IsTrue result ↔ (table.now ≡ record layout_table { tree = tree }) }
{
    is_named(&table.name, "layout")
        && table.tree == tree
        && are_edition(&table.columns)
        && table.key.is_none()
        && table.primary.is_empty()
        && table.uniques.is_empty()
        && table.orders.is_empty()
        && is_bare(table)
}

/// Whether one key is unique, that of the first two columns.
fn are_unique(uniques: &Items<Items<usize>>) -> bool
    ensures { IsTrue result ↔ (uniques.now ≡ (1 ∷ 2 ∷ []) ∷ []) }
{
    match uniques.as_slice() {
        [places] => are_first_two(places),
        _ => false,
    }
}

/// Whether the one key ascends.
fn is_one_plain(orders: &Items<Order>) -> bool
    ensures { IsTrue result ↔ (orders.now ≡ plain ∷ []) }
{
    match orders.as_slice() {
        [order] => *order == Order::PLAIN,
        _ => false,
    }
}

/// Whether this is the table of the nodes, and its rows lie in this tree.
fn is_node(table: &Table, tree: u32) -> bool
    ensures { IsTrue result ↔ (table.now ≡ record node_table { tree = tree }) }
{
    is_named(&table.name, "node")
        && table.tree == tree
        && are_node_columns(&table.columns)
        && table.key.is_none()
        && are_first_two(&table.primary)
        && are_unique(&table.uniques)
        && is_one_plain(&table.orders)
        && is_bare(table)
}

/// Whether this is the index that keeps the primary key of the nodes, whose rows lie in the tree
/// `table`, and its entries lie in this tree.
fn is_node_index(index: &Index, tree: u32, table: u32) -> bool
    ensures { IsTrue result ↔ (index.now ≡ record node_index { tree = tree; table = table }) }
{
    is_named(&index.name, "sqlite_autoindex_node_1")
        && index.tree == tree
        && index.table == table
        && are_first_two(&index.columns)
        && index.order == Order::PLAIN
        && index.is_unique
}

/// Whether the first table is that of the edition, and the second that of the nodes.
fn is_layout_first(first: &Table, second: &Table, index: &Index) -> bool
    ensures { IsTrue result ↔ (first.now ≡ layout_table) × (second.now ≡ node_table)
        × (index.now ≡ node_index) }
{
    is_layout(first, 0) && is_node(second, 1) && is_node_index(index, 2, 1)
}

/// Whether the first table is that of the nodes, and the second that of the edition.
fn is_node_first(first: &Table, second: &Table, index: &Index) -> bool
    ensures { IsTrue result ↔ (first.now ≡ record node_table { tree = 0 })
        × (second.now ≡ record layout_table { tree = 2 })
        × (index.now ≡ record node_index { tree = 1; table = 0 }) }
{
    is_node(first, 0) && is_layout(second, 2) && is_node_index(index, 1, 0)
}

/// Whether the database has the two tables of edition 1 and their index, whichever was made first,
/// and nothing else.
fn is_old_schema(schema: &Schema) -> bool
    ensures { IsTrue result ↔ IsOldSchema schema.now }
{
    match (schema.tables.as_slice(), schema.indexes.as_slice()) {
        ([first, second], [index]) => {
            schema.views.is_empty()
                && (is_layout_first(first, second, index) || is_node_first(first, second, index))
        }
        _ => false,
    }
}

/// Whether this is the number of a label.
fn is_id(column: &Column) -> bool
    ensures { IsTrue result ↔ (column.now ≡ id_column) }
{
    is_named(&column.name, "id")
        && column.kind == Kind::Integer
        && column.is_strict
        && !column.not_null
        && matches!(column.default, Value::Null)
        && column.collation == Collation::Binary
}

/// Whether these are the columns of the labels.
fn are_label_columns(columns: &Items<Column>) -> bool
    ensures { IsTrue result ↔ (columns.now ≡ label_table.columns) }
{
    match columns.as_slice() {
        [id, name] => is_id(id) && is_needed(name, "name", Kind::Text),
        _ => false,
    }
}

/// Whether one key is unique, that of the names.
fn are_names_unique(uniques: &Items<Items<usize>>) -> bool
    ensures { IsTrue result ↔ (uniques.now ≡ (2 ∷ []) ∷ []) }
{
    match uniques.as_slice() {
        [places] => matches!(places.as_slice(), [2]),
        _ => false,
    }
}

/// Whether this is the table of the labels, and its rows lie in this tree.
fn is_label(table: &Table, tree: u32) -> bool
    ensures { IsTrue result ↔ (table.now ≡ record label_table { tree = tree }) }
{
    is_named(&table.name, "label")
        && table.tree == tree
        && are_label_columns(&table.columns)
        && table.key == Some(0)
        && matches!(table.primary.as_slice(), [0])
        && are_names_unique(&table.uniques)
        && is_one_plain(&table.orders)
        && is_bare(table)
}

/// Whether this is the index that keeps the names of the labels apart, whose rows lie in the tree
/// `table`, and its entries lie in this tree.
fn is_label_index(index: &Index, tree: u32, table: u32) -> bool
    ensures { IsTrue result ↔ (index.now ≡ record label_index { tree = tree; table = table }) }
{
    is_named(&index.name, "sqlite_autoindex_label_1")
        && index.tree == tree
        && index.table == table
        && matches!(index.columns.as_slice(), [2])
        && index.order == Order::PLAIN
        && index.is_unique
}

/// Whether these are the columns of the nodes that have labels.
fn are_labelled_columns(columns: &Items<Column>) -> bool
    ensures { IsTrue result ↔ (columns.now ≡ node2_table.columns) }
{
    match columns.as_slice() {
        [address, pre, size, level, kind, label, value] => {
            is_needed(address, "address", Kind::Text)
                && is_needed(pre, "pre", Kind::Integer)
                && is_needed(size, "size", Kind::Integer)
                && is_needed(level, "level", Kind::Integer)
                && is_needed(kind, "kind", Kind::Integer)
                && is_needed(label, "label", Kind::Integer)
                && is_needed(value, "value", Kind::Text)
        }
        _ => false,
    }
}

/// Whether this is the table of the nodes that have labels, and its rows lie in this tree.
fn is_node2(table: &Table, tree: u32) -> bool
    ensures { IsTrue result ↔ (table.now ≡ record node2_table { tree = tree }) }
{
    is_named(&table.name, "node2")
        && table.tree == tree
        && are_labelled_columns(&table.columns)
        && table.key.is_none()
        && are_first_two(&table.primary)
        && are_unique(&table.uniques)
        && is_one_plain(&table.orders)
        && is_bare(table)
}

/// Whether this is the index that keeps the primary key of these nodes, whose rows lie in the tree
/// `table`, and its entries lie in this tree.
fn is_node2_index(index: &Index, tree: u32, table: u32) -> bool
    ensures { IsTrue result ↔ (index.now ≡ record node2_index { tree = tree; table = table }) }
{
    is_named(&index.name, "sqlite_autoindex_node2_1")
        && index.tree == tree
        && index.table == table
        && are_first_two(&index.columns)
        && index.order == Order::PLAIN
        && index.is_unique
}

/// Whether the tables of labels and of nodes lie where those of a new store do.
fn are_first(label: &Table, nodes: &Table, names: &Index, places: &Index) -> bool
    ensures { IsTrue result ↔ (label.now ≡ label_table) × (nodes.now ≡ node2_table)
        × (names.now ≡ label_index) × (places.now ≡ node2_index) }
{
    is_label(label, 1)
        && is_node2(nodes, 3)
        && is_label_index(names, 2, 1)
        && is_node2_index(places, 4, 3)
}

/// Whether the tables of labels and of nodes lie after those of edition 1.
fn are_after(label: &Table, nodes: &Table, names: &Index, places: &Index) -> bool
    ensures { IsTrue result ↔ (label.now ≡ record label_table { tree = 3 })
        × (nodes.now ≡ record node2_table { tree = 5 })
        × (names.now ≡ record label_index { tree = 4; table = 3 })
        × (places.now ≡ record node2_index { tree = 6; table = 5 }) }
{
    is_label(label, 3)
        && is_node2(nodes, 5)
        && is_label_index(names, 4, 3)
        && is_node2_index(places, 6, 5)
}

/// Whether the database has the tables of edition 2 as a store makes them, alone or after those of
/// edition 1, and nothing else.
fn is_store_schema(schema: &Schema) -> bool
    ensures { IsTrue result ↔ IsStoreSchema schema.now }
{
    match (schema.tables.as_slice(), schema.indexes.as_slice()) {
        ([layout, label, nodes], [names, places]) => {
            schema.views.is_empty()
                && is_layout(layout, 0)
                && are_first(label, nodes, names, places)
        }
        ([first, second, label, nodes], [index, names, places]) => {
            schema.views.is_empty()
                && are_after(label, nodes, names, places)
                && (is_layout_first(first, second, index) || is_node_first(first, second, index))
        }
        _ => false,
    }
}

/// Whether no table was made in the database.
pub fn is_blank(schema: &Schema) -> bool
    ensures { IsTrue result ↔ (schema.now ≡ no_schema) }
{
    schema.tables.is_empty() && schema.indexes.is_empty() && schema.views.is_empty()
}

/// Which tables the database has. None where it may not be adopted.
pub fn tables_in(schema: &Schema) -> Option<Tables>
    ensures some { IfSome result (λ tables. AreTables tables schema.now) }
    ensures none { result ≡ None → (schema.now ≢ no_schema) × ¬ (IsOldSchema schema.now)
        × ¬ (IsStoreSchema schema.now) }
{
    if is_blank(schema) {
        return Some(Tables::Blank);
    }
    if is_old_schema(schema) {
        return Some(Tables::Old);
    }
    if is_store_schema(schema) {
        return Some(Tables::Current);
    }
    None
}
