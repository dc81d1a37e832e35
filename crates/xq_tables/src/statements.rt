//! One function for each statement that a store runs, with what it does to the tables.
//!
//! Texts of SQL stand here, in `adopt` and in `tables`, and nowhere above. A write runs inside a
//! transaction, and a query outside one.
ghost use Rattle.std.specs.Prelude.{◌≡◌, [], ◌∷◌, map, false, string_bytes, IfOk, OnOk, IsTrue};
ghost use Rattle.sqlite.specs.State.{HasCleanDisk};
ghost use Rattle.sqlite.specs.Held.{state};
ghost use Rattle.sqlite.specs.Values.{bound};
ghost use Rattle.sqlite_value.specs.declared.value.Value.TheVariants.{Text};
ghost use Rattle.xq_trees.specs.Rows.{placed};
ghost use Rattle.xq_tables.specs.Documents.{IsReady, is_at};
ghost use Rattle.xq_tables.specs.Nodes.{cells};
ghost use Rattle.xq_trees.specs.Codes.{kind_number as number_of_lem};
ghost use Rattle.xq_tables.specs.private.Numbered.{AddsEight};
ghost use Rattle.xq_tables.specs.private.Statements.{Adds, Drops, ReadsPart, Updates, UpdatesNamed, is_part};
ghost use Rattle.xq_tables.specs.Reads.{AreAbove, AreAddresses, IsRange};
ghost use Rattle.xq_tables.specs.private.Inside.{StaysInside};
ghost use Rattle.xq_tables.specs.Outside.{StaysOutside};
ghost use Rattle.xq_tables.specs.Labels.{IsStoreSchema};
ghost use Rattle.xq_sources.specs.Lent.{placed_lent};

use crate::labels::{LabelIds, number_in_hand};
use crate::refusals::Refusal;
use crate::rows::{rest_as_nodes, rest_as_texts};
use sqlite::types::ValueRef;
use sqlite::{Alter, Connection, Error, Row, Transaction, params};
use std::alloc::Global;
use xq_sources::LentRow;
use xq_trees::{Kind, NodeRow};

/// The number that stands for a kind in the tables.
pub fn number_of(kind: Kind) -> u32
    ensures { result ≡ number_of_lem kind }
{
    match kind {
        Kind::Document => 0,
        Kind::Element => 1,
        Kind::Attribute => 2,
        Kind::Text => 3,
        Kind::Comment => 4,
        Kind::ProcessingInstruction => 5,
    }
}

/// Deletes the rows of an address, and says how many there were.
pub fn delete_rows<S: Alter>(
    transaction: &mut Transaction<'_, S>,
    address: &str,
) -> Result<usize, Error>
    ensures inside { StaysInside S.Store transaction.old transaction.new }
    ensures dropped { HasCleanDisk (state S.Store transaction.new.conn.now)
        → IfOk result (Drops (is_at address.now) (state S.Store transaction.old.conn.now)
        (state S.Store transaction.new.conn.now)) }
{
    transaction.execute("DELETE FROM node2 WHERE address = ?1", params![address])
}

/// Deletes the rows of an address whose numbers are from `low` up to, and without, `high`, and says
/// how many there were.
pub fn delete_part<S: Alter>(
    transaction: &mut Transaction<'_, S>,
    address: &str,
    low: u32,
    high: u32,
) -> Result<usize, Error>
    ensures inside { StaysInside S.Store transaction.old transaction.new }
    ensures dropped { HasCleanDisk (state S.Store transaction.new.conn.now)
        → IfOk result (Drops (is_part address.now low high)
        (state S.Store transaction.old.conn.now) (state S.Store transaction.new.conn.now)) }
{
    transaction.execute(
        "DELETE FROM node2 WHERE address = ?1 AND pre >= ?2 AND pre < ?3",
        params![address, low, high],
    )
}

/// Inserts one row under an address, with the number of the label of its name.
pub fn insert_row<S: Alter>(
    transaction: &mut Transaction<'_, S>,
    address: &str,
    row: &LentRow<'_>,
    label: u32,
) -> Result<usize, Error>
    ensures inside { StaysInside S.Store transaction.old transaction.new }
    ensures added { HasCleanDisk (state S.Store transaction.new.conn.now)
        → OnOk result (Adds address.now (placed_lent row.now) label
        (state S.Store transaction.old.conn.now) (state S.Store transaction.new.conn.now)) }
{
    let kind = number_of(row.kind);
    let text = row.value();
    transaction.execute(
        "INSERT INTO node2 (address, pre, size, level, kind, label, value) VALUES (?1, ?2, ?3, ?4, ?5, ?6, ?7)",
        params![address, row.pre, row.size, row.level, kind, label, text],
    )
}

/// Inserts eight rows. The values are the address and then the other columns of each row, with the
/// number of the label of its name.
pub fn insert_eight<S: Alter>(
    transaction: &mut Transaction<'_, S>,
    values: &[ValueRef<'_>],
) -> Result<usize, Error>
    ensures inside { StaysInside S.Store transaction.old transaction.new }
    ensures added { HasCleanDisk (state S.Store transaction.new.conn.now)
        → OnOk result (AddsEight (bound values.now) (state S.Store transaction.old.conn.now)
        (state S.Store transaction.new.conn.now)) }
{
    transaction.execute(
        "INSERT INTO node2 (address, pre, size, level, kind, label, value) VALUES \
         (?1, ?2, ?3, ?4, ?5, ?6, ?7), (?1, ?8, ?9, ?10, ?11, ?12, ?13), \
         (?1, ?14, ?15, ?16, ?17, ?18, ?19), (?1, ?20, ?21, ?22, ?23, ?24, ?25), \
         (?1, ?26, ?27, ?28, ?29, ?30, ?31), (?1, ?32, ?33, ?34, ?35, ?36, ?37), \
         (?1, ?38, ?39, ?40, ?41, ?42, ?43), (?1, ?44, ?45, ?46, ?47, ?48, ?49)",
        values,
    )
}

/// Sets the columns of the row of a node that is there under an address, but for its number, with
/// the number of the label of its name.
pub fn update_row<S: Alter>(
    transaction: &mut Transaction<'_, S>,
    address: &str,
    row: &LentRow<'_>,
    label: u32,
) -> Result<usize, Error>
    ensures inside { StaysInside S.Store transaction.old transaction.new }
    ensures updated { HasCleanDisk (state S.Store transaction.new.conn.now)
        → OnOk result (Updates address.now (placed_lent row.now) label
        (state S.Store transaction.old.conn.now).now
        (state S.Store transaction.new.conn.now).now) }
{
    let kind = number_of(row.kind);
    let text = row.value();
    transaction.execute(
        "UPDATE node2 SET size = ?3, level = ?4, kind = ?5, label = ?6, value = ?7 WHERE address = ?1 AND pre = ?2",
        params![address, row.pre, row.size, row.level, kind, label, text],
    )
}

/// Sets the row of a node that is there, and inserts the label that its name wants.
pub fn update_named<S: Alter>(
    transaction: &mut Transaction<'_, S>,
    names: &mut LabelIds,
    address: &str,
    row: &LentRow<'_>,
) -> Result<(), Error>
    ensures inside { StaysInside S.Store transaction.old transaction.new }
    ensures updated { HasCleanDisk (state S.Store transaction.new.conn.now)
        → OnOk result (UpdatesNamed address.now (placed_lent row.now) names.old.entries
        names.new.entries (state S.Store transaction.old.conn.now).now
        (state S.Store transaction.new.conn.now).now) }
{
    let label = number_in_hand(transaction, names, row.name())?;
    let _count = update_row(transaction, address, row, label)?;
    Ok(())
}

/// Reads the rows of an address whose numbers are from `low` up to, and without, `high`, in the order
/// of their numbers, inside a transaction: the columns pre, size, level, kind, name and value.
pub fn read_part<S: Alter>(
    transaction: &mut Transaction<'_, S>,
    address: &str,
    low: u32,
    high: u32,
) -> Result<Vec<Row>, Error>
    ensures inside { StaysInside S.Store transaction.old transaction.new }
    ensures rows { HasCleanDisk (state S.Store transaction.new.conn.now)
        → IfOk result (λ rows. ReadsPart address.now low high
        (state S.Store transaction.old.conn.now) (state S.Store transaction.new.conn.now)
        rows.items) }
{
    transaction.query_all(
        "SELECT pre, size, level, kind, name, value FROM node2 INNER JOIN label ON label = id WHERE address = ?1 AND pre >= ?2 AND pre < ?3 ORDER BY pre",
        params![address, low, high],
    )
}

/// Reads the rows of an address whose numbers are from `low` to `high`, in the order of their
/// numbers, as nodes.
pub fn read_range<S: Alter>(
    alloc: Global,
    conn: &mut Connection<S>,
    address: &str,
    low: u32,
    high: u32,
) -> Result<Vec<NodeRow>, Refusal>
    requires { conn.old.in_transaction ≡ false }
    ensures outside { StaysOutside S.Store conn.old conn.new }
    ensures ends_open { HasCleanDisk (state S.Store conn.new)
        → OnOk result (IsTrue (state S.Store conn.new).is_open) }
    ensures same { IsReady (state S.Store conn.new)
        → IsStoreSchema (state S.Store conn.old).now.schema
        → (state S.Store conn.new).now ≡ (state S.Store conn.old).now }
    ensures nodes { IsReady (state S.Store conn.new)
        → IfOk result (λ nodes. IsRange address.now low high (state S.Store conn.old).now
        (map cells (map placed nodes.items))) }
{
    // Between transactions a query sees what was committed: the contract of `is_autocommit` says
    // so, and the proof asks for it. So wherever `_idle` stands.
    let _idle = conn.is_autocommit();
    let mut rows = conn.query(
        "SELECT pre, size, level, kind, name, value FROM node2 INNER JOIN label ON label = id WHERE address = ?1 AND pre >= ?2 AND pre <= ?3 ORDER BY pre",
        params![address, low, high],
    )?;
    rest_as_nodes(alloc, &mut rows)
}

/// Reads the rows of an address whose numbers are less than that of a node, and at least that with
/// their sizes, in the order of their numbers: the columns pre, size, level, kind, name and value.
pub fn read_enclosing<S: Alter>(
    conn: &mut Connection<S>,
    address: &str,
    node: u32,
) -> Result<Vec<Row>, Error>
    requires { conn.old.in_transaction ≡ false }
    ensures outside { StaysOutside S.Store conn.old conn.new }
    ensures ends_open { HasCleanDisk (state S.Store conn.new)
        → OnOk result (IsTrue (state S.Store conn.new).is_open) }
    ensures same { IsReady (state S.Store conn.new)
        → IsStoreSchema (state S.Store conn.old).now.schema
        → (state S.Store conn.new).now ≡ (state S.Store conn.old).now }
    ensures rows { IsReady (state S.Store conn.new)
        → IfOk result (λ rows. AreAbove address.now node (state S.Store conn.old).now rows.items) }
{
    let _idle = conn.is_autocommit();
    conn.query_all(
        "SELECT pre, size, level, kind, name, value FROM node2 INNER JOIN label ON label = id WHERE address = ?1 AND pre < ?2 AND pre + size >= ?2 ORDER BY pre",
        params![address, node],
    )
}

/// Reads the addresses in the order of their bytes, one for each document.
pub fn read_addresses<S: Alter>(
    alloc: Global,
    conn: &mut Connection<S>,
) -> Result<Vec<String>, Refusal>
    requires { conn.old.in_transaction ≡ false }
    ensures outside { StaysOutside S.Store conn.old conn.new }
    ensures ends_open { HasCleanDisk (state S.Store conn.new)
        → OnOk result (IsTrue (state S.Store conn.new).is_open) }
    ensures same { IsReady (state S.Store conn.new)
        → IsStoreSchema (state S.Store conn.old).now.schema
        → (state S.Store conn.new).now ≡ (state S.Store conn.old).now }
    ensures all { IsReady (state S.Store conn.new)
        → IfOk result (λ all. AreAddresses (state S.Store conn.old).now
        (map (λ bytes. Text bytes ∷ []) (map string_bytes all.items))) }
{
    let _idle = conn.is_autocommit();
    let mut rows = conn.query(
        "SELECT address FROM node2 WHERE pre = 0 ORDER BY address",
        &[],
    )?;
    rest_as_texts(alloc, &mut rows)
}

/// Finds whether the database is open, by a statement that is compiled and not run.
pub fn prepare_edition<S: Alter>(conn: &mut Connection<S>) -> Result<(), Error>
    requires { conn.old.in_transaction ≡ false }
    ensures outside { StaysOutside S.Store conn.old conn.new }
    ensures ends_open { HasCleanDisk (state S.Store conn.new)
        → OnOk result (IsTrue (state S.Store conn.new).is_open) }
    ensures same { IsReady (state S.Store conn.new)
        → (state S.Store conn.new).now ≡ (state S.Store conn.old).now }
{
    let _idle = conn.is_autocommit();
    let _statement = conn.prepare("SELECT edition FROM layout")?;
    Ok(())
}
