//! What a store reads of its database: the nodes of an address, and the addresses.
ghost use Rattle.std.specs.Prelude.{◌≡◌, [], ◌∷◌, IfOk, IfSome, IsTrue, OnOk, false, map, string_bytes};
ghost use Rattle.sqlite.specs.State.{HasCleanDisk};
ghost use Rattle.sqlite.specs.Held.{state};
ghost use Rattle.xq_tables.specs.Documents.{IsReady};
ghost use Rattle.xq_tables.specs.Reads.{AreAbove, AreAddresses, Finds, IsRange};
ghost use Rattle.xq_tables.specs.Outside.{StaysOutside};
ghost use Rattle.xq_tables.specs.Labels.{IsStoreSchema};
ghost use Rattle.sqlite_value.specs.declared.value.Value.TheVariants.{Text};
ghost use Rattle.xq_trees.specs.Rows.{placed};
ghost use Rattle.xq_trees.specs.Tree.{IsDocument};
ghost use Rattle.xq_tables.specs.Nodes.{cells};
ghost use Rattle.xq_tables.specs.private.Columns.{node_of};

use crate::refusals::Refusal;
use crate::rows::node_row;
use crate::statements::{prepare_edition, read_addresses, read_enclosing, read_range};
use sqlite::{Alter, Connection, Row};
use std::alloc::Global;
use xq_atoms::Want;
use xq_trees::{NodeRow, RowTree};

/// The nodes of rows.
pub fn node_rows(alloc: Global, rows: &[Row]) -> Result<Vec<NodeRow>, Refusal>
    ensures { IfOk result (λ nodes. map cells (map placed nodes.items) ≡ map node_of rows.now) }
{
    let mut nodes = Vec::new(alloc);
    for row in rows {
        nodes.push(node_row(row)?)?;
    }
    Ok(nodes)
}

/// The nodes of an address from `low` to `high`, in document order; there are none where it is
/// absent.
pub fn nodes_between<S: Alter>(
    alloc: Global,
    conn: &mut Connection<S>,
    address: &str,
    low: u32,
    high: u32,
) -> Result<Vec<NodeRow>, Want>
    requires { conn.old.in_transaction ≡ false }
    ensures outside { StaysOutside S.Store conn.old conn.new }
    ensures ends_open { HasCleanDisk (state S.Store conn.new)
        → OnOk result (IsTrue (state S.Store conn.new).is_open) }
    ensures same { IsReady (state S.Store conn.new)
        → IsStoreSchema (state S.Store conn.old).now.schema
        → (state S.Store conn.new).now ≡ (state S.Store conn.old).now }
    ensures nodes { IsReady (state S.Store conn.new)
        → IfOk result (λ nodes. IsRange address.now low high (state S.Store conn.old).now
        (map cells (map placed nodes.items))) }
{
    Ok(read_range(alloc, conn, address, low, high)?)
}

/// The rows of an address that are those of nodes above a node.
fn rows_above<S: Alter>(
    conn: &mut Connection<S>,
    address: &str,
    node: u32,
) -> Result<Vec<Row>, Refusal>
    requires { conn.old.in_transaction ≡ false }
    ensures outside { StaysOutside S.Store conn.old conn.new }
    ensures ends_open { HasCleanDisk (state S.Store conn.new)
        → OnOk result (IsTrue (state S.Store conn.new).is_open) }
    ensures same { IsReady (state S.Store conn.new)
        → IsStoreSchema (state S.Store conn.old).now.schema
        → (state S.Store conn.new).now ≡ (state S.Store conn.old).now }
    ensures rows { IsReady (state S.Store conn.new)
        → IfOk result (λ rows. AreAbove address.now node (state S.Store conn.old).now rows.items) }
{
    Ok(read_enclosing(conn, address, node)?)
}

/// The nodes of an address above a node, the root first.
pub fn nodes_above<S: Alter>(
    alloc: Global,
    conn: &mut Connection<S>,
    address: &str,
    node: u32,
) -> Result<Vec<NodeRow>, Want>
    requires { conn.old.in_transaction ≡ false }
    ensures outside { StaysOutside S.Store conn.old conn.new }
    ensures ends_open { HasCleanDisk (state S.Store conn.new)
        → OnOk result (IsTrue (state S.Store conn.new).is_open) }
    ensures same { IsReady (state S.Store conn.new)
        → IsStoreSchema (state S.Store conn.old).now.schema
        → (state S.Store conn.new).now ≡ (state S.Store conn.old).now }
    ensures nodes { IsReady (state S.Store conn.new)
        → IfOk result (λ nodes. AreAbove address.now node (state S.Store conn.old).now
        (map cells (map placed nodes.items))) }
{
    let rows = rows_above(conn, address, node)?;
    Ok(node_rows(alloc, &rows)?)
}

/// The document with these nodes, or None where there are none. Nodes that are those of no
/// document tell of a damaged database.
pub fn document_of(nodes: Vec<NodeRow>) -> Result<Option<RowTree>, Want>
    ensures found { IfOk result (Finds nodes.items) }
    ensures document { IfOk result (λ found. IfSome found IsDocument) }
{
    if nodes.is_empty() {
        return Ok(None);
    }
    let Ok(tree) = RowTree::from_rows(nodes) else {
        return Err(Want::Store);
    };
    if tree.is_document() {
        Ok(Some(tree))
    } else {
        Err(Want::Store)
    }
}

/// The addresses in the order of their bytes.
pub fn list_addresses<S: Alter>(
    alloc: Global,
    conn: &mut Connection<S>,
) -> Result<Vec<String>, Want>
    requires { conn.old.in_transaction ≡ false }
    ensures outside { StaysOutside S.Store conn.old conn.new }
    ensures ends_open { HasCleanDisk (state S.Store conn.new)
        → OnOk result (IsTrue (state S.Store conn.new).is_open) }
    ensures same { IsReady (state S.Store conn.new)
        → IsStoreSchema (state S.Store conn.old).now.schema
        → (state S.Store conn.new).now ≡ (state S.Store conn.old).now }
    ensures all { IsReady (state S.Store conn.new)
        → IfOk result (λ all. AreAddresses (state S.Store conn.old).now
        (map (λ bytes. Text bytes ∷ []) (map string_bytes all.items))) }
{
    Ok(read_addresses(alloc, conn)?)
}

/// Refuses where the database is shut.
pub fn check_open<S: Alter>(conn: &mut Connection<S>) -> Result<(), Refusal>
    requires { conn.old.in_transaction ≡ false }
    ensures outside { StaysOutside S.Store conn.old conn.new }
    ensures ends_open { HasCleanDisk (state S.Store conn.new)
        → OnOk result (IsTrue (state S.Store conn.new).is_open) }
    ensures same { IsReady (state S.Store conn.new)
        → (state S.Store conn.new).now ≡ (state S.Store conn.old).now }
{
    Ok(prepare_edition(conn)?)
}
