//! Content that is known to have too many nodes. Only its attributes and its levels are judged
//! then, so what is still to come is looked at, and not copied.
ghost use Rattle.std.specs.Prelude.{◌≡◌, true, false, map, IfOk, OnOk};
ghost use Rattle.std.specs.List.{list_any};
ghost use Rattle.xq_trees.specs.Levels.{flat};
ghost use Rattle.xq_trees.specs.declared.Kind.TheVariants.{Document, Attribute};
ghost use Rattle.xq_sources.specs.Sources.{tree_at};
ghost use Rattle.xq_meaning.specs.Content.{copied};
ghost use Rattle.xq_meaning.specs.Items.{tree_below};
ghost use Rattle.xq_meaning.specs.Readings.{node_at};
ghost use Rattle.xq_build.specs.private.Leaves.{leaves_between, IsShapeOf};
ghost use Rattle.xq_build.specs.private.Content.{are_low as are_low_lem, Childless};
ghost use Rattle.xq_build.specs.private.Surplus.{firm_count as firm_count_lem, is_late as is_late_lem, is_full as is_full_lem, AreSeen, Shortens};

use crate::content::is_top_text;
use crate::judging::are_low_lent;
use crate::node_copies::{NodeShape, append_whole, shape_of_node};
use indexmap::IndexSet;
use std::alloc::Global;
use xq_atoms::Want;
use xq_packed::{PackedRow, PackedRows};
use xq_sources::RowLender;
use xq_trees::{Kind, MAX_LEVEL, MAX_NODES, Node};

/// How many rows stay rows of their own, whatever texts stand beside them.
fn firm_count(rows: &PackedRows) -> usize
    ensures { result ≡ firm_count_lem (map flat rows.now.rows) }
{
    let mut count = 0;
    for at in 0..rows.len() {
        if !is_top_text(&PackedRow::new(rows, at)) {
            count += 1;
        }
    }
    count
}

/// Whether each attribute after the row is too late.
fn is_late(row: &PackedRow<'_>) -> bool
    ensures { result ≡ is_late_lem (flat row.now.row) }
{
    row.level() == 0 && !matches!(row.kind(), Kind::Text | Kind::Attribute)
}

/// Whether each attribute after the rows is too late.
fn are_late(rows: &PackedRows) -> bool
    ensures { result ≡ list_any is_late_lem (map flat rows.now.rows) }
{
    for at in 0..rows.len() {
        if is_late(&PackedRow::new(rows, at)) {
            return true;
        }
    }
    false
}

/// Whether the rows are too many, whatever comes after them, and each later attribute too late.
fn is_full(rows: &PackedRows) -> bool
    ensures { result ≡ is_full_lem (map flat rows.now.rows) }
{
    firm_count(rows) >= MAX_NODES && are_late(rows)
}

/// Tells when rows are too many; they are counted anew each time that they have doubled.
#[derive(Drop)]
pub struct Gauge {
    next: usize,
    full: bool,
}

impl Gauge {
    /// A gauge for rows that are few.
    pub fn new() -> Gauge
        ensures { result.full ≡ false }
    {
        Gauge {
            next: MAX_NODES,
            full: false,
        }
    }

    /// Whether the rows, which grow from call to call, are known to be too many.
    pub fn reads(&mut self, rows: &PackedRows) -> bool
        ensures full { (self.old.full ≡ true → is_full_lem (map flat rows.now.rows) ≡ true)
            → self.new.full ≡ true → is_full_lem (map flat rows.now.rows) ≡ true }
        ensures told { result ≡ self.new.full }
    {
        if !self.full && rows.len() >= self.next {
            self.full = is_full(rows);
            self.next = rows.len().saturating_mul(2);
        }
        self.full
    }
}

/// Whether no row of the tree from `low` to `high` is at the last level.
fn are_low_between<L: RowLender>(
    alloc: Global,
    source: &mut L,
    tree: usize,
    low: u32,
    high: u32,
) -> Result<bool, Want>
    ensures low { L.is_clean source.new → IfOk result (λ is_low. is_low
        ≡ are_low_lem (leaves_between (tree_at (L.forest source.old) tree) low high)) }
    ensures keeps { L.forest source.new ≡ L.forest source.old }
    ensures was_clean { L.is_clean source.new → L.is_clean source.old }
{
    let mut next = low as usize;
    while next <= high as usize {
        source.fetch(alloc, tree, next as u32, high)?;
        let run = source.lent();
        if run.is_empty() {
            return Ok(true);
        }
        if !are_low_lent(&run) {
            return Ok(false);
        }
        next = next.saturating_add(run.len());
    }
    Ok(true)
}

/// Adds a row at a level that none may have, where the copy of the node with this shape would
/// have one. That of a root alone may: it is one level further down. Each tree is looked at once.
fn append_if_high<L: RowLender>(
    alloc: Global,
    source: &mut L,
    rows: &mut PackedRows,
    seen: &mut IndexSet<usize>,
    node: Node,
    shape: NodeShape,
) -> Result<(), Want>
    requires { (shape.kind ≡ Document → ⊥) × (shape.kind ≡ Attribute → ⊥) }
    ensures shortens { L.is_clean source.new → IsShapeOf (L.forest source.old) node shape
        → AreSeen (L.forest source.old) (map flat rows.old.rows) seen.old.keys
        → OnOk result (Shortens (L.forest source.old) node (map flat rows.old.rows)
        (map flat rows.new.rows) seen.new.keys) }
    ensures keeps { L.forest source.new ≡ L.forest source.old }
    ensures was_clean { L.is_clean source.new → L.is_clean source.old }
{
    if shape.level > 0 {
        return Ok(());
    }
    if node.pre > 0 {
        return Err(Want::Store);
    }
    if !seen.insert(node.tree)? {
        return Ok(());
    }
    if !are_low_between(alloc, source, node.tree, 1, shape.size)? {
        rows.push_parts(0, MAX_LEVEL, Kind::Comment, "", "")?;
    }
    Ok(())
}

/// Adds what is judged of the node and of all that is below it, after rows that are too many: an
/// attribute, or a row of a level over the limit in the place of the nodes that have one.
pub fn append_judged<L: RowLender>(
    alloc: Global,
    source: &mut L,
    rows: &mut PackedRows,
    seen: &mut IndexSet<usize>,
    node: Node,
) -> Result<(), Want>
    ensures shortens { L.is_clean source.new
        → AreSeen (L.forest source.old) (map flat rows.old.rows) seen.old.keys
        → OnOk result (Shortens (L.forest source.old) node (map flat rows.old.rows)
        (map flat rows.new.rows) seen.new.keys) }
    ensures childless { L.is_clean source.new → OnOk result
        (Childless (copied (tree_below (L.forest source.old)
        (node_at (L.forest source.old) node)))) }
    ensures keeps { L.forest source.new ≡ L.forest source.old }
    ensures was_clean { L.is_clean source.new → L.is_clean source.old }
{
    let shape = shape_of_node(alloc, source, node)?;
    match shape.kind {
        Kind::Attribute => append_whole(alloc, source, rows, node, shape)?,
        Kind::Document => {}
        _ => append_if_high(alloc, source, rows, seen, node, shape)?,
    }
    Ok(())
}
