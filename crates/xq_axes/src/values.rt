//! The string value of a node.
ghost use Rattle.std.specs.Prelude.{◌≡◌, ◌+◌, ℕ, string_bytes, IfOk, IfSome, OnOk};
ghost use Rattle.xq_trees.specs.Node.{below_at};
ghost use Rattle.xq_trees.specs.Order.{path_at};
ghost use Rattle.xq_trees.specs.Rows.{rows, row_at};
ghost use Rattle.xq_trees.specs.Tree.{Tree, nodes};
ghost use Rattle.xq_trees.specs.Value.{texts, string_value as string_value_lem};
ghost use Rattle.xq_sources.specs.Sources.{tree_at, HasNode};
ghost use Rattle.xq_meaning.specs.Items.{tree_below};
ghost use Rattle.xq_meaning.specs.Readings.{node_at};
ghost use Rattle.xq_axes.specs.Reads.{Span, AreRowsIn, rows_to, joined_texts, is_parent as is_parent_lem};

use crate::walks::{Visitor, walk};
use std::alloc::Global;
use xq_atoms::Want;
use xq_sources::{LentRow, LentRows, RowLender};
use xq_trees::{Kind, Node};

/// The texts among the rows, joined.
#[derive(Drop)]
struct Texts {
    joined: String,
}

impl Visitor for Texts {
    ghost has_read = { λ _ v t s n. string_bytes v.joined
        ≡ joined_texts (rows_to (rows t) s.low n) };

    fn visit(&mut self, row: &LentRow<'_>) -> Result<u32, Want> {
        if let Kind::Text = row.kind {
            self.joined.push_str(row.value())?;
        }
        Ok(0)
    }
}

/// Whether the string value of a node of this kind is that of the texts below it.
fn is_parent(kind: Kind) -> bool
    ensures { result ≡ is_parent_lem kind }
{
    matches!(kind, Kind::Document | Kind::Element)
}

/// The value of a text that is all there is below a node, where these are the first rows from that
/// of the node on: what most elements with a text hold.
fn lone_text<'a>(rows: &LentRows<'a>) -> Option<&'a str>
    ensures { (t : Tree) (s : Span) (v : ℕ) → AreRowsIn t s v rows.now
        → IfSome result (λ text. text.now ≡ texts (below_at (nodes t) (path_at (nodes t) v))) }
{
    let node = rows.get(0)?;
    let below = rows.get(1)?;
    match below.kind {
        Kind::Text if node.size == 1 => Some(below.value()),
        _ => None,
    }
}

/// The texts below the node, which has so many rows below it.
fn texts_below<L: RowLender>(
    alloc: Global,
    source: &mut L,
    node: Node,
    size: u32,
) -> Result<String, Want>
    ensures value { L.is_clean source.new
        → HasNode (L.forest source.old) node.tree node.pre
        → size ≡ (row_at (rows (tree_at (L.forest source.old) node.tree)) node.pre).size
        → IfOk result (λ text. string_bytes text
        ≡ texts (tree_below (L.forest source.old) (node_at (L.forest source.old) node)).below) }
    ensures looks { (L.meter source.new).looks ≡ (L.meter source.old).looks }
    ensures keeps { L.forest source.new ≡ L.forest source.old }
    ensures was_clean { L.is_clean source.new → L.is_clean source.old }
{
    // No tree has a row beyond the greatest place.
    let (Some(low), Some(high)) = (node.pre.checked_add(1), node.pre.checked_add(size)) else {
        return Err(Want::Store);
    };
    let mut texts = Texts {
        joined: String::new(alloc),
    };
    walk(alloc, source, node.tree, low, high, &mut texts)?;
    Ok(texts.joined)
}

/// The string value of the node: the texts below a document or an element, joined, and the value
/// of another node (XDM 3.1, section 6; `dm:string-value`).
///
/// `Want::Store` where the source has no such node, or refuses to read it; `Want::Memory` where a
/// growth was refused.
pub fn string_value<L: RowLender>(alloc: Global, source: &mut L, node: Node) -> Result<String, Want>
    ensures exists { L.is_clean source.new
        → OnOk result (HasNode (L.forest source.old) node.tree node.pre) }
    ensures value { L.is_clean source.new → IfOk result (λ text. string_bytes text
        ≡ string_value_lem (tree_below (L.forest source.old)
        (node_at (L.forest source.old) node))) }
    ensures looks { (L.meter source.new).looks ≡ (L.meter source.old).looks }
    ensures keeps { L.forest source.new ≡ L.forest source.old }
    ensures was_clean { L.is_clean source.new → L.is_clean source.old }
{
    source.fetch(alloc, node.tree, node.pre, node.pre.saturating_add(1))?;
    let rows = source.lent();
    let Some(row) = rows.get(0) else {
        return Err(Want::Store);
    };
    if !is_parent(row.kind) {
        return Ok(String::from_str(alloc, row.value())?);
    }
    if let Some(text) = lone_text(&rows) {
        return Ok(String::from_str(alloc, text)?);
    }
    let size = row.size;
    texts_below(alloc, source, node, size)
}
