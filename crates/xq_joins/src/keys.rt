//! Texts of keys, and a table from them to nodes.
ghost use Rattle.std.specs.Prelude.{◌≡◌, ◌++◌, ◌∷◌, ◌&&◌, ◌||◌, [], Bool, map, string_bytes, if◌then◌else◌, IfOk, IfSome, OnOk};
ghost use Rattle.std.specs.List.{list_any};
ghost use Rattle.xq_atoms.specs.Text.{Text, text_eq};
ghost use Rattle.xq_axes.specs.Nodes.{HaveAll};
ghost use Rattle.xq_trees.specs.declared.items.Node.{Node as NodeLem};
ghost use Rattle.xq_sources.specs.Sources.{HasNode};
ghost use Rattle.xq_trees.specs.Items.{item_view, Place};
ghost use Rattle.xq_meaning.specs.Readings.{node_at, AreIn};
ghost use Rattle.xq_joins.specs.Keys.{text_at};
ghost use Rattle.xq_joins.specs.private.Keys.{scans, nodes_after as nodes_after_lem, texts_from};
ghost use Rattle.xq_joins.specs.private.JoinKeys.{IsKeyOf};
ghost use Rattle.xq_joins.specs.private.Tables.{IsTable, nodes_with};

use crate::join_keys::join_key_texts;
use crate::values::nodes_among;
use std::alloc::Global;
use std::collections::HashMap;
use xq_atoms::Want;
use xq_axes::{step as step_from, string_value};
use xq_meaning::{Equality, JoinKey, PlanStep};
use xq_sources::RowLender;
use xq_trees::{Item, Node};

/// The nodes of each text.
pub type Table = HashMap<String, Vec<Node>>;

/// The nodes to which the scans among the steps lead from the nodes, one after another.
fn nodes_after<L: RowLender>(
    alloc: Global,
    source: &mut L,
    start: Vec<Node>,
    steps: &[PlanStep],
) -> Result<Vec<Node>, Want>
    ensures nodes { L.is_clean source.new → HaveAll (L.forest source.old) start.items
        → IfOk result (λ found. map (node_at (L.forest source.old)) found.items
        ≡ nodes_after_lem (L.forest source.old) (scans steps.now)
        (map (node_at (L.forest source.old)) start.items)) }
    ensures keeps { L.forest source.new ≡ L.forest source.old }
    ensures was_clean { L.is_clean source.new → L.is_clean source.old }
{
    let mut nodes = start;
    for step in steps {
        if let PlanStep::Scan(axis, test) = step {
            nodes = step_from(alloc, source, &nodes, *axis, test)?;
        }
    }
    Ok(nodes)
}

/// The text of each node.
pub fn texts_of<L: RowLender>(
    alloc: Global,
    source: &mut L,
    nodes: &[Node],
) -> Result<Vec<String>, Want>
    ensures texts { L.is_clean source.new → IfOk result (λ texts. map string_bytes texts.items
        ≡ map (text_at (L.forest source.old)) (map (node_at (L.forest source.old)) nodes.now)) }
    ensures keeps { L.forest source.new ≡ L.forest source.old }
    ensures was_clean { L.is_clean source.new → L.is_clean source.old }
{
    let mut texts = Vec::with_capacity(alloc, nodes.len())?;
    for node in nodes {
        texts.push(string_value(alloc, source, *node)?)?;
    }
    Ok(texts)
}

/// The texts of the nodes to which the scans among the steps lead from those items that are nodes.
pub fn key_texts<L: RowLender>(
    alloc: Global,
    source: &mut L,
    items: &[Item],
    steps: &[PlanStep],
) -> Result<Vec<String>, Want>
    ensures texts { L.is_clean source.new
        → AreIn (L.forest source.old) (map item_view items.now)
        → IfOk result (λ texts. map string_bytes texts.items
        ≡ texts_from (L.forest source.old) steps.now (map item_view items.now)) }
    ensures keeps { L.forest source.new ≡ L.forest source.old }
    ensures was_clean { L.is_clean source.new → L.is_clean source.old }
{
    let start = nodes_among(alloc, items)?;
    let nodes = nodes_after(alloc, source, start, steps)?;
    texts_of(alloc, source, &nodes)
}

/// Adds the node to those of the text.
fn add(table: &mut Table, text: String, node: Node) -> Result<(), Want>
    ensures { OnOk result ((q : Text) → nodes_with table.new q
        ≡ nodes_with table.old q ++ (if text_eq q (string_bytes text) then node ∷ [] else [])) }
{
    table.entry(text)?.or_default().push(node)?;
    Ok(())
}

/// Adds the node to those of each text.
fn add_each(table: &mut Table, texts: Vec<String>, node: Node) -> Result<(), Want>
    ensures { OnOk result ((q : Text) (p : NodeLem → Bool) → list_any p (nodes_with table.new q)
        ≡ (list_any p (nodes_with table.old q)
        || (p node && list_any (text_eq q) (map string_bytes texts.items)))) }
{
    for text in texts {
        add(table, text, node)?;
    }
    Ok(())
}

/// The texts of the key of a node. None where they aren't texts, or may be refused.
fn node_texts<L: RowLender>(
    alloc: Global,
    source: &mut L,
    equality: Equality,
    key: &JoinKey,
    node: Node,
) -> Result<Option<Vec<String>>, Want>
    ensures texts { L.is_clean source.new → HasNode (L.forest source.old) node.tree node.pre
        → IfOk result (λ found. IfSome found (λ texts. IsKeyOf equality (L.forest source.old)
        key.now (Place node ∷ []) (map string_bytes texts.items))) }
    ensures keeps { L.forest source.new ≡ L.forest source.old }
    ensures was_clean { L.is_clean source.new → L.is_clean source.old }
{
    join_key_texts(alloc, source, equality, key, &[Item::Node(node)])
}

/// The table that has for each text the nodes with this text as a key. None where a key is no text,
/// or may be refused.
pub fn table_of<L: RowLender>(
    alloc: Global,
    source: &mut L,
    equality: Equality,
    key: &JoinKey,
    nodes: &[Node],
) -> Result<Option<Table>, Want>
    ensures table { L.is_clean source.new → HaveAll (L.forest source.old) nodes.now
        → IfOk result (λ found. IfSome found (λ table.
        IsTable equality (L.forest source.old) key.now nodes.now table)) }
    ensures keeps { L.forest source.new ≡ L.forest source.old }
    ensures was_clean { L.is_clean source.new → L.is_clean source.old }
{
    let mut table = HashMap::new(alloc);
    for node in nodes {
        let Some(texts) = node_texts(alloc, source, equality, key, *node)? else {
            return Ok(None);
        };
        add_each(&mut table, texts, *node)?;
    }
    Ok(Some(table))
}

/// The nodes of all these texts.
pub fn gathered(alloc: Global, table: &Table, texts: &[String]) -> Result<Vec<Node>, Want>
    ensures { IfOk result (λ nodes. (p : NodeLem → Bool) → list_any p nodes.items
        ≡ list_any (λ text. list_any p (nodes_with table.now text))
        (map string_bytes texts.now)) }
{
    let mut nodes = Vec::new(alloc);
    for text in texts {
        if let Some(found) = table.get(text.as_str()) {
            nodes.extend_from_slice(found)?;
        }
    }
    Ok(nodes)
}
