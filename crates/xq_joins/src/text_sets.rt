//! Sets of texts: whether a node has one of many texts is looked up, and they are not compared one
//! by one.
ghost use Rattle.std.specs.Prelude.{◌≡◌, map, string_bytes, IfOk};
ghost use Rattle.std.specs.HashSet.{contains_text};
ghost use Rattle.std.specs.List.{list_any};
ghost use Rattle.xq_meaning.specs.Readings.{node_at};
ghost use Rattle.xq_joins.specs.Keys.{text_at};
ghost use Rattle.xq_joins.specs.private.TextSets.{IsSetOf};

use std::alloc::Global;
use std::collections::HashSet;
use xq_atoms::Want;
use xq_axes::string_value;
use xq_sources::RowLender;
use xq_trees::Node;

/// A set of texts.
pub type TextSet = HashSet<String>;

/// The set of these texts.
pub fn set_of(alloc: Global, texts: &[String]) -> Result<TextSet, Want>
    ensures { IfOk result (λ set. IsSetOf set (map string_bytes texts.now)) }
{
    let mut set = HashSet::new(alloc);
    for text in texts {
        set.insert(String::from_str(alloc, text.as_str())?)?;
    }
    Ok(set)
}

/// Whether the text of the node is in the set.
fn has_text_in<L: RowLender>(
    alloc: Global,
    source: &mut L,
    node: Node,
    set: &TextSet,
) -> Result<bool, Want>
    ensures answer { L.is_clean source.new → IfOk result (λ answer. answer
        ≡ contains_text set.now
        (text_at (L.forest source.old) (node_at (L.forest source.old) node))) }
    ensures keeps { L.forest source.new ≡ L.forest source.old }
    ensures was_clean { L.is_clean source.new → L.is_clean source.old }
{
    let text = string_value(alloc, source, node)?;
    Ok(set.contains(text.as_str()))
}

/// Whether one of the nodes of a tree at these places has a text of the set.
pub fn have_text_in<L: RowLender>(
    alloc: Global,
    source: &mut L,
    tree: usize,
    places: &[u32],
    set: &TextSet,
) -> Result<bool, Want>
    ensures answer { L.is_clean source.new → IfOk result (λ answer. answer
        ≡ list_any (contains_text set.now) (map (text_at (L.forest source.old)) (map (λ p. node_at
        (L.forest source.old) (record { tree = tree; pre = p })) places.now))) }
    ensures keeps { L.forest source.new ≡ L.forest source.old }
    ensures was_clean { L.is_clean source.new → L.is_clean source.old }
{
    for place in places {
        let node = Node { tree, pre: *place };
        let found = has_text_in(alloc, source, node, set)?;
        if found {
            return Ok(true);
        }
    }
    Ok(false)
}
