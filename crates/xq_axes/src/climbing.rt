//! The nodes above one node, from parent to parent.
ghost use Rattle.std.specs.Prelude.{◌≡◌, ◌+◌, ◌<◌, ◌≤◌, ◌∷◌, [], length, IfOk, IfSome};
ghost use Rattle.xq_trees.specs.Forest.{count};
ghost use Rattle.xq_trees.specs.Tree.{nodes};
ghost use Rattle.xq_axes.specs.Scans.{region};
ghost use Rattle.xq_sources.specs.Sources.{tree_at};
ghost use Rattle.xq_axes.specs.private.Hits.{is_wanted, below_where, IsReached};
ghost use Rattle.xq_axes.specs.private.Passing.{axis_above, places_above, AreHits};

use crate::contexts::Contexts;
use crate::parents::{LEVELS, parent_of};
use crate::passing::search_rows;
use crate::picks::{Judge, Places, Verdict};
use std::alloc::Global;
use xq_atoms::Want;
use xq_meaning::Test;
use xq_sources::{LentRow, RowLender};

/// The places of the nodes above the node, from the root down, where the source can tell the parent
/// of each. No row is read.
pub fn climb<L: RowLender>(
    alloc: Global,
    source: &L,
    tree: usize,
    node: u32,
) -> Result<Option<Vec<u32>>, Want>
    ensures there { L.is_clean source.now → IfOk result (λ found. IfSome found (λ above.
        node < count (nodes (tree_at (L.forest source.now) tree)))) }
    ensures above { L.is_clean source.now → IfOk result (λ found. IfSome found (λ above.
        above.items ≡ places_above (tree_at (L.forest source.now) tree) node)) }
{
    let kept = source.parents(tree);
    let mut above = Vec::new(alloc);
    let mut place = node;
    for _ in 0..LEVELS {
        let Some(parent) = parent_of(source, kept, tree, place) else {
            return Ok(None);
        };
        above.push(parent)?;
        if parent == 0 {
            above.reverse();
            return Ok(Some(above));
        }
        place = parent;
    }
    Ok(None)
}

/// Judges the rows up to a node by the places of those that are above it, or its own as well.
#[derive(Clone, Copy)]
struct Climbed<'a> {
    node: u32,
    or_self: bool,
    hits: Contexts<'a>,
}

impl Judge for Climbed<'_> {
    ghost axis = { λ j. axis_above j.or_self };

    ghost contexts = { λ j. j.node ∷ [] };

    ghost has_judged = { λ start now t s n. (now.node ≡ s.high)
        × (now.hits.places.now ≡ start.hits.places.now)
        × AreHits (axis_above start.or_self) t (start.node ∷ []) s start.hits.places.now
        × IsReached start.hits.places.now now.hits.met n };

    fn judge(&mut self, row: &LentRow<'_>) -> Result<Verdict, Want> {
        let is_hit = self.hits.meets(row.pre);
        Ok(Verdict {
            is_hit,
            over: self.hits.stop(self.node).saturating_sub(row.pre),
        })
    }
}

/// The places of the nodes that are above the node, or its own as well, and pass the test, where
/// `above` are the places of those above it. Their rows alone are looked at.
pub fn search_climbed<L: RowLender>(
    alloc: Global,
    source: &mut L,
    tree: usize,
    or_self: bool,
    node: u32,
    above: Vec<u32>,
    test: &Test,
) -> Result<Places, Want>
    ensures found { L.is_clean source.new
        → let t = tree_at (L.forest source.old) tree in
        node < count (nodes t) → above.items ≡ places_above t node
        → IfOk result (λ found. found.items
        ≡ below_where (is_wanted (axis_above or_self) test.now t (node ∷ [])) (count (nodes t))) }
    ensures rows { L.is_clean source.new
        → (L.meter source.new).rows ≤ (L.meter source.old).rows
        + length (region (axis_above or_self) (tree_at (L.forest source.old) tree) (node ∷ [])) }
    ensures singles { (L.meter source.new).singles ≡ (L.meter source.old).singles }
    ensures looks { (L.meter source.new).looks ≡ (L.meter source.old).looks }
    ensures keeps { L.forest source.new ≡ L.forest source.old }
    ensures was_clean { L.is_clean source.new → L.is_clean source.old }
{
    let mut hits = above;
    if or_self {
        hits.push(node)?;
    }
    let judge = Climbed {
        node,
        or_self,
        hits: Contexts::new(&hits),
    };
    search_rows(alloc, source, tree, 0, node, judge, test)
}
