//! The parent axis.
ghost use Rattle.std.specs.Prelude.{◌≡◌, ◌+◌, ◌-◌, ◌≤◌, ◌==◌, ◌||◌, ◌∷◌, ◌⊎◌, ℕ, true, length, slice_get, IfOk, IfSome, OnOk};
ghost use Rattle.xq_trees.specs.Forest.{count};
ghost use Rattle.xq_trees.specs.Tree.{nodes};
ghost use Rattle.xq_trees.specs.declared.Axis.TheVariants as axes;
ghost use Rattle.xq_trees.specs.Rows.{rows};
ghost use Rattle.xq_sources.specs.Parents.{AreParents, IsParentRow};
ghost use Rattle.xq_sources.specs.Sources.{tree_at};
ghost use Rattle.xq_axes.specs.Scans.{region};
ghost use Rattle.xq_axes.specs.private.Hits.{is_among, is_wanted, below_where, IsRising};
ghost use Rattle.xq_axes.specs.Many.{AreThere};
ghost use Rattle.xq_axes.specs.private.KnownParents.{ends_before as ends_before_lem, AreTold};

use crate::backward::{Backward, search_back};
use crate::selves::search_selves;
use std::alloc::Global;
use xq_atoms::Want;
use xq_meaning::Test;
use xq_sources::{RowLender, told_parent};

/// How many levels a tree may have: so often at most a parent is asked for.
pub const LEVELS: usize = 101;

/// Whether all of the places, which rise, come before the place.
fn ends_before(places: &[u32], place: u32) -> bool
    ensures { result ≡ ends_before_lem (slice_get places.now (length places.now - 1)) place }
{
    match places.last() {
        Some(last) => *last < place,
        None => true,
    }
}

/// Whether the last of the places is the place.
fn ends_with(places: &[u32], place: u32) -> bool
    ensures { result ≡ true → is_among places.now place ≡ true }
{
    match places.last() {
        Some(last) => *last == place,
        None => false,
    }
}

/// Adds the place to those that rise, unless it is one of them. Most often it is the last of them:
/// the children of one parent come one after another.
///
/// The parent of a later node that comes before those of earlier ones holds them: so each of these
/// makes room once at most for each node above it.
fn add_place(places: &mut Vec<u32>, place: u32) -> Result<(), Want>
    ensures rising { IsRising places.old.items → OnOk result (IsRising places.new.items) }
    ensures among { IsRising places.old.items → OnOk result ((n : ℕ)
        → is_among places.new.items n ≡ ((place == n) || is_among places.old.items n)) }
    ensures fewer { OnOk result (length places.new.items ≤ length places.old.items + 1) }
{
    if ends_with(places, place) {
        return Ok(());
    }
    if ends_before(places, place) {
        places.push(place)?;
        return Ok(());
    }
    if let Err(index) = places.binary_search(&place) {
        places.insert(index, place)?;
    }
    Ok(())
}

/// The places in document order, each once.
pub fn in_order(alloc: Global, places: &[u32]) -> Result<Vec<u32>, Want>
    ensures rising { IfOk result (λ ordered. IsRising ordered.items) }
    ensures among { IfOk result (λ ordered. (n : ℕ)
        → is_among ordered.items n ≡ is_among places.now n) }
    ensures fewer { IfOk result (λ ordered. length ordered.items ≤ length places.now) }
{
    let mut ordered = Vec::new(alloc);
    for place in places {
        add_place(&mut ordered, *place)?;
    }
    Ok(ordered)
}

/// The place of the parent of the node: by the places that the source keeps of the parents in the
/// tree, or else as it tells it.
#[inline]
pub fn parent_of<L: RowLender>(source: &L, kept: &[u32], tree: usize, node: u32) -> Option<u32>
    ensures { L.is_clean source.now
        → let rs = rows (tree_at (L.forest source.now) tree) in
        AreParents rs kept.now → IfSome result (λ place. IsParentRow rs place node) }
{
    match told_parent(kept, node) {
        Some(parent) => Some(parent),
        None => source.parent(tree, node),
    }
}

/// The place of the parent of the node at each of the places, where the source can tell all of them
/// at once. It only asks: so that the source can look up the next while the last is on its way.
pub fn told_parents<L: RowLender>(
    alloc: Global,
    source: &L,
    tree: usize,
    places: &[u32],
) -> Result<Option<Vec<u32>>, Want>
    ensures told { L.is_clean source.now → IfOk result (λ found. IfSome found (λ parents.
        AreTold (tree_at (L.forest source.now) tree) places.now parents.items)) }
    ensures all { IfOk result (λ found. IfSome found (λ parents.
        length parents.items ≡ length places.now)) }
{
    let kept = source.parents(tree);
    let mut parents = Vec::with_capacity(alloc, places.len())?;
    for place in places {
        let Some(parent) = parent_of(source, kept, tree, *place) else {
            return Ok(None);
        };
        parents.push(parent)?;
    }
    Ok(Some(parents))
}

/// The places but for that of the root, which has no parent, where it is the first.
fn below_root(places: &[u32]) -> &[u32]
    ensures { (result.now ≡ places.now) ⊎ (places.now ≡ 0 ∷ result.now) }
{
    match places.split_first() {
        Some((first, rest)) => { if *first == 0 { rest } else { places } }
        None => places,
    }
}

/// The places of the parents of the nodes at the places, which rise, that pass the test.
///
/// Where the source can tell all of them at once, no row between is read; else they are found by
/// one look back over the rows.
pub fn search_parents<L: RowLender>(
    alloc: Global,
    source: &mut L,
    tree: usize,
    places: &[u32],
    test: &Test,
) -> Result<Vec<u32>, Want>
    ensures found { L.is_clean source.new → AreThere (L.forest source.old) tree places.now
        → let t = tree_at (L.forest source.old) tree in
        IsRising places.now → IfOk result (λ found. found.items
        ≡ below_where (is_wanted axes.Parent test.now t places.now) (count (nodes t))) }
    ensures rows { L.is_clean source.new → IsRising places.now
        → (L.meter source.new).rows ≤ (L.meter source.old).rows
        + length (region axes.Parent (tree_at (L.forest source.old) tree) places.now) }
    ensures singles { (L.meter source.new).singles
        ≤ (L.meter source.old).singles + length places.now }
    ensures looks { (L.meter source.new).looks ≡ (L.meter source.old).looks }
    ensures keeps { L.forest source.new ≡ L.forest source.old }
    ensures was_clean { L.is_clean source.new → L.is_clean source.old }
{
    if let [place] = places {
        if let Some(parent) = source.parent(tree, *place) {
            return search_selves(alloc, source, tree, &[parent], test);
        }
    }
    match told_parents(alloc, source, tree, below_root(places))? {
        Some(told) => {
            let parents = in_order(alloc, &told)?;
            search_selves(alloc, source, tree, &parents, test)
        }
        None => search_back(alloc, source, tree, Backward::Parent, places, test),
    }
}
