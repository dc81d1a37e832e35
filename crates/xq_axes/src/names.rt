//! Elements by their names, where the lender tells their places.
ghost use Rattle.std.specs.Prelude.{◌≡◌, ◌++◌, ◌+◌, ◌<◌, ◌≤◌, [], ℕ, Bool, Some, true, false, not, filter, length, IfOk, IfSome};
ghost use Rattle.xq_trees.specs.Forest.{count};
ghost use Rattle.xq_trees.specs.Tree.{nodes};
ghost use Rattle.xq_sources.specs.Sources.{tree_at};
ghost use Rattle.xq_meaning.specs.declared.node_tests.Test.TheVariants as tests;
ghost use Rattle.xq_axes.specs.private.Hits.{below_where, is_among, IsRising, IsReached};
ghost use Rattle.xq_axes.specs.private.Named.{IsPlainTest};
ghost use Rattle.xq_axes.specs.private.Passing.{is_before_node, places_above};

use crate::picks::{Found, Places, push_if};
use std::alloc::Global;
use xq_atoms::Want;
use xq_meaning::Test;
use xq_sources::RowLender;

/// Of the rows up to the last one the part, one in so many, from which on a lender is asked to look
/// for a name: it may look at all rows of the tree, and find none.
pub const PART: u64 = 8;

/// How many of the places, which rise, come before the place.
fn count_before(places: &[u32], place: u64) -> usize
    ensures within { result ≤ length places.now }
    ensures before { IsRising places.now → IsReached places.now result place }
{
    places.partition_point(|found| u64::from(*found) < place)
}

/// Those of the places, which rise, that lie from `low` to `high`.
pub fn places_between(places: &[u32], low: u32, high: u32) -> &[u32]
    ensures { (f : ℕ → Bool) (n : ℕ) → places.now ≡ below_where f n → low ≤ high + 1 → high < n
        → below_where f (high + 1) ≡ below_where f low ++ result.now }
{
    let last = count_before(places, u64::from(high) + 1);
    let up_to = &places[..last];
    let first = count_before(up_to, u64::from(low));
    &up_to[first..]
}

/// The name that elements have to have to pass the test, where it asks for such.
pub fn wanted_name(test: &Test) -> Option<&str>
    ensures { IfSome result (λ name. test.now ≡ tests.Element (Some name.now)) }
{
    match test {
        Test::Element(Some(name)) => Some(name.as_str()),
        _ => None,
    }
}

/// Whether the rows from `low` to `high` are so large a part of those up to there that a look for a
/// name among all rows of the tree costs little more than one among these.
pub fn is_large_part(low: u32, high: u32) -> bool {
    u64::from(high.saturating_sub(low)) * PART >= u64::from(high)
}

/// The places from `low` on of the elements that pass the test, where it asks for a name and the
/// lender tells them: no row is read or looked at.
pub fn named_from<L: RowLender>(
    alloc: Global,
    source: &L,
    tree: usize,
    low: u32,
    test: &Test,
) -> Result<Option<Places>, Want>
    ensures { L.is_clean source.now
        → let t = tree_at (L.forest source.now) tree in
        low ≤ count (nodes t) → (wanted : ℕ → Bool)
        → IsPlainTest wanted test.now t low (count (nodes t)) → below_where wanted low ≡ []
        → IfOk result (λ told. IfSome told (λ found.
        found.items ≡ below_where wanted (count (nodes t)))) }
{
    let Some(name) = wanted_name(test) else {
        return Ok(None);
    };
    let Some(places) = source.named(tree, name) else {
        return Ok(None);
    };
    let first = count_before(places, u64::from(low));
    let mut found = Found::new(alloc);
    found.extend(&places[first..])?;
    Ok(Some(found.into_places()?))
}

/// Those of the places before the place, which rise, that are none of the others.
fn before_without(
    alloc: Global,
    places: &[u32],
    place: u32,
    others: &[u32],
) -> Result<Vec<u32>, Want>
    ensures { (f : ℕ → Bool) (n : ℕ) → places.now ≡ below_where f n → place ≤ n
        → IfOk result (λ kept. kept.items
        ≡ filter (λ p. not (is_among others.now p)) (below_where f place)) }
{
    let last = count_before(places, u64::from(place));
    keep_others(alloc, &places[..last], others)
}

/// Those of the places that are none of the others, which are few.
fn keep_others(alloc: Global, places: &[u32], others: &[u32]) -> Result<Vec<u32>, Want>
    ensures { IfOk result (λ kept. kept.items
        ≡ filter (λ p. not (is_among others.now p)) places.now) }
{
    let mut kept = Vec::new(alloc);
    for place in places {
        push_if(&mut kept, !others.contains(place), *place)?;
    }
    Ok(kept)
}

/// The places of the elements that pass the test and end before the node, where the test asks for a
/// name and the lender tells them. `above` are the places of the nodes that hold the node. No row
/// is read or looked at.
pub fn named_before<L: RowLender>(
    alloc: Global,
    source: &L,
    tree: usize,
    node: u32,
    above: &[u32],
    test: &Test,
) -> Result<Option<Places>, Want>
    ensures { L.is_clean source.now
        → let t = tree_at (L.forest source.now) tree in
        node < count (nodes t) → above.now ≡ places_above t node
        → IfOk result (λ told. IfSome told (λ found.
        found.items ≡ below_where (is_before_node test.now t node) node)) }
{
    let Some(name) = wanted_name(test) else {
        return Ok(None);
    };
    let Some(places) = source.named(tree, name) else {
        return Ok(None);
    };
    let kept = before_without(alloc, places, node, above)?;
    Ok(Some(Places::from_vec(kept)))
}

/// Adds the places from `low` to `high` of the elements that pass the test, where it asks for a
/// name and the lender tells them, and gives whether it did: no row is read or looked at.
pub fn add_named<L: RowLender>(
    source: &L,
    tree: usize,
    low: u32,
    high: u32,
    test: &Test,
    found: &mut Found,
) -> Result<bool, Want>
    ensures added { L.is_clean source.now
        → let t = tree_at (L.forest source.now) tree in
        (wanted : ℕ → Bool) → IsPlainTest wanted test.now t low high
        → low ≤ high + 1 → high < count (nodes t)
        → found.old.items ≡ below_where wanted low
        → IfOk result (λ is_told. is_told ≡ true
        → found.new.items ≡ below_where wanted (high + 1)) }
    ensures untold { IfOk result (λ is_told. is_told ≡ false → found.new ≡ found.old) }
{
    let Some(name) = wanted_name(test) else {
        return Ok(false);
    };
    let Some(places) = source.named(tree, name) else {
        return Ok(false);
    };
    found.extend(places_between(places, low, high))?;
    Ok(true)
}
