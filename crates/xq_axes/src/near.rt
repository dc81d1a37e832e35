//! Children and attributes of one node: most steps inside a loop or a predicate are such.
ghost use Rattle.std.specs.Prelude.{◌≡◌, ◌+◌, ◌-◌, ◌≤◌, ◌==◌, ◌∷◌, [], suc, take, filter, length, slice_get, IfOk, IfSome};
ghost use Rattle.xq_trees.specs.Forest.{count};
ghost use Rattle.xq_trees.specs.Tree.{nodes};
ghost use Rattle.xq_trees.specs.declared.Axis.TheVariants as axes;
ghost use Rattle.xq_sources.specs.Sources.{tree_at};
ghost use Rattle.xq_axes.specs.Scans.{region};
ghost use Rattle.xq_axes.specs.private.Hits.{is_wanted, below_where};
ghost use Rattle.xq_axes.specs.private.Named.{is_below_one};
ghost use Rattle.xq_axes.specs.private.Near.{IsOwner, AreBelow, AreFirst, EndWith};

use crate::names::{places_between, wanted_name};
use crate::passing::{last_of, search_rows};
use crate::picks::{Found, Judge, Places, Verdict};
use crate::tests::{is_plain, passes};
use crate::walks::{Visitor, walk};
use std::alloc::Global;
use xq_atoms::Want;
use xq_meaning::Test;
use xq_sources::{LentRow, RowLender};

/// How many places of a name have their parents asked for, from the last one below a node on, to
/// find its last child with the name. There may be any number of places below a later child, and
/// none of them is read where the children are walked over.
const MOST_ASKED: usize = 32;

/// A node whose children or attributes are looked for, as its row has it.
#[derive(Clone, Copy)]
struct Owner {
    place: u32,
    level: u32,
    /// The place of the last row below it, or its own where there is none.
    last: u32,
}

impl Owner {
    /// Whether a row of this level, which is below the node, is that of a child or an attribute.
    fn is_parent(self, level: u32) -> bool
        ensures { result ≡ (level == self.level + 1) }
    {
        u64::from(level) == u64::from(self.level) + 1
    }
}

/// Judges the rows below a node, which of them are its children. What is below a child is gone
/// over.
#[derive(Clone, Copy)]
struct ChildrenOf {
    owner: Owner,
}

impl Judge for ChildrenOf {
    ghost axis = { λ _. axes.Child };

    ghost contexts = { λ j. j.owner.place ∷ [] };

    ghost has_judged = { λ start now t s n. (now ≡ start) × AreBelow t s start.owner };

    fn judge(&mut self, row: &LentRow<'_>) -> Result<Verdict, Want> {
        Ok(Verdict {
            is_hit: self.owner.is_parent(row.level) && is_plain(row.kind),
            over: row.size,
        })
    }
}

/// Judges the rows below a node, which of them are its attributes. They come before all others:
/// from the first other on nothing is read.
#[derive(Clone, Copy)]
struct AttributesOf {
    owner: Owner,
}

impl Judge for AttributesOf {
    ghost axis = { λ _. axes.Attributes };

    ghost contexts = { λ j. j.owner.place ∷ [] };

    ghost has_judged = { λ start now t s n. (now ≡ start) × AreBelow t s start.owner };

    fn judge(&mut self, row: &LentRow<'_>) -> Result<Verdict, Want> {
        if is_plain(row.kind) {
            return Ok(Verdict {
                is_hit: false,
                over: self.owner.last.saturating_sub(row.pre),
            });
        }
        Ok(Verdict {
            is_hit: self.owner.is_parent(row.level),
            over: 0,
        })
    }
}

/// Picks the first children of a node that pass a test. Once there are as many as are wanted, all
/// that is left below the node is gone over.
#[derive(Drop)]
struct FirstChildren<'a> {
    judge: ChildrenOf,
    test: &'a Test,
    /// How many are still wanted.
    left: usize,
    found: Found,
}

impl Visitor for FirstChildren<'_> {
    ghost has_read = { λ start now t s n. (now.judge ≡ start.judge)
        × AreBelow t s start.judge.owner × (now.test.now ≡ start.test.now)
        × AreFirst start.left (below_where (is_wanted axes.Child start.test.now t
        (start.judge.owner.place ∷ [])) n) now.left now.found.items };

    fn visit(&mut self, row: &LentRow<'_>) -> Result<u32, Want> {
        if self.left == 0 {
            return Ok(self.judge.owner.last.saturating_sub(row.pre));
        }
        let verdict = self.judge.judge(row)?;
        if verdict.is_hit && passes(self.test, row) {
            self.found.push(row.pre)?;
            self.left -= 1;
        }
        Ok(verdict.over)
    }
}

/// The node at the place, as its row has it.
fn owner_at<L: RowLender>(
    alloc: Global,
    source: &mut L,
    tree: usize,
    place: u32,
) -> Result<Owner, Want>
    ensures is { L.is_clean source.new → IfOk result (λ owner.
        IsOwner (tree_at (L.forest source.old) tree) owner) }
    ensures place { IfOk result (λ owner. owner.place ≡ place) }
    ensures rows { (L.meter source.new).rows ≡ (L.meter source.old).rows }
    ensures singles { (L.meter source.new).singles ≤ (L.meter source.old).singles + 1 }
    ensures looks { (L.meter source.new).looks ≡ (L.meter source.old).looks }
    ensures keeps { L.forest source.new ≡ L.forest source.old }
    ensures was_clean { L.is_clean source.new → L.is_clean source.old }
{
    source.fetch_row(alloc, tree, place)?;
    let Some(row) = source.lent().get(0) else {
        return Err(Want::Store);
    };
    Ok(Owner {
        place,
        level: row.level,
        last: place.saturating_add(row.size),
    })
}

/// The places of the children of the node that pass the test, where its row is known.
fn children_below<L: RowLender>(
    alloc: Global,
    source: &mut L,
    tree: usize,
    owner: Owner,
    test: &Test,
) -> Result<Places, Want>
    ensures found { L.is_clean source.new
        → let t = tree_at (L.forest source.old) tree in
        IsOwner t owner → IfOk result (λ found. found.items
        ≡ below_where (is_wanted axes.Child test.now t (owner.place ∷ [])) (count (nodes t))) }
    ensures rows { L.is_clean source.new
        → let t = tree_at (L.forest source.old) tree in
        IsOwner t owner → (L.meter source.new).rows ≤ (L.meter source.old).rows
        + length (region axes.Child t (owner.place ∷ [])) }
    ensures singles { (L.meter source.new).singles ≡ (L.meter source.old).singles }
    ensures looks { (L.meter source.new).looks ≡ (L.meter source.old).looks }
    ensures keeps { L.forest source.new ≡ L.forest source.old }
    ensures was_clean { L.is_clean source.new → L.is_clean source.old }
{
    let low = owner.place.saturating_add(1);
    search_rows(
        alloc,
        source,
        tree,
        low,
        owner.last,
        ChildrenOf { owner },
        test,
    )
}

/// The places of the children of the node that pass the test. Of its rows those below its children
/// are not read.
pub fn children_of<L: RowLender>(
    alloc: Global,
    source: &mut L,
    tree: usize,
    place: u32,
    test: &Test,
) -> Result<Places, Want>
    ensures found { L.is_clean source.new
        → let t = tree_at (L.forest source.old) tree in
        IfOk result (λ found. found.items
        ≡ below_where (is_wanted axes.Child test.now t (place ∷ [])) (count (nodes t))) }
    ensures rows { L.is_clean source.new
        → (L.meter source.new).rows ≤ (L.meter source.old).rows
        + length (region axes.Child (tree_at (L.forest source.old) tree) (place ∷ [])) }
    ensures singles { (L.meter source.new).singles ≤ (L.meter source.old).singles + 1 }
    ensures looks { (L.meter source.new).looks ≡ (L.meter source.old).looks }
    ensures keeps { L.forest source.new ≡ L.forest source.old }
    ensures was_clean { L.is_clean source.new → L.is_clean source.old }
{
    let owner = owner_at(alloc, source, tree, place)?;
    children_below(alloc, source, tree, owner, test)
}

/// The places of the first children of the node that pass the test, so many at most. Of its rows
/// those below its children are not read, nor those after the last of these and one more.
pub fn first_children_of<L: RowLender>(
    alloc: Global,
    source: &mut L,
    tree: usize,
    place: u32,
    test: &Test,
    most: usize,
) -> Result<Places, Want>
    ensures found { L.is_clean source.new
        → let t = tree_at (L.forest source.old) tree in
        IfOk result (λ found. found.items ≡ take most
        (below_where (is_wanted axes.Child test.now t (place ∷ [])) (count (nodes t)))) }
    ensures rows { L.is_clean source.new
        → (L.meter source.new).rows ≤ (L.meter source.old).rows
        + length (region axes.Child (tree_at (L.forest source.old) tree) (place ∷ [])) }
    ensures singles { (L.meter source.new).singles ≤ (L.meter source.old).singles + 1 }
    ensures looks { (L.meter source.new).looks ≡ (L.meter source.old).looks }
    ensures keeps { L.forest source.new ≡ L.forest source.old }
    ensures was_clean { L.is_clean source.new → L.is_clean source.old }
{
    let owner = owner_at(alloc, source, tree, place)?;
    let mut first = FirstChildren {
        judge: ChildrenOf { owner },
        test,
        left: most,
        found: Found::new(alloc),
    };
    let low = place.saturating_add(1);
    walk(alloc, source, tree, low, owner.last, &mut first)?;
    first.found.into_places()
}

/// The last of the places, which come one after another, that is told as that of a child of the
/// node, or of an attribute: none where the lender can't tell, or none of the last few is such.
fn told_last<L: RowLender>(source: &L, tree: usize, place: u32, places: &[u32]) -> Option<u32>
    ensures { L.is_clean source.now → IfSome result (λ child. EndWith (filter
        (is_below_one (tree_at (L.forest source.now) tree) (place ∷ [])) places.now) child) }
{
    let first = places.len().saturating_sub(MOST_ASKED);
    for index in (first..places.len()).rev() {
        let child = places[index];
        if source.parent(tree, child)? == place {
            return Some(child);
        }
    }
    None
}

/// The place of the last child of the node that passes the test, where it asks for a name, and the
/// lender tells the places of the elements with the name, and the parents of a few of them: none
/// says nothing. No row is read.
fn named_last<L: RowLender>(source: &L, tree: usize, owner: Owner, test: &Test) -> Option<u32>
    ensures { L.is_clean source.now
        → let t = tree_at (L.forest source.now) tree in
        IsOwner t owner → IfSome result (λ child. EndWith (below_where
        (is_wanted axes.Child test.now t (owner.place ∷ [])) (count (nodes t))) child) }
{
    let name = wanted_name(test)?;
    let named = source.named(tree, name)?;
    let below = places_between(named, owner.place.saturating_add(1), owner.last);
    told_last(source, tree, owner.place, below)
}

/// The place of the last child of the node that passes the test. It reads no row below the node
/// where the lender tells the places of the elements with a name, and the parents of these; else
/// those that [`children_of`] reads.
pub fn last_child_of<L: RowLender>(
    alloc: Global,
    source: &mut L,
    tree: usize,
    place: u32,
    test: &Test,
) -> Result<Option<u32>, Want>
    ensures found { L.is_clean source.new
        → let t = tree_at (L.forest source.old) tree in
        let all = below_where (is_wanted axes.Child test.now t (place ∷ [])) (count (nodes t)) in
        IfOk result (λ found. found ≡ slice_get all (length all - 1)) }
    ensures rows { L.is_clean source.new
        → (L.meter source.new).rows ≤ (L.meter source.old).rows
        + length (region axes.Child (tree_at (L.forest source.old) tree) (place ∷ [])) }
    ensures singles { (L.meter source.new).singles ≤ (L.meter source.old).singles + 1 }
    ensures looks { (L.meter source.new).looks ≡ (L.meter source.old).looks }
    ensures keeps { L.forest source.new ≡ L.forest source.old }
    ensures was_clean { L.is_clean source.new → L.is_clean source.old }
{
    let owner = owner_at(alloc, source, tree, place)?;
    if let Some(child) = named_last(source, tree, owner, test) {
        return Ok(Some(child));
    }
    let children = children_below(alloc, source, tree, owner, test)?;
    Ok(last_of(children.as_slice()))
}

/// The places of the attributes of the node that pass the test. Of its rows those of its attributes
/// are read, and one more at most.
pub fn attributes_of<L: RowLender>(
    alloc: Global,
    source: &mut L,
    tree: usize,
    place: u32,
    test: &Test,
) -> Result<Places, Want>
    ensures found { L.is_clean source.new
        → let t = tree_at (L.forest source.old) tree in
        IfOk result (λ found. found.items
        ≡ below_where (is_wanted axes.Attributes test.now t (place ∷ [])) (count (nodes t))) }
    ensures rows { L.is_clean source.new
        → (L.meter source.new).rows ≤ (L.meter source.old).rows
        + length (region axes.Attributes (tree_at (L.forest source.old) tree) (place ∷ [])) }
    ensures singles { (L.meter source.new).singles ≤ (L.meter source.old).singles + 1 }
    ensures looks { (L.meter source.new).looks ≡ (L.meter source.old).looks }
    ensures keeps { L.forest source.new ≡ L.forest source.old }
    ensures was_clean { L.is_clean source.new → L.is_clean source.old }
{
    let owner = owner_at(alloc, source, tree, place)?;
    let low = place.saturating_add(1);
    search_rows(
        alloc,
        source,
        tree,
        low,
        owner.last,
        AttributesOf { owner },
        test,
    )
}
