//! Where the parent of a node lies.
ghost use Rattle.std.specs.Prelude.{ℕ, List, [], ◌≡◌, ◌<◌, true, IfSome};
ghost use Rattle.xq_trees.specs.Rows.{Row};
ghost use Rattle.xq_sources.specs.Lent.{unplaced};
ghost use Rattle.xq_sources.specs.Parents.{AreParents, IsParentRow};

use crate::{LentRow, LentRows};
use std::alloc::Global;
use std::marker::Model;
use xq_atoms::Want;

/// In a tree of so many rows, or of fewer, parents are looked for from row to row.
const FEW: usize = 64;

/// How many levels a tree may have.
const LEVELS: usize = 101;

/// How far a look goes: up from a row to the root, or back over few rows.
const LOOKS: usize = LEVELS;

/// What is kept of a row whose parent isn't told: no row has this place.
const UNTOLD: u32 = u32::MAX;

/// The places of the parents of the rows of a tree, four bytes a row, so that the parent of any is
/// told at once, however many rows lie between. Of a tree of few rows nothing is kept. Contracts
/// see what is kept.
///
/// Each place is kept after a look at the rows of the node and its parent. So while the rows stay,
/// [`Guide::kept`] reads none of them. Whose rows they are it can't see: [`Guide::parent`] is given
/// them, and reads both before it answers.
#[derive(Drop)]
pub struct Guide {
    parents: Vec<u32>,
}

impl Model for Guide {
    ghost use Rattle.std.specs.Prelude.{ℕ, List};
    ghost use Rattle.std.specs.Coded.{coded_ℕ, coded_list};

    ghost Value = { List ℕ };

    ghost coded = { coded_list coded_ℕ };

    ghost view = { λ guide. guide.parents.items };
}

/// The place of the parent of the node, by those that are kept of the first nodes of a tree, one
/// after another; none where it isn't among them or isn't told.
#[inline]
pub fn told_parent(parents: &[u32], node: u32) -> Option<u32>
    ensures { (rs : List Row) → AreParents rs parents.now
        → IfSome result (λ place. IsParentRow rs place node) }
{
    let parent = parents.get(node as usize)?;
    if *parent == UNTOLD {
        return None;
    }
    Some(*parent)
}

/// No place is kept.
#[inline]
pub fn no_parents<'a>() -> &'a [u32]
    ensures { (rs : List Row) → AreParents rs result.now }
{
    &[]
}

impl Guide {
    /// Nothing kept yet.
    pub fn new(alloc: Global) -> Guide
        ensures { result ≡ [] }
    {
        Guide {
            parents: Vec::new(alloc),
        }
    }

    /// Goes on to the last of the rows, which are the first rows of a tree. What is kept is right
    /// among any rows among which the parents of these are the same, where it was before; also
    /// where the call is refused.
    pub fn read_on(&mut self, rows: &LentRows<'_>) -> Result<(), Want>
        ensures { (rs : List Row)
            → ((u v : ℕ) → IsParentRow (unplaced rows.now) u v → IsParentRow rs u v)
            → AreParents rs self.old → AreParents rs self.new }
    {
        let count = rows.len();
        let kept = self.parents.len();
        if count <= FEW || count <= kept {
            return Ok(());
        }
        let lasts = self.lasts(rows);
        self.parents.reserve(count - kept)?;
        add_parents(&mut self.parents, rows, lasts)
    }

    /// The place of the last row of each level, among the last row whose parent is kept and the
    /// rows above that row.
    fn lasts(&self, rows: &LentRows<'_>) -> [u32; LEVELS] {
        let mut lasts = [0; LEVELS];
        let mut place = self.parents.len().saturating_sub(1);
        for _ in 0..LEVELS {
            let Some(row) = rows.get(place) else {
                return lasts;
            };
            lasts[level_of(&row)] = row.pre;
            let Some(parent) = self.parents.get(place) else {
                return lasts;
            };
            place = *parent as usize;
        }
        lasts
    }

    /// The place of the parent of the node, where it is kept. No row is read: it is right among
    /// the rows among which what is kept is.
    #[inline]
    pub fn kept(&self, node: u32) -> Option<u32>
        ensures { (rs : List Row) → AreParents rs self.now
            → IfSome result (λ place. IsParentRow rs place node) }
    {
        told_parent(&self.parents, node)
    }

    /// What is kept: of each node, one after another, the place of its parent, or of none where it
    /// isn't told.
    #[inline]
    pub fn places(&self) -> &[u32]
        ensures { result.now ≡ self.now }
    {
        &self.parents
    }

    /// The place of the parent of the node, by the rows so far; none where it isn't among them or
    /// can't be told.
    #[inline]
    pub fn parent(&self, rows: &LentRows<'_>, node: u32) -> Option<u32>
        ensures { IfSome result (λ place. IsParentRow (unplaced rows.now) place node) }
    {
        let place = self.guess(rows, node);
        if is_parent(rows, place, node as usize) {
            Some(place)
        } else {
            None
        }
    }

    /// A place where the parent of the node may lie.
    #[inline]
    fn guess(&self, rows: &LentRows<'_>, node: u32) -> u32 {
        match self.parents.get(node as usize) {
            Some(parent) => *parent,
            None => self.look_back(rows, node),
        }
    }

    /// The place of the last row of a lesser level before the node: that of the row before it, or
    /// of a node above that one. It stays a call, so that what is kept is told without one.
    #[inline(never)]
    fn look_back(&self, rows: &LentRows<'_>, node: u32) -> u32 {
        let level = level_at(rows, node);
        let mut place = node.saturating_sub(1);
        for _ in 0..LOOKS {
            if level_at(rows, place) < level {
                return place;
            }
            place = match self.parents.get(place as usize) {
                Some(parent) => *parent,
                None => place.saturating_sub(1),
            };
        }
        place
    }
}

/// Keeps the guide of the tree with this number, among those of trees beside it, where it has many
/// rows and none is kept yet. Where memory is short, none is.
pub fn guide_to(alloc: Global, guides: &mut Vec<Guide>, tree: usize, rows: &LentRows<'_>) {
    if rows.len() <= FEW {
        return;
    }
    for _ in guides.len()..=tree {
        if guides.push(Guide::new(alloc)).is_err() {
            return;
        }
    }
    if let Some(guide) = guides.get_mut(tree) {
        let _ = guide.read_on(rows);
    }
}

/// Adds the places of the parents of the rows that come after the rows whose parents are there.
/// `lasts` has for each level the place of the last row before that has it.
fn add_parents(
    parents: &mut Vec<u32>,
    rows: &LentRows<'_>,
    lasts: [u32; LEVELS],
) -> Result<(), Want>
    ensures { (rs : List Row)
        → ((u v : ℕ) → IsParentRow (unplaced rows.now) u v → IsParentRow rs u v)
        → AreParents rs parents.old.items → AreParents rs parents.new.items }
{
    let mut lasts = lasts;
    for place in parents.len()..rows.len() {
        let row = rows.row(place);
        let level = level_of(&row);
        let above = if level > 0 { lasts[level - 1] } else { UNTOLD };
        lasts[level] = row.pre;
        parents.push(told(rows, above, place))?;
    }
    Ok(())
}

/// The place, where the rows there and at the node are those of a parent and its child.
fn told(rows: &LentRows<'_>, place: u32, node: usize) -> u32
    ensures { result < 4294967295 → IsParentRow (unplaced rows.now) result node }
{
    if is_parent(rows, place, node) {
        place
    } else {
        UNTOLD
    }
}

/// The level of a row, as far as a tree may have it.
#[inline]
fn level_of(row: &LentRow<'_>) -> usize
    ensures { result < LEVELS }
{
    (row.level as usize).min(LEVELS - 1)
}

/// The level of the row at the place, 0 where there is none.
fn level_at(rows: &LentRows<'_>, place: u32) -> u32 {
    match rows.get(place as usize) {
        Some(row) => row.level,
        None => 0,
    }
}

/// Whether the rows at both places are there and are those of a node and its parent, the parent's
/// first.
#[inline]
fn is_parent(rows: &LentRows<'_>, place: u32, node: usize) -> bool
    ensures { result ≡ true → IsParentRow (unplaced rows.now) place node }
{
    let Some(row) = rows.get(node) else {
        return false;
    };
    let place = place as usize;
    if place >= node {
        return false;
    }
    let Some(above) = rows.get(place) else {
        return false;
    };
    node - place <= above.size as usize && row.level > 0 && row.level - 1 == above.level
}
