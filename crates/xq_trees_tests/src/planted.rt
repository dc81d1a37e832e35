//! The trees of a source and those that are constructed after them, read through each trait.

use crate::asserts::{holds, none_is_wrong};
use std::alloc::Global;
use xq_atoms::Want;
use xq_packed::PackedTree;
use xq_samples::documents::{Row, are_rows, held, tree_of};
use xq_sources::{Buffered, ConstructedTrees, LentRows, RowLender, RowSource, TreeStore, Trees};
use xq_trees::{Item, Items, Kind, Node};

/// An element of the source, with a text.
const STORED: [Row; 2] = [
    (0, 1, 0, Kind::Element, "stored", ""),
    (1, 0, 1, Kind::Text, "", "A"),
];

/// An element that is constructed, with a text.
const CONSTRUCTED: [Row; 2] = [
    (0, 1, 0, Kind::Element, "constructed", ""),
    (1, 0, 1, Kind::Text, "", "B"),
];

/// An element below which trees of two kinds were put together.
const GRAFTED: [Row; 6] = [
    (0, 5, 0, Kind::Element, "b", ""),
    (1, 0, 1, Kind::Attribute, "id", "1"),
    (2, 1, 1, Kind::Element, "a", ""),
    (3, 0, 2, Kind::Text, "", "x"),
    (4, 1, 1, Kind::Element, "a", ""),
    (5, 0, 2, Kind::Text, "", "x"),
];

/// A document with that element.
const DOCUMENT: [Row; 7] = [
    (0, 6, 0, Kind::Document, "", ""),
    (1, 5, 1, Kind::Element, "b", ""),
    (2, 0, 2, Kind::Attribute, "id", "1"),
    (3, 1, 2, Kind::Element, "a", ""),
    (4, 0, 3, Kind::Text, "", "x"),
    (5, 1, 2, Kind::Element, "a", ""),
    (6, 0, 3, Kind::Text, "", "x"),
];

/// A tree that is built where it is kept.
#[derive(Clone, Copy)]
enum Plant {
    /// One node: its kind, name and value.
    Lone(Kind, &'static str, &'static str),
    /// An element with a text.
    Around(&'static str, &'static str),
    /// A node of the kind with the name, above the trees with these numbers.
    Graft(Kind, &'static str, &'static [usize]),
}

/// What is done with trees, or found of them.
#[derive(Clone, Copy)]
enum Look {
    /// There are so many.
    Count(usize),
    /// One is constructed.
    Construct,
    /// One is built where it is kept, or it can't be built there.
    Plant(Plant, bool),
    /// The last one is taken away, where it was constructed.
    Uproot(Option<&'static [Row]>),
    /// The tree with a number has these rows.
    Gives(usize, &'static [Row]),
    /// There is no tree with the number.
    Refuses(usize),
    /// So many rows of ranges were given, and so many single ones.
    Meter(u64, u64),
}

/// Trees of both kinds are given, and counted.
const GIVEN: [Look; 8] = [
    Look::Count(1),
    Look::Refuses(1),
    Look::Construct,
    Look::Count(2),
    Look::Gives(0, &STORED),
    Look::Gives(1, &CONSTRUCTED),
    Look::Refuses(2),
    Look::Meter(4, 4),
];

/// The last constructed tree is uprooted, and none of the source.
const UPROOTED: [Look; 7] = [
    Look::Construct,
    Look::Uproot(Some(&CONSTRUCTED)),
    Look::Uproot(None),
    Look::Gives(0, &STORED),
    Look::Refuses(1),
    Look::Construct,
    Look::Gives(1, &CONSTRUCTED),
];

/// Trees are built where they are kept, where there are such trees; else nothing is done.
const BUILT: [Look; 18] = [
    Look::Plant(Plant::Lone(Kind::Attribute, "id", "1"), true),
    Look::Plant(Plant::Around("a", "x"), true),
    Look::Gives(2, &AROUND),
    Look::Plant(Plant::Lone(Kind::Attribute, "1", "id"), false),
    Look::Plant(Plant::Lone(Kind::Text, "", "\u{1}"), false),
    Look::Plant(Plant::Around("a", ""), false),
    Look::Plant(Plant::Around("", "x"), false),
    Look::Plant(Plant::Graft(Kind::Element, "b", &[1, 2, 2]), true),
    Look::Gives(3, &GRAFTED),
    Look::Plant(Plant::Graft(Kind::Element, "b", &[2, 1]), false),
    Look::Plant(Plant::Graft(Kind::Element, "b", &[1, 1]), false),
    Look::Plant(Plant::Graft(Kind::Element, "b", &[0]), false),
    Look::Plant(Plant::Graft(Kind::Document, "", &[1]), false),
    Look::Plant(Plant::Graft(Kind::Element, "b", &[9]), false),
    Look::Plant(Plant::Graft(Kind::Document, "", &[3]), true),
    Look::Plant(Plant::Graft(Kind::Element, "b", &[4]), false),
    Look::Uproot(Some(&DOCUMENT)),
    Look::Count(4),
];

/// An element with a text, built where it is kept.
const AROUND: [Row; 2] = [
    (0, 1, 0, Kind::Element, "a", ""),
    (1, 0, 1, Kind::Text, "", "x"),
];

/// A source with one tree.
fn stored(alloc: Global) -> Result<ConstructedTrees, Want> {
    held(alloc, tree_of(alloc, &STORED)?)
}

/// Adds a constructed tree.
fn construct<T: TreeStore>(alloc: Global, trees: &mut T) -> Result<(), Want> {
    let tree = tree_of(alloc, &CONSTRUCTED)?;
    trees.plant(PackedTree::of(alloc, &tree)?)
}

/// The roots of the trees with these numbers.
fn roots(alloc: Global, trees: &[usize]) -> Result<Items, Want> {
    let mut items = Vec::new(alloc);
    for tree in trees {
        items.push(Item::Node(Node {
            tree: *tree,
            pre: 0,
        }))?;
    }
    Ok(items)
}

/// Builds a tree where it is kept, and tells whether that was done.
fn is_planted<T: TreeStore>(alloc: Global, trees: &mut T, plant: Plant) -> Result<bool, Want> {
    match plant {
        Plant::Lone(kind, name, value) => trees.plant_lone(kind, name, value),
        Plant::Around(name, value) => trees.plant_around(name, value),
        Plant::Graft(kind, name, numbers) => trees.append_parent(
            kind,
            name,
            &roots(alloc, numbers)?,
        ),
    }
}

/// Takes the last tree away, and tells whether it has these rows.
fn is_uprooted<T: TreeStore>(trees: &mut T, wanted: Option<&[Row]>) -> bool {
    let Some(tree) = trees.take_last() else {
        return wanted.is_none();
    };
    match wanted {
        Some(rows) => are_rows(&LentRows::all(tree.rows()), rows),
        None => false,
    }
}

/// Whether the tree is given: its rows, the one above its second, and that one.
fn gives<T: RowSource>(
    alloc: Global,
    trees: &mut T,
    tree: usize,
    wanted: &[Row],
) -> Result<bool, Want> {
    let rows = trees.range(alloc, tree, 0, 9)?;
    let above = trees.enclosing(alloc, tree, 1)?.len();
    let level = trees.row(alloc, tree, 1)?.level;
    Ok(are_rows(&LentRows::new(&rows), wanted) && above == 1 && level == 1)
}

/// Whether no row of the tree is given.
fn refuses<T: RowSource>(alloc: Global, trees: &mut T, tree: usize) -> bool {
    matches!(trees.range(alloc, tree, 0, 0), Err(Want::Store))
        && matches!(trees.row(alloc, tree, 0), Err(Want::Store))
}

/// Does this, and tells whether what is found is what it says.
fn is_right<T: TreeStore + RowSource>(
    alloc: Global,
    trees: &mut T,
    look: Look,
) -> Result<bool, Want> {
    match look {
        Look::Count(count) => Ok(trees.trees() == count),
        Look::Construct => {
            construct(alloc, trees)?;
            Ok(true)
        }
        Look::Plant(tree, wanted) => Ok(is_planted(alloc, trees, tree)? == wanted),
        Look::Uproot(wanted) => Ok(is_uprooted(trees, wanted)),
        Look::Gives(tree, rows) => gives(alloc, trees, tree, rows),
        Look::Refuses(tree) => Ok(refuses(alloc, trees, tree)),
        Look::Meter(rows, singles) => {
            Ok((trees.meter().rows(), trees.meter().singles()) == (rows, singles))
        }
    }
}

/// The place of the first of these that is not as it says.
fn wrong_look<T: TreeStore + RowSource>(
    alloc: Global,
    trees: &mut T,
    looks: &[Look],
) -> Result<Option<usize>, Want> {
    for (place, look) in looks.iter().enumerate() {
        if !is_right(alloc, trees, *look)? {
            return Ok(Some(place));
        }
    }
    Ok(None)
}

/// Lists of what is done and found, each for trees of their own.
const LISTS: [&[Look]; 3] = [&GIVEN, &UPROOTED, &BUILT];

/// Each list of looks: a source gives stored and constructed trees alike.
#[test]
fn sources_give_both_kinds(rt: HostRuntime) -> Result<(), Want> {
    for looks in &LISTS {
        let mut trees = Trees::new(rt.alloc(), stored(rt.alloc())?);
        none_is_wrong(&rt, wrong_look(rt.alloc(), &mut trees, looks)?);
    }
    Ok(())
}

/// Whether the rows of the tree are lent, one of them alone, and nothing where a row is refused.
fn lends<L: RowLender>(
    alloc: Global,
    lender: &mut L,
    tree: usize,
    wanted: &[Row],
) -> Result<bool, Want> {
    lender.fetch(alloc, tree, 0, 9)?;
    let are_lent = are_rows(&lender.lent(), wanted);
    lender.fetch_row(alloc, tree, 1)?;
    let is_one = lender.lent().len() == 1;
    let is_refused = matches!(lender.fetch_row(alloc, tree, 9), Err(Want::Store));
    Ok(are_lent && is_one && is_refused && lender.lent().is_empty())
}

/// Whether trees of both kinds are lent, and counted.
fn lends_both<T: TreeStore>(alloc: Global, trees: &mut T) -> Result<bool, Want> {
    construct(alloc, trees)?;
    let are_lent = lends(alloc, trees, 1, &CONSTRUCTED)? && lends(alloc, trees, 0, &STORED)?;
    let is_refused = matches!(trees.fetch(alloc, 2, 0, 0), Err(Want::Store));
    let counts = (trees.meter().rows(), trees.meter().singles());
    Ok(are_lent && is_refused && counts == (4, 2))
}

/// Trees over a source without places tell none, of the source's trees or of those that are
/// constructed.
fn tells_none<T: TreeStore>(alloc: Global, trees: &mut T) -> Result<bool, Want> {
    for tree in 0..3 {
        trees.find_values(alloc, tree, "id")?;
        let is_looked = trees.find_named(alloc, tree, "id")?.is_some();
        if is_looked || trees.valued(tree, "id", "x").is_some() {
            return Ok(false);
        }
    }
    Ok(trees.meter().looks() == 0)
}

/// Trees over a buffer lend both kinds, and tell no places of values.
#[test]
fn lenders_lend_both_kinds(rt: HostRuntime) -> Result<(), Want> {
    let source = Buffered::new(rt.alloc(), stored(rt.alloc())?);
    let mut trees = Trees::new(rt.alloc(), source);
    holds(&rt, lends_both(rt.alloc(), &mut trees)?, 0);
    holds(&rt, tells_none(rt.alloc(), &mut trees)?, 1);
    Ok(())
}
