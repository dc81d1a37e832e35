//! Trees that are copied below a root, within the list where all of them lie.
ghost use Rattle.std.specs.Prelude.{List, ◌≡◌, ◌≤◌, ◌++◌, drop, length, map, true, IfOk, IfSome, IsTrue};
ghost use Rattle.xq_packed.specs.Packed.{NoneNamed};
ghost use Rattle.xq_trees.specs.Items.{item_view};
ghost use Rattle.xq_trees.specs.Rows.{Row};
ghost use Rattle.xq_trees.specs.Tree.{Label, Tree};
ghost use Rattle.xq_trees.specs.Forest.{end};
ghost use Rattle.xq_sources.specs.Grafts.{rooted};
ghost use Rattle.xq_sources.specs.Sources.{tree_at, HasTree};
ghost use Rattle.xq_sources.specs.private.Meeting.{picked, AreMet, AreRooted, IsNext, IsPicked, MayCome};
ghost use Rattle.xq_sources.specs.private.Planted.{trees_after, ArePlanted};

use crate::planted::start_of;
use xq_atoms::Want;
use xq_packed::{PackedRow, PackedRows};
use xq_trees::{Item, Kind, MAX_NODES, has_text, may_follow, may_stand};

/// The most attributes that are copied below a root: the name of each is compared with those of all
/// before it.
const FEW_ATTRIBUTES: usize = 8;

/// Whether no row from a place on has the name, where there are few of them.
fn is_new_name(rows: &PackedRows, under: usize, name: &str) -> bool
    requires { under ≤ length rows.now.rows }
    ensures { IsTrue result → NoneNamed (drop under rows.now.rows) name.now }
{
    if rows.len() - under >= FEW_ATTRIBUTES {
        return false;
    }
    for at in under..rows.len() {
        if name == PackedRow::new(rows, at).name() {
            return false;
        }
    }
    true
}

/// Whether a node may come next below a parent, after a node of the last kind, where the rows of
/// all that were before lie from a place on. An attribute has attributes alone before it.
fn may_come(rows: &PackedRows, under: usize, parent: Kind, last: Kind, node: &PackedRow<'_>) -> bool
    requires { under ≤ length rows.now.rows }
    ensures { IsTrue result
        → MayCome parent last (drop under rows.now.rows) node.now.row.label }
{
    let kind = node.kind();
    may_stand(parent, kind)
        && has_text(kind, node.value())
        && may_follow(last, kind)
        && (!matches!(kind, Kind::Attribute) || is_new_name(rows, under, node.name()))
}

/// Copies the rows of a tree after the last row, one level further down, where it may come below a
/// parent after a tree whose root has the last kind, and tells the kind of its root; the rows of
/// all that were before lie from a place on. None where it may not; then, and where it is refused,
/// the rows are as before.
fn append_tree(
    rows: &mut PackedRows,
    ends: &[usize],
    tree: usize,
    under: usize,
    parent: Kind,
    last: Kind,
) -> Result<Option<Kind>, Want>
    requires { under ≤ length rows.old.rows }
    ensures next { (front more : List Row) → rows.old.rows ≡ front ++ more
        → ArePlanted front 0 ends.now → IfOk result (λ found. IfSome found (λ kind.
        IsNext front ends.now tree under parent last kind rows.old.rows rows.new.rows)) }
    ensures after { (more : List Row) × (rows.new.rows ≡ rows.old.rows ++ more) }
{
    let Some(end) = ends.get(tree) else {
        return Ok(None);
    };
    let start = start_of(ends, tree);
    let Some(root) = rows.get(start) else {
        return Ok(None);
    };
    let kind = root.kind();
    if !may_come(rows, under, parent, last, &root) {
        return Ok(None);
    }
    match rows.append_own(start, *end, 0, 1) {
        Ok(()) => Ok(Some(kind)),
        Err(Want::Store) => Ok(None),
        Err(want) => Err(want),
    }
}

/// The number of the tree whose root the item is, counted from the first; none where it is none.
fn root_tree(first: usize, item: &Item) -> Option<usize>
    ensures { (trees : List Tree) → IfSome result (λ tree. HasTree trees tree
        → IsPicked first trees (item_view item.now)
        × (picked first trees (item_view item.now) ≡ tree_at trees tree)) }
{
    match item {
        Item::Node(node) if node.pre == 0 => node.tree.checked_sub(first),
        _ => None,
    }
}

/// Copies the rows of the trees whose roots the items are after the last row, a root's, where they
/// may stand below it. False where they may not, or where this is not told here, as of many
/// attributes. Anything may come first, as it may after an attribute.
fn append_trees(
    rows: &mut PackedRows,
    ends: &[usize],
    first: usize,
    root: Kind,
    items: &[Item],
) -> Result<bool, Want>
    ensures met { (front more : List Row) (label : Label) → label.kind ≡ root
        → rows.old.rows ≡ front ++ more → ArePlanted front 0 ends.now → IfOk result (λ did.
        did ≡ true → AreMet first label (map item_view items.now)
        (trees_after front 0 ends.now) rows.old.rows rows.new.rows) }
    ensures after { (more : List Row) × (rows.new.rows ≡ rows.old.rows ++ more) }
{
    let under = rows.len();
    let mut last = Kind::Attribute;
    for item in items {
        let Some(tree) = root_tree(first, item) else {
            return Ok(false);
        };
        let Some(kind) = append_tree(rows, ends, tree, under, root, last)? else {
            return Ok(false);
        };
        last = kind;
    }
    Ok(true)
}

/// Adds a root without a value after the rows, and below it copies of the trees whose roots the
/// items are. False where they may not stand there, or where this is not told here.
pub fn append_rooted(
    rows: &mut PackedRows,
    ends: &[usize],
    first: usize,
    kind: Kind,
    name: &str,
    items: &[Item],
) -> Result<bool, Want>
    ensures rooted { ArePlanted rows.old.rows 0 ends.now → IfOk result (λ did. did ≡ true
        → AreRooted first (rooted kind name.now end).root (map item_view items.now)
        (trees_after rows.old.rows 0 ends.now) rows.old.rows rows.new.rows) }
    ensures after { (more : List Row) × (rows.new.rows ≡ rows.old.rows ++ more) }
{
    let root = rows.len();
    rows.push_parts(0, 0, kind, name, "")?;
    let under = rows.len();
    if !append_trees(rows, ends, first, kind, items)? {
        return Ok(false);
    }
    let size = rows.len() - under;
    if size >= MAX_NODES {
        return Ok(false);
    }
    rows.set_size(root, size as u32);
    Ok(true)
}
