//! Trees whose rows lie one after another in one list.
ghost use Rattle.std.specs.Prelude.{◌≡◌, ◌≤◌, ◌++◌, ◌∷◌, [], map, Some, None, true, false, length, slice_get, IfNone, IfOk, IfSome, IsTrue, OnErr, OnOk};
ghost use Rattle.xq_trees.specs.Rows.{placed_rows, rows};
ghost use Rattle.xq_trees.specs.Tree.{IsTree, has_text as has_text_lem, is_legal as is_legal_lem};
ghost use Rattle.xq_sources.specs.Grafts.{lone, around_text, rooted};
ghost use Rattle.xq_trees.specs.Forest.{end};
ghost use Rattle.xq_trees.specs.Items.{item_view};
ghost use Rattle.xq_sources.specs.private.Meeting.{IsGrafted};
ghost use Rattle.xq_sources.specs.Sources.{tree_at, HasTree};
ghost use Rattle.xq_sources.specs.private.Planted.{start_of as start_of_lem};

use crate::LentRows;
use crate::grafts::append_rooted;
use std::alloc::Global;
use std::marker::Model;
use xq_atoms::Want;
use xq_packed::{PackedRows, PackedTree};
use xq_trees::{Item, Kind, has_text, is_legal};

/// Trees beside one another, the rows of one after those of another. Contracts see the trees.
#[derive(Drop)]
pub struct TreeArena {
    rows: PackedRows,
    /// Where the rows of each tree end.
    ends: Vec<usize>,
}

impl Model for TreeArena {
    ghost use Rattle.std.specs.Prelude.{List};
    ghost use Rattle.std.specs.Coded.{coded_list};
    ghost use Rattle.xq_trees.specs.Codes.{tree_code};
    ghost use Rattle.xq_trees.specs.Tree.{Tree};
    ghost use Rattle.xq_sources.specs.private.Planted.{trees_after, ArePlanted};

    ghost Value = { List Tree };

    ghost coded = { coded_list tree_code };

    ghost view = { λ trees. trees_after trees.rows.rows 0 trees.ends.items };

    ghost invariant = { λ trees. ArePlanted trees.rows.rows 0 trees.ends.items };
}

/// Where the rows of a tree begin, by the places where those of each tree end.
#[inline]
pub fn start_of(ends: &[usize], tree: usize) -> usize
    requires { tree ≤ length ends.now }
    ensures { result ≡ start_of_lem 0 ends.now tree }
{
    if tree == 0 { 0 } else { ends[tree - 1] }
}

/// Whether there is an element with the name and below it one text with the value.
fn may_go_around(name: &str, value: &str) -> bool
    ensures element { IsTrue result → IsTrue (is_legal_lem Kind.Element name.now []) }
    ensures text { IsTrue result → IsTrue (is_legal_lem Kind.Text [] value.now) }
    ensures some { IsTrue result → IsTrue (has_text_lem Kind.Text value.now) }
{
    has_text(Kind::Text, value)
        && is_legal(Kind::Text, "", value)
        && is_legal(Kind::Element, name, "")
}

/// Adds the rows of a tree after others; where there are none, they are taken as they are.
fn append_whole(list: &mut PackedRows, tree: PackedTree) -> Result<(), Want>
    ensures is_tree { IsTree tree }
    ensures added { OnOk result (list.new.rows ≡ list.old.rows ++ rows tree) }
    ensures err { OnErr result (list.new.rows ≡ list.old.rows) }
{
    if list.is_empty() {
        *list = tree.into_rows();
        return Ok(());
    }
    let more = tree.rows();
    list.append_run(more, 0, more.len(), 0, 0)?;
    Ok(())
}

impl TreeArena {
    /// No tree.
    pub fn new(alloc: Global) -> TreeArena
        ensures { result ≡ [] }
    {
        TreeArena {
            rows: PackedRows::new(alloc),
            ends: Vec::new(alloc),
        }
    }

    /// How many trees there are.
    #[inline]
    pub fn len(&self) -> usize
        ensures { result ≡ length self.now }
    {
        self.ends.len()
    }

    /// The rows of a tree, lent; `Want::Store` where there is none of this number.
    #[inline]
    pub fn rows_of(&self, tree: usize) -> Result<LentRows<'_>, Want>
        ensures exists { OnOk result (HasTree self.now tree) }
        ensures held { OnOk result (slice_get self.now tree ≡ Some (tree_at self.now tree)) }
        ensures absent { OnErr result (slice_get self.now tree ≡ None) }
        ensures is_tree { OnOk result (IsTree (tree_at self.now tree)) }
        ensures rows { IfOk result (λ rows. rows ≡ placed_rows (tree_at self.now tree)) }
    {
        if tree >= self.ends.len() {
            return Err(Want::Store);
        }
        let start = start_of(&self.ends, tree);
        let end = self.ends[tree];
        Ok(LentRows::packed_after(&self.rows, start, 0, end - start))
    }

    /// Adds a tree after the others; where it is refused, they are as before.
    pub fn push(&mut self, tree: PackedTree) -> Result<(), Want>
        ensures ok { OnOk result (self.new ≡ self.old ++ tree ∷ []) }
        ensures err { OnErr result (self.new ≡ self.old) }
    {
        self.ends.reserve(1)?;
        append_whole(&mut self.rows, tree)?;
        self.ends.push_reserved(self.rows.len());
        Ok(())
    }

    /// Adds the tree of one node after the others, where there is such a tree, and says whether it
    /// did. Where it is refused, they are as before.
    pub fn push_lone(&mut self, kind: Kind, name: &str, value: &str) -> Result<bool, Want>
        ensures grown { IfOk result (λ did. did ≡ true
            → self.new ≡ self.old ++ lone kind name.now value.now ∷ []) }
        ensures left { IfOk result (λ did. did ≡ false → self.new ≡ self.old) }
        ensures kept { OnErr result (self.new ≡ self.old) }
    {
        if !is_legal(kind, name, value) {
            return Ok(false);
        }
        self.ends.reserve(1)?;
        self.rows.push_parts(0, 0, kind, name, value)?;
        self.ends.push_reserved(self.rows.len());
        Ok(true)
    }

    /// Adds an element with one text below it after the others, where there is such a tree, and says
    /// whether it did. Where it is refused, they are as before.
    pub fn push_around(&mut self, name: &str, value: &str) -> Result<bool, Want>
        ensures grown { IfOk result (λ did. did ≡ true
            → self.new ≡ self.old ++ around_text name.now value.now ∷ []) }
        ensures left { IfOk result (λ did. did ≡ false → self.new ≡ self.old) }
        ensures kept { OnErr result (self.new ≡ self.old) }
    {
        if !may_go_around(name, value) {
            return Ok(false);
        }
        self.ends.reserve(1)?;
        let root = self.rows.len();
        self.rows.push_parts(1, 0, Kind::Element, name, "")?;
        if let Err(want) = self.rows.push_parts(0, 1, Kind::Text, "", value) {
            self.rows.truncate(root);
            return Err(want);
        }
        self.ends.push_reserved(self.rows.len());
        Ok(true)
    }

    /// Adds a root without a value after the trees, and below it copies of the trees whose roots
    /// the items are, where these are numbered from a first number on, and says whether it did.
    pub fn append_parent(
        &mut self,
        first: usize,
        kind: Kind,
        name: &str,
        items: &[Item],
    ) -> Result<bool, Want>
        ensures grown { IfOk result (λ did. did ≡ true → IsGrafted first
            (rooted kind name.now end).root (map item_view items.now) self.old self.new) }
        ensures left { IfOk result (λ did. did ≡ false → self.new ≡ self.old) }
        ensures kept { OnErr result (self.new ≡ self.old) }
    {
        if !is_legal(kind, name, "") {
            return Ok(false);
        }
        self.ends.reserve(1)?;
        let root = self.rows.len();
        let done = append_rooted(&mut self.rows, &self.ends, first, kind, name, items);
        let Ok(true) = done else {
            self.rows.truncate(root);
            return done;
        };
        self.ends.push_reserved(self.rows.len());
        Ok(true)
    }

    /// Takes the last tree away. None where there is none, or where memory for its rows is wanting.
    pub fn pop(&mut self) -> Option<PackedTree>
        ensures taken { IfSome result (λ tree. self.old ≡ self.new ++ tree ∷ []) }
        ensures none { IfNone result (self.new ≡ self.old) }
    {
        let end = self.ends.pop()?;
        let start = start_of(&self.ends, self.ends.len());
        let mut rows = PackedRows::new(*self.ends.allocator());
        let Ok(()) = rows.append_run(&self.rows, start, end, 0, 0) else {
            self.ends.push_reserved(end);
            return None;
        };
        self.rows.truncate(start);
        Some(PackedTree::of_rows(rows))
    }
}
