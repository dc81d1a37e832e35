//! Whether rows in a list, with their places, are those of a tree.
ghost use Rattle.std.specs.Prelude.{◌≡◌, ◌≤◌, ◌<◌, ◌↔◌, length, map, drop, slice_range, IsTrue};
ghost use Rattle.xq_trees.specs.Tree.{attribute_names, are_attributes_first};
ghost use Rattle.xq_trees.specs.Rows.{row_of, AreNumbered, IsEncoding};
ghost use Rattle.xq_trees.specs.private.Checks.{IsChecked, IsNamedAt, AreNamed, AreTexts, Passes, name_of, roots, label_of};

use crate::NodeRow;
use crate::attributes::has_distinct_names;
use crate::encodings::{attributes_end, is_nested};

/// Whether each row has its place.
fn are_numbered(rows: &[NodeRow]) -> bool
    ensures { IsTrue result ↔ AreNumbered 0 rows.now }
{
    for at in 0..rows.len() {
        if rows[at].pre as usize != at {
            return false;
        }
    }
    true
}

/// Whether the rows are those of one tree, but for their places and for attributes of one name.
fn is_nested_list(rows: &[NodeRow]) -> bool
    ensures { IsTrue result ↔ Passes (map row_of rows.now) }
{
    is_nested(&rows)
}

/// The row after the last of the attributes that begin at the row `from`, before the row `stop`.
fn attributes_end_in(rows: &[NodeRow], from: usize, stop: usize) -> usize
    requires forward { from ≤ stop }
    requires within { stop ≤ length rows.now }
    requires checked { IsChecked (drop from (map row_of rows.now)) }
    requires in_front { IsTrue
        (are_attributes_first (map label_of (roots (map row_of rows.now) from stop))) }
    ensures after { from ≤ result }
    ensures before { result ≤ stop }
    ensures names { attribute_names (map label_of (roots (map row_of rows.now) from stop))
        ≡ map name_of (slice_range rows.now from result) }
{
    attributes_end(&rows, from, stop)
}

/// Whether the attributes of the row `at` have distinct names.
fn has_distinct_attributes(rows: &mut [NodeRow], at: usize) -> bool
    requires at_in { at < length rows.old }
    requires checked { IsChecked (map row_of rows.old) }
    requires numbered { AreNumbered 0 rows.old }
    ensures distinct { IsTrue result ↔ IsNamedAt (map row_of rows.old) at }
    ensures kept { rows.new ≡ rows.old }
{
    let size = rows[at].size as usize;
    let from = at + 1;
    let end = attributes_end_in(rows, from, from + size);
    has_distinct_names(&mut rows[from..end])
}

/// Whether the attributes of each row have distinct names.
fn are_names_distinct(rows: &mut [NodeRow]) -> bool
    requires checked { IsChecked (map row_of rows.old) }
    requires numbered { AreNumbered 0 rows.old }
    ensures distinct { IsTrue result ↔ AreNamed (map row_of rows.old) }
    ensures kept { rows.new ≡ rows.old }
{
    for at in 0..rows.len() {
        if !has_distinct_attributes(rows, at) {
            return false;
        }
    }
    true
}

/// Whether the rows are those of one tree. Attributes change places for it, and go back.
pub fn is_encoding(rows: &mut [NodeRow]) -> bool
    ensures encodes { IsTrue result ↔ IsEncoding rows.old }
    ensures kept { rows.new ≡ rows.old }
{
    if !are_numbered(rows) {
        return false;
    }
    if !is_nested_list(rows) {
        return false;
    }
    are_names_distinct(rows)
}
