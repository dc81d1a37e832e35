//! Whether rows are those of a tree: a test from the last row to the first, which takes no memory.
ghost use Rattle.std.specs.Prelude.{◌≡◌, ◌+◌, ◌-◌, ◌<◌, ◌≤◌, ◌↔◌, ◌&&◌, length, map, drop, slice_range, IsTrue, IfOk, IfErr};
ghost use Rattle.std.proofs.Common.{suc};
ghost use Rattle.xq_trees.specs.Tree.{Tree, IsText, may_stand as may_stand_lem, may_follow as may_follow_lem, is_legal as is_legal_lem, has_text as has_text_lem, is_attribute as is_attribute_lem, may_precede as may_precede_lem, attribute_names, are_attributes_first};
ghost use Rattle.xq_trees.specs.Rows.{row_at, row_name, AreRowsOf};
ghost use Rattle.xq_trees.specs.private.Checks.{IsSoundAt, IsChecked, Passes, AreTexts, IsNamedAt, AreNamed, roots, label_of, may_be_child, are_children_after};

use crate::names::{are_characters, is_attribute_name, is_target};
use crate::rows::{NamedRows, TreeRows};
use crate::values::{is_comment, is_instruction};
use crate::{Kind, MAX_LEVEL, MAX_NODES};
use xq_atoms::{Want, is_name};

/// Whether a node of the kind `parent` may have a child or an attribute of the kind `child`.
#[inline]
pub fn may_stand(parent: Kind, child: Kind) -> bool
    ensures { result ≡ may_stand_lem parent child }
{
    match (parent, child) {
        (Kind::Element, Kind::Document) => false,
        (Kind::Element, _) => true,
        (Kind::Document, Kind::Document | Kind::Attribute) => false,
        (Kind::Document, _) => true,
        _ => false,
    }
}

/// Whether a node of the kind `next` may stand right beside one of the kind `kind`.
#[inline]
pub fn may_follow(kind: Kind, next: Kind) -> bool
    ensures { result ≡ may_follow_lem kind next }
{
    match (kind, next) {
        (Kind::Text, Kind::Text) => false,
        (Kind::Attribute, _) => true,
        (_, Kind::Attribute) => false,
        _ => true,
    }
}

/// Whether a kind may have the name and the value.
pub fn is_legal(kind: Kind, name: &str, value: &str) -> bool
    ensures { result ≡ is_legal_lem kind name.now value.now }
{
    match kind {
        Kind::Document => name.is_empty() && value.is_empty(),
        Kind::Element => is_name(name) && value.is_empty(),
        Kind::Attribute => is_attribute_name(name) && are_characters(value),
        Kind::Text => name.is_empty() && are_characters(value),
        Kind::Comment => name.is_empty() && is_comment(value),
        Kind::ProcessingInstruction => is_target(name) && is_instruction(value),
    }
}

/// Whether a node of the kind with the value is no empty text.
#[inline]
pub fn has_text(kind: Kind, value: &str) -> bool
    ensures { result ≡ has_text_lem kind value.now }
{
    kind != Kind::Text || !value.is_empty()
}

/// Whether the kind is that of an attribute.
fn is_attribute(kind: Kind) -> bool
    ensures { result ≡ is_attribute_lem kind }
{
    match kind {
        Kind::Attribute => true,
        _ => false,
    }
}

/// Whether a node of the kind may stand before the node at the row `next`, where that is before
/// `stop`.
fn may_precede<R: TreeRows>(rows: &R, kind: Kind, next: usize, stop: usize) -> bool
    requires within { stop ≤ length (R.listed rows.now) }
    requires checked { IsChecked (drop next (R.listed rows.now)) }
    ensures { result ≡ may_precede_lem kind (map label_of (roots (R.listed rows.now) next stop)) }
{
    if next >= stop {
        return true;
    }
    may_follow(kind, rows.kind(next))
}

/// Whether the row `at` may be the next child of `parent`, whose rows end before the row `stop`.
fn is_child<R: TreeRows>(rows: &R, parent: usize, at: usize, stop: usize) -> bool
    requires parent_in { parent < length (R.listed rows.now) }
    requires at_in { at < stop }
    requires within { stop ≤ length (R.listed rows.now) }
    requires checked { IsChecked (drop at (R.listed rows.now)) }
    ensures { result ≡ may_be_child (row_at (R.listed rows.now) parent)
        (R.listed rows.now) at stop }
{
    let level = rows.level(at);
    if level == 0 || level - 1 != rows.level(parent) {
        return false;
    }
    let kind = rows.kind(at);
    if !may_stand(rows.kind(parent), kind) || !has_text(kind, rows.value(at)) {
        return false;
    }
    let size = rows.size(at) as usize;
    if size >= stop - at {
        return false;
    }
    may_precede(rows, kind, at + 1 + size, stop)
}

/// Whether the rows after the row `parent` are, as far as its size says, those of its children.
fn has_children<R: TreeRows>(rows: &R, parent: usize) -> bool
    requires parent_in { parent < length (R.listed rows.now) }
    requires checked { IsChecked (drop (suc parent) (R.listed rows.now)) }
    ensures { result ≡ are_children_after (R.listed rows.now) parent }
{
    let size = rows.size(parent) as usize;
    if size >= rows.count() - parent {
        return false;
    }
    let stop = parent + 1 + size;
    let mut at = parent + 1;
    while at < stop {
        if !is_child(rows, parent, at, stop) {
            return false;
        }
        at += 1 + rows.size(at) as usize;
    }
    true
}

/// Whether the row `at` is one of a tree, where the rows after it are.
fn is_sound<R: TreeRows>(rows: &R, at: usize) -> bool
    requires at_in { at < length (R.listed rows.now) }
    requires checked { IsChecked (drop (suc at) (R.listed rows.now)) }
    ensures sound { IsTrue result ↔ IsSoundAt (R.listed rows.now) at }
    ensures texts { IsText (row_at (R.listed rows.now) at).label }
{
    let name = rows.name(at);
    let value = rows.value(at);
    rows.level(at) <= MAX_LEVEL && is_legal(rows.kind(at), name, value) && has_children(rows, at)
}

/// The row after the last of the attributes that begin at the row `from`, before the row `stop`.
pub fn attributes_end<R: TreeRows>(rows: &R, from: usize, stop: usize) -> usize
    requires forward { from ≤ stop }
    requires within { stop ≤ length (R.listed rows.now) }
    requires checked { IsChecked (drop from (R.listed rows.now)) }
    requires in_front { IsTrue
        (are_attributes_first (map label_of (roots (R.listed rows.now) from stop))) }
    ensures after { from ≤ result }
    ensures before { result ≤ stop }
    ensures names { attribute_names (map label_of (roots (R.listed rows.now) from stop))
        ≡ map row_name (slice_range (R.listed rows.now) from result) }
{
    let mut at = from;
    while at < stop {
        if !is_attribute(rows.kind(at)) {
            return at;
        }
        at += 1;
    }
    at
}

/// Whether the rows are those of one tree, but for attributes of one name.
pub fn is_nested<R: TreeRows>(rows: &R) -> bool
    ensures passes { IsTrue result ↔ Passes (R.listed rows.now) }
    ensures texts { IsTrue result → AreTexts (R.listed rows.now) }
{
    let count = rows.count();
    if count == 0 {
        return false;
    }
    if count > MAX_NODES {
        return false;
    }
    if rows.level(0) != 0 {
        return false;
    }
    if rows.size(0) as usize != count - 1 {
        return false;
    }
    let mut at = count;
    while at > 0 {
        at -= 1;
        if !is_sound(rows, at) {
            return false;
        }
    }
    true
}

/// Whether the attributes of the row `at` have distinct names.
fn has_distinct_attributes<R: NamedRows>(rows: &R, at: usize) -> Result<bool, Want>
    requires at_in { at < length (R.listed rows.now) }
    requires room { length (R.listed rows.now) ≤ usize.MAX }
    requires checked { IsChecked (R.listed rows.now) }
    ensures distinct { IfOk result (λ distinct.
        IsTrue distinct ↔ IsNamedAt (R.listed rows.now) at) }
    ensures want { IfErr result (λ want. want ≡ Want.Memory) }
{
    let from = at + 1;
    let end = attributes_end(rows, from, from + rows.size(at) as usize);
    rows.has_distinct_names(from, end)
}

/// Whether the attributes of each row have distinct names.
fn are_names_distinct<R: NamedRows>(rows: &R) -> Result<bool, Want>
    requires checked { IsChecked (R.listed rows.now) }
    ensures distinct { IfOk result (λ distinct. IsTrue distinct ↔ AreNamed (R.listed rows.now)) }
    ensures want { IfErr result (λ want. want ≡ Want.Memory) }
{
    for at in 0..rows.count() {
        if !has_distinct_attributes(rows, at)? {
            return Ok(false);
        }
    }
    Ok(true)
}

/// Whether the rows are those of one tree.
pub fn is_tree<R: NamedRows>(rows: &R) -> Result<bool, Want>
    ensures tree { IfOk result (λ is. IsTrue is
        ↔ ((t : Tree) × AreRowsOf (R.listed rows.now) t)) }
    ensures want { IfErr result (λ want. want ≡ Want.Memory) }
{
    if !is_nested(rows) {
        return Ok(false);
    }
    are_names_distinct(rows)
}
