//! Constructors of elements and documents.
ghost use Rattle.std.specs.Prelude.{◌≡◌, Ok, map, string_bytes, IfOk, IfSome};
ghost use Rattle.xq_trees.specs.Items.{item_view};
ghost use Rattle.xq_meaning.specs.Content.{element_tree, document_tree};
ghost use Rattle.xq_meaning.specs.Readings.{items_at};
ghost use Rattle.xq_atoms.specs.Answers.{GivesUnlessWanting};
ghost use Rattle.xq_build.specs.private.Lone.{IsLoneText, around};

use crate::content::content;
use crate::judging::built;
use std::alloc::Global;
use xq_atoms::{Atom, Fault, Want, cast_str};
use xq_packed::{PackedRows, PackedTree};
use xq_sources::RowLender;
use xq_trees::{Item, Kind};

/// The string that is the only item, where it is not empty: it is read where it lies.
pub fn lone_string(items: &[Item]) -> Option<&str>
    ensures { IfSome result (λ text. IsLoneText (map item_view items.now) text.now) }
{
    let [Item::Atom(Atom::Str(text) | Atom::Untyped(text))] = items else {
        return None;
    };
    if text.is_empty() {
        return None;
    }
    Some(text.as_str())
}

/// The text of the only item, where that is an atom whose text is not empty.
pub fn lone_text(alloc: Global, items: &[Item]) -> Result<Option<String>, Want>
    ensures { IfOk result (λ found. IfSome found (λ text. IsLoneText (map item_view items.now)
        (string_bytes text))) }
{
    let [Item::Atom(atom)] = items else {
        return Ok(None);
    };
    let text = cast_str(alloc, atom)?;
    if text.is_empty() {
        return Ok(None);
    }
    Ok(Some(text))
}

/// An element with one text below it, which is not empty. Its rows are those of a tree where the
/// name and the text are such as a tree may have.
fn around_text(alloc: Global, name: &str, value: &str) -> Result<PackedTree, Fault>
    ensures { GivesUnlessWanting (λ tree. tree) (Ok (around name.now value.now)) result }
{
    let mut rows = PackedRows::new(alloc);
    rows.push_parts(1, 0, Kind::Element, name, "")?;
    rows.push_parts(0, 1, Kind::Text, "", value)?;
    match PackedTree::from_levels(rows)? {
        Some(tree) => Ok(tree),
        None => Err(Fault::Want(Want::Store)),
    }
}

/// An element with the items as its content (XQuery 3.1, sections 3.9.1.3 and 3.9.3.1): atomic
/// values side by side become one text, joined by single spaces; nodes are copied, a document as
/// its children; texts side by side become one; empty texts are dropped.
///
/// Then its attributes are judged, in order: one after another node is refused as `XQTY0024`, one
/// with the name of an earlier one as `XQDY0025`. Then a node of a level over 100, where the
/// element has 0, is refused as `prof:LEVEL`, and then more than 1,000,000 nodes as `prof:NODES`.
///
/// The name is one that `name_of` answers. Where the tree would hold what no tree may,
/// `Want::Store` is answered. What is promised of the answer holds where the source is clean as
/// the call ends.
pub fn element<L: RowLender>(
    alloc: Global,
    source: &mut L,
    name: String,
    items: &[Item],
) -> Result<PackedTree, Fault>
    ensures gives { L.is_clean source.new → GivesUnlessWanting (λ tree. tree)
        (element_tree (string_bytes name) (L.forest source.old)
        (items_at (L.forest source.old) (map item_view items.now))) result }
    ensures keeps { L.forest source.new ≡ L.forest source.old }
    ensures was_clean { L.is_clean source.new → L.is_clean source.old }
{
    if let Some(value) = lone_string(items) {
        return around_text(alloc, name.as_str(), value);
    }
    if let Some(value) = lone_text(alloc, items)? {
        return around_text(alloc, name.as_str(), value.as_str());
    }
    let content = content(alloc, source, items)?;
    built(alloc, Kind::Element, name.as_str(), content)
}

/// A document with the items as its content (XQuery 3.1, sections 3.9.1.3 and 3.9.3.3), as for
/// [`element`]; an attribute in it is refused as `XPTY0004`.
pub fn document<L: RowLender>(
    alloc: Global,
    source: &mut L,
    items: &[Item],
) -> Result<PackedTree, Fault>
    ensures gives { L.is_clean source.new → GivesUnlessWanting (λ tree. tree)
        (document_tree (L.forest source.old)
        (items_at (L.forest source.old) (map item_view items.now))) result }
    ensures keeps { L.forest source.new ≡ L.forest source.old }
    ensures was_clean { L.is_clean source.new → L.is_clean source.old }
{
    let content = content(alloc, source, items)?;
    built(alloc, Kind::Document, "", content)
}
