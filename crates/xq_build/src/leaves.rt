//! Constructors of nodes without nodes below them.
ghost use Rattle.std.specs.Prelude.{◌≡◌, string_bytes, Ok};
ghost use Rattle.xq_meaning.specs.Content.{attribute_tree, text_tree, comment_tree, instruction_tree, lone};
ghost use Rattle.xq_build.specs.Gives.{GivesTree};

use crate::values::without_leading_space;
use std::alloc::Global;
use xq_atoms::{Code, Fault, Want};
use xq_packed::{PackedRows, PackedTree};
use xq_trees::{Kind, ends_with_dash, holds_an_end, holds_two_dashes};

/// The tree of one node.
fn lone_node(alloc: Global, kind: Kind, name: &str, value: &str) -> Result<PackedTree, Fault>
    ensures { GivesTree (Ok (lone kind name.now value.now)) result }
{
    let mut rows = PackedRows::new(alloc);
    rows.push_parts(0, 0, kind, name, value)?;
    match PackedTree::from_levels(rows)? {
        Some(tree) => Ok(tree),
        None => Err(Fault::Want(Want::Store)),
    }
}

/// An attribute with the value (XQuery 3.1, section 3.9.3.2). The name is one that `name_of`
/// answers; where it or the value is such as no attribute may have, `Want::Store` is answered.
pub fn attribute(alloc: Global, name: String, value: String) -> Result<PackedTree, Fault>
    ensures { GivesTree (Ok (attribute_tree (string_bytes name) (string_bytes value))) result }
{
    lone_node(alloc, Kind::Attribute, name.as_str(), value.as_str())
}

/// A text with the value (XQuery 3.1, section 3.9.3.4). Where it holds what is no character of
/// XML, `Want::Store` is answered.
pub fn text(alloc: Global, value: String) -> Result<PackedTree, Fault>
    ensures { GivesTree (Ok (text_tree (string_bytes value))) result }
{
    lone_node(alloc, Kind::Text, "", value.as_str())
}

/// A comment with the value (XQuery 3.1, section 3.9.3.6), refused as `XQDY0072` where two dashes
/// stand side by side in it or the last character is one. Where it holds what is no character of
/// XML, `Want::Store` is answered.
pub fn comment(alloc: Global, value: String) -> Result<PackedTree, Fault>
    ensures { GivesTree (comment_tree (string_bytes value)) result }
{
    if holds_two_dashes(value.as_str()) || ends_with_dash(value.as_str()) {
        return Err(Fault::Code(Code::XQDY0072));
    }
    lone_node(alloc, Kind::Comment, "", value.as_str())
}

/// A processing instruction with the value, without white space in front (XQuery 3.1, section
/// 3.9.3.5), refused as `XQDY0026` where `?>` stands in it. The name is one that `name_of`
/// answers; where it or the value is such as no instruction may have, `Want::Store` is answered.
pub fn pi(alloc: Global, name: String, value: String) -> Result<PackedTree, Fault>
    ensures { GivesTree (instruction_tree (string_bytes name) (string_bytes value)) result }
{
    if holds_an_end(value.as_str()) {
        return Err(Fault::Code(Code::XQDY0026));
    }
    let value = without_leading_space(alloc, value.as_str())?;
    lone_node(
        alloc,
        Kind::ProcessingInstruction,
        name.as_str(),
        value.as_str(),
    )
}
