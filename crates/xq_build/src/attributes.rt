//! What is judged of the attributes in the content of an element or a document: that each stands
//! before all other nodes, and has a name of its own.
ghost use Rattle.std.specs.Prelude.{◌≡◌, ◌∷◌, [], false, map, OnOk};
ghost use Rattle.xq_trees.specs.Levels.{flat};
ghost use Rattle.xq_meaning.specs.Content.{attribute_fault};
ghost use Rattle.xq_build.specs.private.Attributes.{fault_from, JudgedAs};
ghost use Rattle.xq_build.specs.private.AttributeJudging.{names_of, JudgesLeaf};

use indexmap::IndexSet;
use std::alloc::Global;
use xq_atoms::{Code, Fault};
use xq_packed::{PackedRow, PackedRows};
use xq_trees::Kind;

/// Judges an attribute, after others with these names, and perhaps after another node.
fn judge_attribute<'a>(
    parent: Kind,
    names: &mut IndexSet<&'a str>,
    late: bool,
    name: &'a str,
) -> Result<(), Fault>
    ensures judged { JudgedAs (attribute_fault parent (names_of names.old) late name.now) result }
    ensures names { OnOk result (names_of names.new ≡ name.now ∷ names_of names.old) }
{
    match parent {
        Kind::Document => return Err(Fault::Code(Code::XPTY0004)),
        _ => {}
    }
    if late {
        return Err(Fault::Code(Code::XQTY0024));
    }
    if !names.insert(name)? {
        return Err(Fault::Code(Code::XQDY0025));
    }
    Ok(())
}

/// Judges a node, where it is one at the top; tells whether a later attribute is too late.
fn judge_node<'a>(
    parent: Kind,
    names: &mut IndexSet<&'a str>,
    late: bool,
    row: &PackedRow<'a>,
) -> Result<bool, Fault>
    ensures { JudgesLeaf parent (names_of names.old) late (flat row.now.row)
        (names_of names.new) result }
{
    if row.level() > 0 {
        return Ok(late);
    }
    match row.kind() {
        Kind::Attribute => {
            judge_attribute(parent, names, late, row.name())?;
            Ok(late)
        }
        _ => Ok(true),
    }
}

/// Judges the attributes among the nodes at the top, in order.
pub fn judge_attributes(alloc: Global, parent: Kind, rows: &PackedRows) -> Result<(), Fault>
    ensures { JudgedAs (fault_from parent [] false (map flat rows.now.rows)) result }
{
    let mut names = IndexSet::new(alloc);
    let mut late = false;
    for at in 0..rows.len() {
        late = judge_node(parent, &mut names, late, &PackedRow::new(rows, at))?;
    }
    Ok(())
}
