//! What is judged of the content of an element or a document, and the tree that it becomes.
ghost use Rattle.std.specs.Prelude.{◌≡◌, [], map};
ghost use Rattle.xq_trees.specs.Forest.{Forest};
ghost use Rattle.xq_trees.specs.Tree.{Label};
ghost use Rattle.xq_trees.specs.Levels.{flat};
ghost use Rattle.xq_meaning.specs.Content.{built as built_lem, label};
ghost use Rattle.xq_build.specs.private.Leaves.{leaf};
ghost use Rattle.xq_atoms.specs.Answers.{GivesUnlessWanting};
ghost use Rattle.xq_build.specs.private.Content.{are_low as are_low_lem};
ghost use Rattle.xq_build.specs.private.Surplus.{StandsFor};

use crate::attributes::judge_attributes;
use std::alloc::Global;
use xq_atoms::{Code, Fault, Want};
use xq_packed::{PackedRow, PackedRows, PackedTree};
use xq_sources::LentRows;
use xq_trees::{Kind, MAX_LEVEL, MAX_NODES};

/// Whether no level is over that of the children of the lowest nodes but one.
fn are_low(rows: &PackedRows) -> bool
    ensures { result ≡ are_low_lem (map flat rows.now.rows) }
{
    for at in 0..rows.len() {
        let row = PackedRow::new(rows, at);
        if row.level() >= MAX_LEVEL {
            return false;
        }
    }
    true
}

/// Whether no level of rows that are lent is over that of the children of the lowest nodes but
/// one.
pub fn are_low_lent(rows: &LentRows<'_>) -> bool
    ensures { result ≡ are_low_lem (map leaf rows.now) }
{
    for at in 0..rows.len() {
        if rows.row(at).level >= MAX_LEVEL {
            return false;
        }
    }
    true
}

/// The tree of a root with the content below it, where that may stand there. Content of too many
/// nodes may be such as is judged alike.
pub fn built(
    alloc: Global,
    kind: Kind,
    name: &str,
    mut content: PackedRows,
) -> Result<PackedTree, Fault>
    ensures { (f : Forest Label) → StandsFor (map flat content.rows) f
        → GivesUnlessWanting (λ tree. tree) (built_lem (label kind name.now []) f) result }
{
    judge_attributes(alloc, kind, &content)?;
    if !are_low(&content) {
        return Err(Fault::Code(Code::ProfLevel));
    }
    if content.len() >= MAX_NODES {
        return Err(Fault::Code(Code::ProfNodes));
    }
    content.put_root(0, kind, name)?;
    match PackedTree::from_levels(content)? {
        Some(tree) => Ok(tree),
        None => Err(Fault::Want(Want::Store)),
    }
}
