//! Copies of nodes as content.
ghost use Rattle.std.specs.Prelude.{◌≡◌, ◌++◌, map, OnOk};
ghost use Rattle.xq_trees.specs.Levels.{flat};
ghost use Rattle.xq_meaning.specs.Items.{tree_below};
ghost use Rattle.xq_meaning.specs.Readings.{node_at};
ghost use Rattle.xq_meaning.specs.Content.{copied};
ghost use Rattle.xq_build.specs.private.Leaves.{leaves};
ghost use Rattle.xq_build.specs.private.Content.{Childless};

use crate::node_copies::{append_below, append_whole, shape_of_node};
use std::alloc::Global;
use xq_atoms::Want;
use xq_packed::PackedRows;
use xq_sources::RowLender;
use xq_trees::{Kind, Node};

/// Adds copies of the node and of all that is below it; of a document, of what is below it alone
/// (XQuery 3.1, section 3.9.1.3).
pub fn append_content<L: RowLender>(
    alloc: Global,
    source: &mut L,
    copies: &mut PackedRows,
    node: Node,
) -> Result<(), Want>
    ensures copied { L.is_clean source.new
        → OnOk result (map flat copies.new.rows ≡ map flat copies.old.rows
        ++ leaves (copied (tree_below (L.forest source.old)
        (node_at (L.forest source.old) node)))) }
    ensures childless { L.is_clean source.new → OnOk result
        (Childless (copied (tree_below (L.forest source.old)
        (node_at (L.forest source.old) node)))) }
    ensures keeps { L.forest source.new ≡ L.forest source.old }
    ensures was_clean { L.is_clean source.new → L.is_clean source.old }
{
    let shape = shape_of_node(alloc, source, node)?;
    match shape.kind {
        Kind::Document => {
            let Some(base) = shape.level.checked_add(1) else {
                return Err(Want::Store);
            };
            append_below(alloc, source, copies, node, shape.size, base)?;
        }
        _ => append_whole(alloc, source, copies, node, shape)?,
    }
    Ok(())
}
