//! Sizes of packed rows, told by their levels.
ghost use Rattle.std.specs.Prelude.{◌≡◌, map};
ghost use Rattle.xq_trees.specs.Levels.{flat, AreSized};

use crate::PackedRows;
use xq_trees::size_below;

/// Sets the sizes.
pub fn set_sizes(rows: &mut PackedRows)
    ensures sized { AreSized rows.new.rows }
    ensures same { map flat rows.new.rows ≡ map flat rows.old.rows }
{
    let mut at = rows.len();
    while at > 0 {
        at -= 1;
        let size = size_below(rows, at);
        rows.set_size(at, size as u32);
    }
}
