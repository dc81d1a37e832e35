//! The self axis.
ghost use Rattle.std.specs.Prelude.{◌≡◌, ◌+◌, ◌≤◌, length, IfOk};
ghost use Rattle.xq_trees.specs.Forest.{count};
ghost use Rattle.xq_trees.specs.Tree.{nodes};
ghost use Rattle.xq_trees.specs.declared.Axis.TheVariants as axes;
ghost use Rattle.xq_sources.specs.Sources.{tree_at};
ghost use Rattle.xq_axes.specs.private.Hits.{is_wanted, below_where, IsRising};

use crate::picks::push_if;
use crate::tests::passes;
use std::alloc::Global;
use xq_atoms::Want;
use xq_meaning::Test;
use xq_sources::RowLender;

/// Those of the places, which rise, whose nodes pass the test.
pub fn search_selves<L: RowLender>(
    alloc: Global,
    source: &mut L,
    tree: usize,
    places: &[u32],
    test: &Test,
) -> Result<Vec<u32>, Want>
    ensures found { L.is_clean source.new
        → let t = tree_at (L.forest source.old) tree in
        IsRising places.now → IfOk result (λ found. found.items
        ≡ below_where (is_wanted axes.SelfNode test.now t places.now) (count (nodes t))) }
    ensures rows { (L.meter source.new).rows ≡ (L.meter source.old).rows }
    ensures singles { (L.meter source.new).singles
        ≤ (L.meter source.old).singles + length places.now }
    ensures looks { (L.meter source.new).looks ≡ (L.meter source.old).looks }
    ensures keeps { L.forest source.new ≡ L.forest source.old }
    ensures was_clean { L.is_clean source.new → L.is_clean source.old }
{
    let mut found = Vec::new(alloc);
    for place in places {
        source.fetch_row(alloc, tree, *place)?;
        let Some(row) = source.lent().get(0) else {
            return Err(Want::Store);
        };
        push_if(&mut found, passes(test, &row), *place)?;
    }
    Ok(found)
}
