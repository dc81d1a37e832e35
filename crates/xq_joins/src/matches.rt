//! What matches at each tuple of a join.
ghost use Rattle.std.specs.Prelude.{◌≡◌, ◌++◌, List, ◌+◌, map, length, true, IfOk, IfSome};
ghost use Rattle.std.specs.List.{AllByRecursion};
ghost use Rattle.xq_trees.specs.Items.{Place, item_view, item_views};
ghost use Rattle.xq_trees.specs.declared.items.Node.{Node as NodeLem};
ghost use Rattle.xq_trees.specs.Rising.{AreRising};
ghost use Rattle.xq_trees.specs.Tuples.{value_at};
ghost use Rattle.xq_tuples.specs.Views.{values_of};
ghost use Rattle.xq_meaning.specs.declared.joins.JoinKey.{JoinKey as JoinKeyLem};
ghost use Rattle.xq_meaning.specs.Readings.{AreIn};
ghost use Rattle.xq_operators.specs.Views.{lists_of, TupleIn, TuplesIn};
ghost use Rattle.xq_joins.specs.Joins.{Matches};
ghost use Rattle.xq_joins.specs.private.JoinKeys.{AreSides, IsTold};
ghost use Rattle.xq_joins.specs.private.Tables.{IsTable, matched};

use crate::join_keys::join_key_texts;
use crate::keys::{Table, gathered, table_of};
use crate::values::{are_nodes, as_items, nodes_among, value};
use std::alloc::Global;
use xq_atoms::Want;
use xq_meaning::{Equality, Join, JoinKey};
use xq_sources::RowLender;
use xq_trees::{Item, Items, merge, rises};
use xq_tuples::{SlotValue, Tuples};

/// The keys of a join: that of the item, in the last slot, and that of the tuple.
#[derive(Clone, Copy)]
pub struct Sides<'a> {
    pub item: &'a JoinKey,
    pub tuple: &'a JoinKey,
}

/// The keys of a join, where the slot of one is the next one, and that of the other comes before.
fn sides_of(join: &Join, next: usize) -> Option<Sides<'_>>
    ensures sides { IfSome result (λ sides. AreSides join.now sides.item.now sides.tuple.now) }
    ensures next { IfSome result (λ sides. sides.item.now.slot ≡ next) }
{
    let left = &join.left;
    let right = &join.right;
    if left.slot == next && right.slot < next {
        return Some(Sides {
            item: left,
            tuple: right,
        });
    }
    if right.slot == next && left.slot < next {
        return Some(Sides {
            item: right,
            tuple: left,
        });
    }
    None
}

/// Whether each tuple has so many slots.
fn all_have(tuples: &Tuples, count: usize) -> bool
    ensures { result ≡ true → AllByRecursion (λ t. length t ≡ count) tuples.now }
{
    for index in 0..tuples.len() {
        if tuples.tuple(index).len() != count {
            return false;
        }
    }
    true
}

/// The keys of a join at tuples, where the slot of one is the next one at each tuple. None where
/// there is no tuple.
fn sides_at<'a>(join: &'a Join, outside: &[SlotValue], tuples: &Tuples) -> Option<Sides<'a>>
    ensures sides { IfSome result (λ sides. AreSides join.now sides.item.now sides.tuple.now) }
    ensures next { IfSome result (λ sides. AllByRecursion (λ t.
        length (values_of outside.now ++ t) ≡ sides.item.now.slot) tuples.now) }
{
    if tuples.len() == 0 {
        return None;
    }
    let count = tuples.tuple(0).len();
    if !all_have(tuples, count) {
        return None;
    }
    sides_of(join, outside.len() + count)
}

/// The nodes of the table that share a key with the tuple, in document order. None where the tuple's
/// key is no text, or may be refused.
fn matching_at<L: RowLender>(
    alloc: Global,
    source: &mut L,
    equality: Equality,
    key: &JoinKey,
    table: &Table,
    start: &[Item],
) -> Result<Option<Items>, Want>
    ensures items { L.is_clean source.new → AreIn (L.forest source.old) (map item_view start.now)
        → (item : JoinKeyLem) (nodes : List NodeLem) → AreRising nodes
        → IsTable equality (L.forest source.old) item nodes table.now
        → IfOk result (λ found. IfSome found (λ items. item_views items
        ≡ matched (L.forest source.old) item key.now (map item_view start.now)
        (map Place nodes))) }
    ensures told { L.is_clean source.new → AreIn (L.forest source.old) (map item_view start.now)
        → IfOk result (λ found. IfSome found (λ _. IsTold equality (L.forest source.old) key.now
        (map item_view start.now))) }
    ensures keeps { L.forest source.new ≡ L.forest source.old }
    ensures was_clean { L.is_clean source.new → L.is_clean source.old }
{
    let Some(texts) = join_key_texts(alloc, source, equality, key, start)? else {
        return Ok(None);
    };
    let nodes = merge(gathered(alloc, table, &texts)?);
    Ok(Some(as_items(alloc, &nodes)?))
}

/// For each tuple those items whose key shares a text with the tuple's key, in their order. None
/// where they aren't nodes in document order, each once, or where a key is no text or may be
/// refused: nothing was judged then.
///
/// Each key is read once, and the nodes of a text are found in a table, so that the time grows with
/// the items, the tuples and what is found, and not with the pairs of both.
pub fn matching<L: RowLender>(
    alloc: Global,
    source: &mut L,
    join: &Join,
    outside: &[SlotValue],
    tuples: &Tuples,
    items: &[Item],
) -> Result<Option<Vec<Items>>, Want>
    ensures lists { L.is_clean source.new
        → TupleIn (L.forest source.old) (values_of outside.now)
        → TuplesIn (L.forest source.old) tuples.now
        → AreIn (L.forest source.old) (map item_view items.now)
        → IfOk result (λ found. IfSome found (λ lists. Matches (L.forest source.old) join.now
        (values_of outside.now) tuples.now (map item_view items.now) (lists_of lists))) }
    ensures long { IfOk result (λ found. IfSome found (λ lists.
        length lists.items ≡ length tuples.now)) }
    ensures keeps { L.forest source.new ≡ L.forest source.old }
    ensures was_clean { L.is_clean source.new → L.is_clean source.old }
{
    let Some(sides) = sides_at(join, outside, tuples) else {
        return Ok(None);
    };
    let nodes = nodes_among(alloc, items)?;
    if !are_nodes(items) || !rises(&nodes) {
        return Ok(None);
    }
    let Some(table) = table_of(alloc, source, join.equality, sides.item, &nodes)? else {
        return Ok(None);
    };
    matching_lists(
        alloc,
        source,
        join.equality,
        sides.tuple,
        &table,
        outside,
        tuples,
    )
}

/// [`matching_at`] of each tuple.
fn matching_lists<L: RowLender>(
    alloc: Global,
    source: &mut L,
    equality: Equality,
    key: &JoinKey,
    table: &Table,
    outside: &[SlotValue],
    tuples: &Tuples,
) -> Result<Option<Vec<Items>>, Want>
    ensures lists { L.is_clean source.new
        → TupleIn (L.forest source.old) (values_of outside.now)
        → TuplesIn (L.forest source.old) tuples.now
        → (item : JoinKeyLem) (nodes : List NodeLem) → AreRising nodes
        → IsTable equality (L.forest source.old) item nodes table.now
        → IfOk result (λ found. IfSome found (λ lists. lists_of lists
        ≡ map (λ t. matched (L.forest source.old) item key.now
        (value_at key.now.slot (values_of outside.now ++ t)) (map Place nodes)) tuples.now)) }
    ensures told { L.is_clean source.new
        → TupleIn (L.forest source.old) (values_of outside.now)
        → TuplesIn (L.forest source.old) tuples.now
        → IfOk result (λ found. IfSome found (λ _. AllByRecursion (λ t.
        IsTold equality (L.forest source.old) key.now
        (value_at key.now.slot (values_of outside.now ++ t))) tuples.now)) }
    ensures long { IfOk result (λ found. IfSome found (λ lists.
        length lists.items ≡ length tuples.now)) }
    ensures keeps { L.forest source.new ≡ L.forest source.old }
    ensures was_clean { L.is_clean source.new → L.is_clean source.old }
{
    let mut lists = Vec::with_capacity(alloc, tuples.len())?;
    for index in 0..tuples.len() {
        let start = value(outside, tuples.tuple(index), key.slot);
        let Some(found) = matching_at(alloc, source, equality, key, table, start)? else {
            return Ok(None);
        };
        lists.push(found)?;
    }
    Ok(Some(lists))
}
