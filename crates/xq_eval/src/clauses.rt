//! The clauses of a FLWOR expression, each for all tuples before the next (XQuery 3.1, section
//! 3.12).
ghost use Rattle.std.specs.Prelude.{◌≡◌, ◌<◌, [], ◌∷◌, ◌++◌, map, drop, length, IfOk, IfErr};
ghost use Rattle.std.proofs.Common.{suc};
ghost use Rattle.xq_trees.specs.Items.{ItemView, Value as AtomView, item_view, item_views};
ghost use Rattle.xq_trees.specs.Tuples.{Tuple, expanded};
ghost use Rattle.xq_tuples.specs.Keys.{row_of};
ghost use Rattle.xq_tuples.specs.Views.{values_of};
ghost use Rattle.xq_meaning.specs.Doing.{in_turn, one_more, more, for_each, collected};
ghost use Rattle.xq_meaning.specs.Forms as Forms;
ghost use Rattle.xq_meaning.specs.Readings.{items_at, AreIn};
ghost use Rattle.xq_meaning.specs.PlanMeaning.{plan_mean, plan_clause_mean, at_tuple as meant_at, at_carried, join_tuples as join_tuples_lem, next_clause};
ghost use Rattle.xq_eval.specs.private.Keys.{keys_at};
ghost use Rattle.xq_operators.specs.Views.{tuple_at, tuples_at, lists_of, order_specs, frame_at, FrameIn, TupleIn, TuplesIn, Goes, GivesSequence, GivesTuples};
ghost use Rattle.xq_eval.specs.private.Results.{GivesLists, GivesTests, GivesKey, GivesKeys};

use crate::evaluation::{evaluate, next_part, tested};
use crate::groups::group_lists;
use crate::pairs::{carried_slots, is_steady, keep_equal, with_equal};
use std::alloc::Global;
use xq_atoms::{Fault, Want};
use xq_expressions::{AllowingEmpty, OrderModifier};
use xq_joins::atom_of;
use xq_meaning::{Join, Plan, PlanClause};
use xq_operators::{EvalContext, group, into_atoms, order_by_keys, rebind, refill};
use xq_sources::TreeStore;
use xq_trees::{Item, Items};
use xq_tuples::{Key, SlotValue, Tuples};

/// The tuples after all clauses.
#[cycle(eval)]
pub fn clause_list<W: TreeStore>(
    alloc: Global,
    world: &mut W,
    frame: EvalContext<'_>,
    clauses: &[PlanClause],
) -> Result<Tuples, Fault>
    ensures goes { Goes (W.forest world.old) (W.forest world.new) (W.is_clean world.old)
        (W.is_clean world.new) }
    ensures gives { W.is_clean world.new → FrameIn (W.forest world.old) frame.entry
        → GivesTuples (in_turn (next_clause (frame_at (W.forest world.old) frame.entry)) ([] ∷ [])
        (map plan_clause_mean clauses.now) (W.forest world.old)) (W.forest world.new) result }
{
    let mut tuples = Tuples::one(alloc)?;
    for clause in clauses {
        tuples = next_tuples(alloc, world, frame, tuples, clause)?;
    }
    Ok(tuples)
}

/// The tuples after one clause more.
#[cycle(eval)]
fn next_tuples<W: TreeStore>(
    alloc: Global,
    world: &mut W,
    frame: EvalContext<'_>,
    tuples: Tuples,
    clause: &PlanClause,
) -> Result<Tuples, Fault>
    ensures goes { Goes (W.forest world.old) (W.forest world.new) (W.is_clean world.old)
        (W.is_clean world.new) }
    ensures gives { W.is_clean world.new → FrameIn (W.forest world.old) frame.entry
        → TuplesIn (W.forest world.old) tuples
        → GivesTuples (plan_clause_mean clause.now (frame_at (W.forest world.old) frame.entry)
        (tuples_at (W.forest world.old) tuples) (W.forest world.old)) (W.forest world.new) result }
{
    match clause {
        PlanClause::For(empties, at, part) => {
            let lists = values(alloc, world, frame, &tuples, part)?;
            Ok(expand(tuples, lists, *empties, *at)?)
        }
        PlanClause::Join(range, join) => join_tuples(alloc, world, frame, tuples, range, join),
        PlanClause::GroupJoin(range, join) => {
            let lists = group_lists(alloc, world, frame, &tuples, range, join)?;
            Ok(tuples.bind(lists)?)
        }
        PlanClause::Let(part) => {
            let lists = values(alloc, world, frame, &tuples, part)?;
            Ok(tuples.bind(lists)?)
        }
        PlanClause::Where(part) => {
            let tests = tests(alloc, world, frame, &tuples, part)?;
            Ok(tuples.keep(&tests))
        }
        PlanClause::Group(slots) => group(alloc, world, tuples, slots.as_slice()),
        PlanClause::Order(specs) => {
            let specs = specs.as_slice();
            let keys = all_keys(alloc, world, frame, &tuples, specs)?;
            order_by_keys(alloc, tuples, specs, keys)
        }
        PlanClause::Count => Ok(tuples.number()?),
        PlanClause::Refused(code) => Err(Fault::Code(*code)),
    }
}

/// The tuples after a join. The range is evaluated once where it reads the same at each tuple, and
/// makes no tree.
#[cycle(eval)]
fn join_tuples<W: TreeStore>(
    alloc: Global,
    world: &mut W,
    frame: EvalContext<'_>,
    tuples: Tuples,
    range: &Plan,
    join: &Join,
) -> Result<Tuples, Fault>
    ensures goes { Goes (W.forest world.old) (W.forest world.new) (W.is_clean world.old)
        (W.is_clean world.new) }
    ensures gives { W.is_clean world.new → FrameIn (W.forest world.old) frame.entry
        → TuplesIn (W.forest world.old) tuples
        → GivesTuples (join_tuples_lem (plan_mean range.now) join.now
        (frame_at (W.forest world.old) frame.entry) (tuples_at (W.forest world.old) tuples)
        (W.forest world.old)) (W.forest world.new) result }
{
    if tuples.len() == 0 {
        return Ok(tuples);
    }
    let trees = world.trees();
    let slots = carried_slots(alloc, join, frame.slots, tuples.tuple(0))?;
    let items = at_tuple(alloc, world, frame, &slots, range)?;
    if world.trees() == trees && is_steady(join, frame.slots, &tuples) {
        return with_equal(alloc, world, frame, join, tuples, items);
    }
    let lists = later_ranges(alloc, world, frame, &tuples, range, join, items)?;
    let pairs = tuples.expand(lists, false)?;
    keep_equal(alloc, world, frame, join, pairs)
}

/// What the range of a join gives at each tuple, where this is what it gives at the first.
#[cycle(eval)]
fn later_ranges<W: TreeStore>(
    alloc: Global,
    world: &mut W,
    frame: EvalContext<'_>,
    tuples: &Tuples,
    range: &Plan,
    join: &Join,
    first: Items,
) -> Result<Vec<Items>, Fault>
    requires { 0 < length tuples.now }
    ensures goes { Goes (W.forest world.old) (W.forest world.new) (W.is_clean world.old)
        (W.is_clean world.new) }
    ensures gives { W.is_clean world.new → FrameIn (W.forest world.old) frame.entry
        → TuplesIn (W.forest world.old) tuples.now → AreIn (W.forest world.old) (item_views first)
        → GivesLists (in_turn (one_more (λ t. plan_mean range.now (at_carried join.now
        (frame_at (W.forest world.old) frame.entry) t)))
        (items_at (W.forest world.old) (item_views first) ∷ [])
        (drop 1 (tuples_at (W.forest world.old) tuples.now)) (W.forest world.old))
        (W.forest world.new) result }
    ensures long { IfOk result (λ lists. length lists.items ≡ length tuples.now) }
{
    let mut lists = Vec::with_capacity(alloc, tuples.len())?;
    lists.push(first)?;
    for index in 1..tuples.len() {
        let slots = carried_slots(alloc, join, frame.slots, tuples.tuple(index))?;
        lists = next_value(alloc, world, frame, lists, &slots, range)?;
    }
    Ok(lists)
}

/// Each tuple once for each item of its list; where empty lists are allowed, never none.
fn expand(
    tuples: Tuples,
    lists: Vec<Items>,
    empties: AllowingEmpty,
    at: bool,
) -> Result<Tuples, Want>
    requires { length lists.items ≡ length tuples }
    ensures stream { IfOk result (λ stream. stream
        ≡ expanded AtomView (Forms.allows empties) at tuples (map item_views lists.items)) }
    ensures want { IfErr result (λ want. want ≡ Want.Memory) }
{
    match empties {
        AllowingEmpty::No => tuples.expand(lists, at),
        AllowingEmpty::Yes => tuples.expand_empty(lists, at),
    }
}

/// The value of a part at each tuple.
#[cycle(eval)]
fn values<W: TreeStore>(
    alloc: Global,
    world: &mut W,
    frame: EvalContext<'_>,
    tuples: &Tuples,
    part: &Plan,
) -> Result<Vec<Items>, Fault>
    ensures goes { Goes (W.forest world.old) (W.forest world.new) (W.is_clean world.old)
        (W.is_clean world.new) }
    ensures gives { W.is_clean world.new → FrameIn (W.forest world.old) frame.entry
        → TuplesIn (W.forest world.old) tuples.now
        → GivesLists (for_each (λ t. plan_mean part.now (meant_at (frame_at (W.forest world.old)
        frame.entry) t)) (tuples_at (W.forest world.old) tuples.now) (W.forest world.old))
        (W.forest world.new) result }
    ensures long { IfOk result (λ lists. length lists.items ≡ length tuples.now) }
{
    let outer = frame.slots.len();
    let mut slots = frame.slots.to_vec(alloc)?;
    let mut lists = Vec::new(alloc);
    for index in 0..tuples.len() {
        refill(&mut slots, outer, tuples.tuple(index))?;
        lists = next_value(alloc, world, frame, lists, &slots, part)?;
    }
    Ok(lists)
}

/// The values so far, and that of a part at one tuple more, whose slots stand after those of the
/// frame.
#[cycle(eval)]
fn next_value<W: TreeStore>(
    alloc: Global,
    world: &mut W,
    frame: EvalContext<'_>,
    done: Vec<Items>,
    slots: &[SlotValue],
    part: &Plan,
) -> Result<Vec<Items>, Fault>
    ensures goes { Goes (W.forest world.old) (W.forest world.new) (W.is_clean world.old)
        (W.is_clean world.new) }
    ensures gives { W.is_clean world.new → FrameIn (W.forest world.old) frame.entry
        → TupleIn (W.forest world.old) (lists_of done)
        → (tuple : Tuple ItemView)
        → values_of slots.now ≡ values_of frame.entry.slots.now ++ tuple
        → TupleIn (W.forest world.old) tuple
        → GivesLists (one_more (λ t. plan_mean part.now (meant_at (frame_at (W.forest world.old)
        frame.entry) t)) (tuple_at (W.forest world.old) (lists_of done)) (tuple_at
        (W.forest world.old) tuple) (W.forest world.old)) (W.forest world.new)
        result }
    ensures long { IfOk result (λ lists. length lists.items ≡ suc (length done.items)) }
{
    let mut lists = done;
    let list = at_tuple(alloc, world, frame, slots, part)?;
    lists.push(list)?;
    Ok(lists)
}

/// The values of a part at all tuples, one after another.
#[cycle(eval)]
pub fn returned<W: TreeStore>(
    alloc: Global,
    world: &mut W,
    frame: EvalContext<'_>,
    tuples: &Tuples,
    part: &Plan,
) -> Result<Items, Fault>
    ensures goes { Goes (W.forest world.old) (W.forest world.new) (W.is_clean world.old)
        (W.is_clean world.new) }
    ensures gives { W.is_clean world.new → FrameIn (W.forest world.old) frame.entry
        → TuplesIn (W.forest world.old) tuples.now
        → GivesSequence (Forms.return_of (plan_mean part.now) (meant_at (frame_at
        (W.forest world.old) frame.entry)) (tuples_at (W.forest world.old) tuples.now)
        (W.forest world.old)) (W.forest world.new) result }
{
    let outer = frame.slots.len();
    let mut slots = frame.slots.to_vec(alloc)?;
    let mut items = Vec::new(alloc);
    for index in 0..tuples.len() {
        refill(&mut slots, outer, tuples.tuple(index))?;
        items = next_returned(alloc, world, frame, items, &slots, part)?;
    }
    Ok(items)
}

/// The values of a part at each item of a list, which one slot more holds, one after another.
#[cycle(eval)]
pub fn returned_each<W: TreeStore>(
    alloc: Global,
    world: &mut W,
    frame: EvalContext<'_>,
    items: &[Item],
    part: &Plan,
) -> Result<Items, Fault>
    ensures goes { Goes (W.forest world.old) (W.forest world.new) (W.is_clean world.old)
        (W.is_clean world.new) }
    ensures gives { W.is_clean world.new → FrameIn (W.forest world.old) frame.entry
        → AreIn (W.forest world.old) (map item_view items.now)
        → GivesSequence (collected (λ x. plan_mean part.now (meant_at (frame_at
        (W.forest world.old) frame.entry) ((x ∷ []) ∷ []))) (items_at (W.forest world.old)
        (map item_view items.now)) (W.forest world.old)) (W.forest world.new) result }
{
    let outer = frame.slots.len();
    let mut slots = frame.slots.to_vec(alloc)?;
    let mut found = Vec::new(alloc);
    for item in items {
        rebind(alloc, &mut slots, outer, item)?;
        found = next_returned(alloc, world, frame, found, &slots, part)?;
    }
    Ok(found)
}

/// The items so far, and those of a part at one tuple more, whose slots stand after those of the
/// frame.
#[cycle(eval)]
fn next_returned<W: TreeStore>(
    alloc: Global,
    world: &mut W,
    frame: EvalContext<'_>,
    done: Items,
    slots: &[SlotValue],
    part: &Plan,
) -> Result<Items, Fault>
    ensures goes { Goes (W.forest world.old) (W.forest world.new) (W.is_clean world.old)
        (W.is_clean world.new) }
    ensures gives { W.is_clean world.new → FrameIn (W.forest world.old) frame.entry
        → AreIn (W.forest world.old) (item_views done)
        → (tuple : Tuple ItemView)
        → values_of slots.now ≡ values_of frame.entry.slots.now ++ tuple
        → TupleIn (W.forest world.old) tuple
        → GivesSequence (more (λ t. plan_mean part.now (meant_at (frame_at (W.forest world.old)
        frame.entry) t)) (items_at (W.forest world.old) (item_views done)) (tuple_at
        (W.forest world.old) tuple) (W.forest world.old)) (W.forest world.new) result }
{
    let inner = EvalContext {
        slots,
        focus: frame.focus,
        addresses: frame.addresses,
    };
    next_part(alloc, world, inner, done, part)
}

/// Whether a part holds, at each tuple.
#[cycle(eval)]
fn tests<W: TreeStore>(
    alloc: Global,
    world: &mut W,
    frame: EvalContext<'_>,
    tuples: &Tuples,
    part: &Plan,
) -> Result<Vec<bool>, Fault>
    ensures goes { Goes (W.forest world.old) (W.forest world.new) (W.is_clean world.old)
        (W.is_clean world.new) }
    ensures gives { W.is_clean world.new → FrameIn (W.forest world.old) frame.entry
        → TuplesIn (W.forest world.old) tuples.now
        → GivesTests (for_each (λ t. Forms.tested (plan_mean part.now) (meant_at (frame_at
        (W.forest world.old) frame.entry) t)) (tuples_at (W.forest world.old) tuples.now)
        (W.forest world.old)) (W.forest world.new) result }
    ensures long { IfOk result (λ tests. length tests.items ≡ length tuples.now) }
{
    let outer = frame.slots.len();
    let mut slots = frame.slots.to_vec(alloc)?;
    let mut tests = Vec::new(alloc);
    for index in 0..tuples.len() {
        refill(&mut slots, outer, tuples.tuple(index))?;
        tests = next_test(alloc, world, frame, tests, &slots, part)?;
    }
    Ok(tests)
}

/// The answers so far, and whether a part holds at one tuple more, whose slots stand after those of
/// the frame.
#[cycle(eval)]
fn next_test<W: TreeStore>(
    alloc: Global,
    world: &mut W,
    frame: EvalContext<'_>,
    done: Vec<bool>,
    slots: &[SlotValue],
    part: &Plan,
) -> Result<Vec<bool>, Fault>
    ensures goes { Goes (W.forest world.old) (W.forest world.new) (W.is_clean world.old)
        (W.is_clean world.new) }
    ensures gives { W.is_clean world.new → FrameIn (W.forest world.old) frame.entry
        → (tuple : Tuple ItemView)
        → values_of slots.now ≡ values_of frame.entry.slots.now ++ tuple
        → TupleIn (W.forest world.old) tuple
        → GivesTests (one_more (λ t. Forms.tested (plan_mean part.now) (meant_at (frame_at
        (W.forest world.old) frame.entry) t)) done.items (tuple_at (W.forest world.old) tuple) (W.forest world.old)) (W.forest world.new) result }
    ensures long { IfOk result (λ tests. length tests.items ≡ suc (length done.items)) }
{
    let mut tests = done;
    let inner = EvalContext {
        slots,
        focus: frame.focus,
        addresses: frame.addresses,
    };
    let holds = tested(alloc, world, inner, part)?;
    tests.push(holds)?;
    Ok(tests)
}

/// The value of a part at one tuple, whose slots stand after those of the frame.
#[cycle(eval)]
pub fn at_tuple<W: TreeStore>(
    alloc: Global,
    world: &mut W,
    frame: EvalContext<'_>,
    slots: &[SlotValue],
    part: &Plan,
) -> Result<Items, Fault>
    ensures goes { Goes (W.forest world.old) (W.forest world.new) (W.is_clean world.old)
        (W.is_clean world.new) }
    ensures gives { W.is_clean world.new → FrameIn (W.forest world.old) frame.entry
        → (tuple : Tuple ItemView)
        → values_of slots.now ≡ values_of frame.entry.slots.now ++ tuple
        → TupleIn (W.forest world.old) tuple
        → GivesSequence (plan_mean part.now (meant_at (frame_at (W.forest world.old) frame.entry)
        (tuple_at (W.forest world.old) tuple)) (W.forest world.old))
        (W.forest world.new) result }
{
    let inner = EvalContext {
        slots,
        focus: frame.focus,
        addresses: frame.addresses,
    };
    evaluate(alloc, world, inner, part)
}

/// The keys of all tuples, one tuple after another.
#[cycle(eval)]
fn all_keys<W: TreeStore>(
    alloc: Global,
    world: &mut W,
    frame: EvalContext<'_>,
    tuples: &Tuples,
    specs: &[(Plan, OrderModifier)],
) -> Result<Vec<Key>, Fault>
    ensures goes { Goes (W.forest world.old) (W.forest world.new) (W.is_clean world.old)
        (W.is_clean world.new) }
    ensures gives { W.is_clean world.new → FrameIn (W.forest world.old) frame.entry
        → TuplesIn (W.forest world.old) tuples.now
        → GivesKeys (collected (λ t. keys_at (order_specs specs.now) (meant_at (frame_at
        (W.forest world.old) frame.entry) t)) (tuples_at (W.forest world.old) tuples.now)
        (W.forest world.old)) (W.forest world.new) result }
{
    let outer = frame.slots.len();
    let mut slots = frame.slots.to_vec(alloc)?;
    let mut done = Vec::with_capacity(alloc, tuples.len().saturating_mul(specs.len()))?;
    for index in 0..tuples.len() {
        refill(&mut slots, outer, tuples.tuple(index))?;
        done = next_keys(alloc, world, frame, done, &slots, specs)?;
    }
    Ok(done)
}

/// The keys so far, and those of one tuple more, whose slots stand after those of the frame.
#[cycle(eval)]
fn next_keys<W: TreeStore>(
    alloc: Global,
    world: &mut W,
    frame: EvalContext<'_>,
    done: Vec<Key>,
    slots: &[SlotValue],
    specs: &[(Plan, OrderModifier)],
) -> Result<Vec<Key>, Fault>
    ensures goes { Goes (W.forest world.old) (W.forest world.new) (W.is_clean world.old)
        (W.is_clean world.new) }
    ensures gives { W.is_clean world.new → FrameIn (W.forest world.old) frame.entry
        → (tuple : Tuple ItemView)
        → values_of slots.now ≡ values_of frame.entry.slots.now ++ tuple
        → TupleIn (W.forest world.old) tuple
        → GivesKeys (more (λ t. keys_at (order_specs specs.now) (meant_at (frame_at
        (W.forest world.old) frame.entry) t)) (row_of done) (tuple_at (W.forest world.old)
        tuple) (W.forest world.old)) (W.forest world.new) result }
{
    let inner = EvalContext {
        slots,
        focus: frame.focus,
        addresses: frame.addresses,
    };
    keys(alloc, world, inner, done, specs)
}

/// The keys so far, and those of one tuple more, in its frame.
#[cycle(eval)]
fn keys<W: TreeStore>(
    alloc: Global,
    world: &mut W,
    frame: EvalContext<'_>,
    done: Vec<Key>,
    specs: &[(Plan, OrderModifier)],
) -> Result<Vec<Key>, Fault>
    ensures goes { Goes (W.forest world.old) (W.forest world.new) (W.is_clean world.old)
        (W.is_clean world.new) }
    ensures gives { W.is_clean world.new → FrameIn (W.forest world.old) frame.entry
        → GivesKeys (more (keys_at (order_specs specs.now)) (row_of done) (frame_at
        (W.forest world.old) frame.entry) (W.forest world.old)) (W.forest world.new) result }
{
    let mut keys = done;
    for (part, _modifier) in specs {
        keys = next_key(alloc, world, frame, keys, part)?;
    }
    Ok(keys)
}

/// The keys so far, and one more.
#[cycle(eval)]
fn next_key<W: TreeStore>(
    alloc: Global,
    world: &mut W,
    frame: EvalContext<'_>,
    done: Vec<Key>,
    part: &Plan,
) -> Result<Vec<Key>, Fault>
    ensures goes { Goes (W.forest world.old) (W.forest world.new) (W.is_clean world.old)
        (W.is_clean world.new) }
    ensures gives { W.is_clean world.new → FrameIn (W.forest world.old) frame.entry
        → GivesKeys (one_more (λ part. Forms.atoms_of part (frame_at (W.forest world.old)
        frame.entry)) (row_of done) (plan_mean part.now) (W.forest world.old))
        (W.forest world.new) result }
{
    let mut keys = done;
    let key = key_of(alloc, world, frame, part)?;
    keys.push(key)?;
    Ok(keys)
}

/// The key that a part is. Where it is one atom of one step from a node at hand, that is read where
/// it lies.
#[cycle(eval)]
fn key_of<W: TreeStore>(
    alloc: Global,
    world: &mut W,
    frame: EvalContext<'_>,
    part: &Plan,
) -> Result<Key, Fault>
    ensures goes { Goes (W.forest world.old) (W.forest world.new) (W.is_clean world.old)
        (W.is_clean world.new) }
    ensures gives { W.is_clean world.new → FrameIn (W.forest world.old) frame.entry
        → GivesKey (Forms.atoms_of (plan_mean part.now) (frame_at (W.forest world.old) frame.entry)
        (W.forest world.old)) (W.forest world.new) result }
{
    if let Some(atom) = atom_of(alloc, world, frame, part)? {
        return Ok(Key::One(atom));
    }
    let value = evaluate(alloc, world, frame, part)?;
    let atoms = into_atoms(alloc, world, value)?;
    Ok(Key::Several(atoms))
}
