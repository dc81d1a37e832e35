//! The evaluator: the value of a plan.
ghost use Rattle.std.specs.Prelude.{◌≡◌, [], ◌∷◌, map, IfSome};
ghost use Rattle.std.specs.List.{AllByRecursion};
ghost use Rattle.xq_atoms.specs.Text.{Text};
ghost use Rattle.xq_meaning.specs.declared.plans.Plan.TheVariants as plan_of;
ghost use Rattle.xq_trees.specs.Items.{item_view, item_views};
ghost use Rattle.xq_meaning.specs.Readings.{items_at, IsIn, AreIn};
ghost use Rattle.xq_meaning.specs.Doing.{in_turn, more, one_more, first_that};
ghost use Rattle.xq_meaning.specs.Forms as Forms;
ghost use Rattle.xq_meaning.specs.PlanMeaning.{plan_mean};
ghost use Rattle.xq_operators.specs.Views.{tuple_at, lists_of, spot_at, frame_at, FrameIn, TupleIn, Goes, GivesSequence};
ghost use Rattle.xq_eval.specs.private.Results.{GivesLists, GivesPlain};
ghost use Rattle.xq_eval.specs.private.Scanning.{IsLiteral, Scans};

use crate::at_hand::cheap_atom;
use crate::concatenation::concatenated;
use crate::counting::counted_variable;
use crate::expressions::{
    arrow, axis_step, conditional, constructed, filtered, flwor, logical, named_node, operands,
    path, quantified, signed, simple_map, unnamed_node,
};
use crate::numbers::number_of;
use crate::positions::{ByPosition, keep_positional, positional};
use crate::texts::keep_by_texts;
use sqlite_items::Items as PlanItems;
use std::alloc::Global;
use xq_atoms::Fault;
use xq_expressions::{Function, NamedNode};
use xq_functions::{effective, keeps};
use xq_joins::{atom_of_call, leads_to_text, node_test};
use xq_meaning::{Operator, Plan};
use xq_operators::{
    EvalContext, Focus, call, call_on_one, context_item, decimal, integer, operate, push_copy,
    root, single, string, variable,
};
use xq_sources::TreeStore;
use xq_trees::{Item, Items};

/// The value of a plan. It goes on to a function for each form, and keeps nothing meanwhile.
#[cycle(eval)]
pub fn evaluate<W: TreeStore>(
    alloc: Global,
    world: &mut W,
    frame: EvalContext<'_>,
    plan: &Plan,
) -> Result<Items, Fault>
    ensures goes { Goes (W.forest world.old) (W.forest world.new) (W.is_clean world.old)
        (W.is_clean world.new) }
    ensures gives { W.is_clean world.new → FrameIn (W.forest world.old) frame.entry
        → GivesSequence (plan_mean plan.now (frame_at (W.forest world.old) frame.entry)
        (W.forest world.old)) (W.forest world.new) result }
    ensures reads { W.is_clean world.new → FrameIn (W.forest world.old) frame.entry
        → Scans plan.now frame.entry.addresses.now (W.forest world.old) (W.meter world.old)
        (W.meter world.new) }
{
    match plan {
        Plan::Int(value) => integer(alloc, *value),
        Plan::Dec(value) => decimal(alloc, *value),
        Plan::Str(text) => string(alloc, text.as_str()),
        Plan::Slot(number) => variable(alloc, frame.slots, *number),
        Plan::ContextItem => context_item(alloc, frame.focus),
        Plan::Sequence(parts) => sequence(alloc, world, frame, parts.as_slice()),
        Plan::Chain(first, rest) => operands(alloc, world, frame, first.get(), rest.as_slice()),
        Plan::Unary(signs, part) => signed(alloc, world, frame, signs.as_slice(), part.get()),
        Plan::If(test, yes, no) => {
            conditional(alloc, world, frame, test.get(), yes.get(), no.get())
        }
        Plan::Or(parts) => logical(alloc, world, frame, parts.as_slice(), true),
        Plan::And(parts) => logical(alloc, world, frame, parts.as_slice(), false),
        Plan::Filter(start, predicates) => {
            filtered(alloc, world, frame, start.get(), predicates.as_slice())
        }
        Plan::Flwor(clauses, part) => flwor(alloc, world, frame, clauses.as_slice(), part.get()),
        Plan::Path(start, steps) => path(alloc, world, frame, start.get(), steps.as_slice()),
        Plan::Root => root(alloc, world, frame),
        Plan::Step(axis, test, predicates) => {
            axis_step(alloc, world, frame, *axis, test, predicates.as_slice())
        }
        Plan::Named(kind, name, part) => {
            named_node(alloc, world, frame, *kind, name.get(), part.get())
        }
        Plan::Unnamed(kind, part) => unnamed_node(alloc, world, frame, *kind, part.get()),
        Plan::Call(function, parts) => {
            call_value(alloc, world, frame, *function, parts.as_slice())
        }
        Plan::Arrow(first, calls) => arrow(alloc, world, frame, first.get(), calls.as_slice()),
        Plan::Map(start, parts) => simple_map(alloc, world, frame, start.get(), parts.as_slice()),
        Plan::Quantified(which, ranges, test) => {
            let ranges = ranges.as_slice();
            quantified(alloc, world, frame, plan, *which, ranges, test.get())
        }
    }
}

/// The items of each part.
#[cycle(eval)]
#[inline(never)]
fn sequence<W: TreeStore>(
    alloc: Global,
    world: &mut W,
    frame: EvalContext<'_>,
    parts: &[Plan],
) -> Result<Items, Fault>
    ensures goes { Goes (W.forest world.old) (W.forest world.new) (W.is_clean world.old)
        (W.is_clean world.new) }
    ensures gives { W.is_clean world.new → FrameIn (W.forest world.old) frame.entry
        → GivesSequence (Forms.sequence (map plan_mean parts.now) (frame_at (W.forest world.old)
        frame.entry) (W.forest world.old)) (W.forest world.new) result }
{
    let mut items = Vec::new(alloc);
    for part in parts {
        items = next_part(alloc, world, frame, items, part)?;
    }
    Ok(items)
}

/// The items of one part, after those before it. Of one atom at hand, and of a constructed node, no
/// list is made.
#[cycle(eval)]
pub fn next_part<W: TreeStore>(
    alloc: Global,
    world: &mut W,
    frame: EvalContext<'_>,
    done: Items,
    part: &Plan,
) -> Result<Items, Fault>
    ensures goes { Goes (W.forest world.old) (W.forest world.new) (W.is_clean world.old)
        (W.is_clean world.new) }
    ensures gives { W.is_clean world.new → FrameIn (W.forest world.old) frame.entry
        → AreIn (W.forest world.old) (item_views done)
        → GivesSequence (more (λ part. part (frame_at (W.forest world.old) frame.entry)) (items_at
        (W.forest world.old) (item_views done)) (plan_mean part.now) (W.forest world.old))
        (W.forest world.new) result }
{
    if let Plan::Call(function, parts) = part {
        return next_called(alloc, world, frame, done, *function, parts.as_slice());
    }
    if let Plan::Named(kind, name, content) = part {
        return next_constructed(alloc, world, frame, done, *kind, name.get(), content.get());
    }
    let mut items = done;
    if let Some(value) = cheap_atom(alloc, frame.slots, part)? {
        items.push(Item::Atom(value))?;
        return Ok(items);
    }
    let mut added = evaluate(alloc, world, frame, part)?;
    items.append(&mut added)?;
    Ok(items)
}

/// The items of one call, after those before it. Where it is one atom of one step from a node at
/// hand, no list is made of it.
#[cycle(eval)]
fn next_called<W: TreeStore>(
    alloc: Global,
    world: &mut W,
    frame: EvalContext<'_>,
    done: Items,
    function: Function,
    parts: &[Plan],
) -> Result<Items, Fault>
    ensures goes { Goes (W.forest world.old) (W.forest world.new) (W.is_clean world.old)
        (W.is_clean world.new) }
    ensures gives { W.is_clean world.new → FrameIn (W.forest world.old) frame.entry
        → AreIn (W.forest world.old) (item_views done)
        → GivesSequence (more (λ part. part (frame_at (W.forest world.old) frame.entry)) (items_at
        (W.forest world.old) (item_views done)) (Forms.call function (map plan_mean parts.now))
        (W.forest world.old)) (W.forest world.new) result }
{
    let mut items = done;
    if let Some(atom) = atom_of_call(alloc, world, frame, function, parts)? {
        items.push(Item::Atom(atom))?;
        return Ok(items);
    }
    let mut added = called(alloc, world, frame, function, parts)?;
    items.append(&mut added)?;
    Ok(items)
}

/// The node of a constructor with a name, after the items before it.
#[cycle(eval)]
fn next_constructed<W: TreeStore>(
    alloc: Global,
    world: &mut W,
    frame: EvalContext<'_>,
    done: Items,
    kind: NamedNode,
    name: &Plan,
    part: &Plan,
) -> Result<Items, Fault>
    ensures goes { Goes (W.forest world.old) (W.forest world.new) (W.is_clean world.old)
        (W.is_clean world.new) }
    ensures gives { W.is_clean world.new → FrameIn (W.forest world.old) frame.entry
        → AreIn (W.forest world.old) (item_views done)
        → GivesSequence (more (λ part. part (frame_at (W.forest world.old) frame.entry)) (items_at
        (W.forest world.old) (item_views done)) (Forms.named_node kind (plan_mean name.now)
        (plan_mean part.now)) (W.forest world.old)) (W.forest world.new) result }
{
    let mut items = done;
    let node = constructed(alloc, world, frame, kind, name, part)?;
    items.push(Item::Node(node))?;
    Ok(items)
}

/// What the operators give, one after another.
#[cycle(eval)]
pub fn chain<W: TreeStore>(
    alloc: Global,
    world: &mut W,
    frame: EvalContext<'_>,
    first: Items,
    rest: &[(Operator, Plan)],
) -> Result<Items, Fault>
    ensures goes { Goes (W.forest world.old) (W.forest world.new) (W.is_clean world.old)
        (W.is_clean world.new) }
    ensures gives { W.is_clean world.new → FrameIn (W.forest world.old) frame.entry
        → AreIn (W.forest world.old) (item_views first)
        → GivesSequence (in_turn (Forms.next_operand (frame_at (W.forest world.old) frame.entry))
        (items_at (W.forest world.old) (item_views first)) (map (λ (op, p). (op, plan_mean p))
        rest.now) (W.forest world.old)) (W.forest world.new) result }
{
    let mut total = first;
    for (operator, part) in rest {
        total = next_operand(alloc, world, frame, total, *operator, part)?;
    }
    Ok(total)
}

/// What one operator gives.
#[cycle(eval)]
fn next_operand<W: TreeStore>(
    alloc: Global,
    world: &mut W,
    frame: EvalContext<'_>,
    left: Items,
    operator: Operator,
    part: &Plan,
) -> Result<Items, Fault>
    ensures goes { Goes (W.forest world.old) (W.forest world.new) (W.is_clean world.old)
        (W.is_clean world.new) }
    ensures gives { W.is_clean world.new → FrameIn (W.forest world.old) frame.entry
        → AreIn (W.forest world.old) (item_views left)
        → GivesSequence (Forms.next_operand (frame_at (W.forest world.old) frame.entry) (items_at
        (W.forest world.old) (item_views left)) (operator, plan_mean part.now)
        (W.forest world.old)) (W.forest world.new) result }
{
    let right = evaluate(alloc, world, frame, part)?;
    operate(alloc, world, operator, left, right)
}

/// Whether one of the parts has the wanted truth; those after the first that has are not evaluated.
#[cycle(eval)]
pub fn decided<W: TreeStore>(
    alloc: Global,
    world: &mut W,
    frame: EvalContext<'_>,
    parts: &[Plan],
    wanted: bool,
) -> Result<bool, Fault>
    ensures goes { Goes (W.forest world.old) (W.forest world.new) (W.is_clean world.old)
        (W.is_clean world.new) }
    ensures gives { W.is_clean world.new → FrameIn (W.forest world.old) frame.entry
        → GivesPlain (first_that wanted (λ part. Forms.tested part (frame_at (W.forest world.old)
        frame.entry)) (map plan_mean parts.now) (W.forest world.old)) (W.forest world.new) result }
{
    for part in parts {
        let truth = tested(alloc, world, frame, part)?;
        if truth == wanted {
            return Ok(wanted);
        }
    }
    Ok(!wanted)
}

/// The truth of a part. Where it asks a node at hand for a text, that is only read.
#[cycle(eval)]
pub fn tested<W: TreeStore>(
    alloc: Global,
    world: &mut W,
    frame: EvalContext<'_>,
    part: &Plan,
) -> Result<bool, Fault>
    ensures goes { Goes (W.forest world.old) (W.forest world.new) (W.is_clean world.old)
        (W.is_clean world.new) }
    ensures gives { W.is_clean world.new → FrameIn (W.forest world.old) frame.entry
        → GivesPlain (Forms.tested (plan_mean part.now) (frame_at (W.forest world.old)
        frame.entry) (W.forest world.old)) (W.forest world.new) result }
{
    if let Some(found) = node_test(frame, part) {
        return Ok(leads_to_text(alloc, world, found.node, found.test)?);
    }
    let value = evaluate(alloc, world, frame, part)?;
    Ok(effective(&value)?)
}

/// The items that all predicates keep.
#[cycle(eval)]
pub fn filter<W: TreeStore>(
    alloc: Global,
    world: &mut W,
    frame: EvalContext<'_>,
    items: Items,
    predicates: &[Plan],
) -> Result<Items, Fault>
    ensures goes { Goes (W.forest world.old) (W.forest world.new) (W.is_clean world.old)
        (W.is_clean world.new) }
    ensures gives { W.is_clean world.new → FrameIn (W.forest world.old) frame.entry
        → AreIn (W.forest world.old) (item_views items)
        → GivesSequence (in_turn (Forms.filtered (frame_at (W.forest world.old) frame.entry))
        (items_at
        (W.forest world.old) (item_views items)) (map plan_mean predicates.now)
        (W.forest world.old)) (W.forest world.new) result }
{
    let mut left = items;
    for predicate in predicates {
        left = keep(alloc, world, frame, &left, predicate)?;
    }
    Ok(left)
}

/// The items that one predicate keeps. One whose value an item's position tells is not evaluated at
/// each, and one that asks nodes for a text, or for those of a key, only reads.
#[cycle(eval)]
pub fn keep<W: TreeStore>(
    alloc: Global,
    world: &mut W,
    frame: EvalContext<'_>,
    items: &[Item],
    predicate: &Plan,
) -> Result<Items, Fault>
    ensures goes { Goes (W.forest world.old) (W.forest world.new) (W.is_clean world.old)
        (W.is_clean world.new) }
    ensures gives { W.is_clean world.new → FrameIn (W.forest world.old) frame.entry
        → AreIn (W.forest world.old) (map item_view items.now)
        → GivesSequence (Forms.filtered (frame_at (W.forest world.old) frame.entry) (items_at
        (W.forest world.old) (map item_view items.now)) (plan_mean predicate.now)
        (W.forest world.old)) (W.forest world.new) result }
{
    if let Some(value) = positional(frame.slots, predicate, items) {
        return keep_positional(alloc, items, &value);
    }
    if let Ok(Some(number)) = number_of(frame.slots, predicate) {
        let value = ByPosition::Same(single(alloc, Item::Atom(number))?);
        return keep_positional(alloc, items, &value);
    }
    if let Some(found) = keep_by_texts(alloc, world, frame, items, predicate)? {
        return Ok(found);
    }
    let last = items.len();
    let mut kept = Vec::new(alloc);
    for (index, item) in items.iter().enumerate() {
        let spot = Focus {
            item,
            position: index + 1,
            last,
        };
        kept = pass(alloc, world, frame, kept, spot, predicate)?;
    }
    Ok(kept)
}

/// The items kept so far, and the one in focus where the predicate keeps it.
#[cycle(eval)]
fn pass<W: TreeStore>(
    alloc: Global,
    world: &mut W,
    frame: EvalContext<'_>,
    done: Items,
    spot: Focus<'_>,
    predicate: &Plan,
) -> Result<Items, Fault>
    ensures goes { Goes (W.forest world.old) (W.forest world.new) (W.is_clean world.old)
        (W.is_clean world.new) }
    ensures gives { W.is_clean world.new → FrameIn (W.forest world.old) frame.entry
        → AreIn (W.forest world.old) (item_views done)
        → IsIn (W.forest world.old) (item_view spot.entry.item.now)
        → GivesSequence (more (Forms.passed (plan_mean predicate.now) (frame_at (W.forest world.old)
        frame.entry)) (items_at (W.forest world.old) (item_views done)) (spot_at
        (W.forest world.old) spot.entry) (W.forest world.old)) (W.forest world.new) result }
{
    let inner = EvalContext {
        focus: Some(spot),
        ..frame
    };
    let value = evaluate(alloc, world, inner, predicate)?;
    let keeps = keeps(spot.position, &value)?;
    Ok(push_copy(alloc, done, spot.item, keeps)?)
}

/// The only argument of a call.
fn only_part(parts: &[Plan]) -> Option<&Plan>
    ensures { IfSome result (λ part. parts.now ≡ part.now ∷ []) }
{
    let [part] = parts else {
        return None;
    };
    Some(part)
}

/// The value of a call. Where it is one atom of one step from a node at hand, no list is made of
/// the nodes to which that leads.
#[cycle(eval)]
#[inline(never)]
fn call_value<W: TreeStore>(
    alloc: Global,
    world: &mut W,
    frame: EvalContext<'_>,
    function: Function,
    parts: &[Plan],
) -> Result<Items, Fault>
    ensures goes { Goes (W.forest world.old) (W.forest world.new) (W.is_clean world.old)
        (W.is_clean world.new) }
    ensures gives { W.is_clean world.new → FrameIn (W.forest world.old) frame.entry
        → GivesSequence (Forms.call function (map plan_mean parts.now)
        (frame_at (W.forest world.old)
        frame.entry) (W.forest world.old)) (W.forest world.new) result }
    ensures reads { W.is_clean world.new → FrameIn (W.forest world.old) frame.entry
        → function ≡ Function.Doc → (t : Text) → parts.now ≡ plan_of.Str t ∷ []
        → W.meter world.new ≡ W.meter world.old }
{
    if let Some(atom) = atom_of_call(alloc, world, frame, function, parts)? {
        return Ok(single(alloc, Item::Atom(atom))?);
    }
    called(alloc, world, frame, function, parts)
}

/// The value of a call. That of a variable which is only counted is not copied, one argument is put
/// into no list, and numbers and literals that are put together are put into none.
#[cycle(eval)]
#[inline(never)]
fn called<W: TreeStore>(
    alloc: Global,
    world: &mut W,
    frame: EvalContext<'_>,
    function: Function,
    parts: &[Plan],
) -> Result<Items, Fault>
    ensures goes { Goes (W.forest world.old) (W.forest world.new) (W.is_clean world.old)
        (W.is_clean world.new) }
    ensures gives { W.is_clean world.new → FrameIn (W.forest world.old) frame.entry
        → GivesSequence (Forms.call function (map plan_mean parts.now)
        (frame_at (W.forest world.old)
        frame.entry) (W.forest world.old)) (W.forest world.new) result }
    ensures reads { W.is_clean world.new → FrameIn (W.forest world.old) frame.entry
        → function ≡ Function.Doc → (t : Text) → parts.now ≡ plan_of.Str t ∷ []
        → W.meter world.new ≡ W.meter world.old }
{
    if let Some(items) = counted_variable(alloc, frame.slots, function, parts)? {
        return Ok(items);
    }
    if let Some(part) = only_part(parts) {
        let value = evaluate(alloc, world, frame, part)?;
        return call_on_one(alloc, world, frame, function, value);
    }
    if let Some(text) = concatenated(alloc, frame.slots, function, parts)? {
        return Ok(single(alloc, Item::Atom(text))?);
    }
    let values = arguments(alloc, world, frame, Vec::new(alloc), parts)?;
    call(alloc, world, frame, function, values)
}

/// What the calls after arrows give, one after another.
#[cycle(eval)]
pub fn call_list<W: TreeStore>(
    alloc: Global,
    world: &mut W,
    frame: EvalContext<'_>,
    first: Items,
    calls: &[(Function, PlanItems<Plan>)],
) -> Result<Items, Fault>
    ensures goes { Goes (W.forest world.old) (W.forest world.new) (W.is_clean world.old)
        (W.is_clean world.new) }
    ensures gives { W.is_clean world.new → FrameIn (W.forest world.old) frame.entry
        → AreIn (W.forest world.old) (item_views first)
        → GivesSequence (in_turn (Forms.next_call (frame_at (W.forest world.old) frame.entry))
        (items_at (W.forest world.old) (item_views first)) (map (λ (function, parts). (
          function,
          map plan_mean parts,
        )) calls.now) (W.forest world.old)) (W.forest world.new) result }
{
    let mut value = first;
    for (function, parts) in calls {
        value = next_call(alloc, world, frame, value, *function, parts.as_slice())?;
    }
    Ok(value)
}

/// What one call gives, whose first argument has a value already.
#[cycle(eval)]
fn next_call<W: TreeStore>(
    alloc: Global,
    world: &mut W,
    frame: EvalContext<'_>,
    items: Items,
    function: Function,
    parts: &[Plan],
) -> Result<Items, Fault>
    ensures goes { Goes (W.forest world.old) (W.forest world.new) (W.is_clean world.old)
        (W.is_clean world.new) }
    ensures gives { W.is_clean world.new → FrameIn (W.forest world.old) frame.entry
        → AreIn (W.forest world.old) (item_views items)
        → GivesSequence (Forms.next_call (frame_at (W.forest world.old) frame.entry) (items_at
        (W.forest world.old) (item_views items)) (function, map plan_mean parts.now)
        (W.forest world.old)) (W.forest world.new) result }
{
    let mut first = Vec::new(alloc);
    first.push(items)?;
    let values = arguments(alloc, world, frame, first, parts)?;
    call(alloc, world, frame, function, values)
}

/// The values of the arguments so far, and that of each other.
#[cycle(eval)]
fn arguments<W: TreeStore>(
    alloc: Global,
    world: &mut W,
    frame: EvalContext<'_>,
    done: Vec<Items>,
    parts: &[Plan],
) -> Result<Vec<Items>, Fault>
    ensures goes { Goes (W.forest world.old) (W.forest world.new) (W.is_clean world.old)
        (W.is_clean world.new) }
    ensures gives { W.is_clean world.new → FrameIn (W.forest world.old) frame.entry
        → TupleIn (W.forest world.old) (lists_of done)
        → GivesLists (in_turn (one_more (λ part. part (frame_at (W.forest world.old) frame.entry)))
        (tuple_at (W.forest world.old) (lists_of done)) (map plan_mean parts.now)
        (W.forest world.old)) (W.forest world.new) result }
    ensures reads { W.is_clean world.new → FrameIn (W.forest world.old) frame.entry
        → AllByRecursion IsLiteral parts.now → W.meter world.new ≡ W.meter world.old }
{
    let mut lists = done;
    for part in parts {
        lists = next_argument(alloc, world, frame, lists, part)?;
    }
    Ok(lists)
}

/// The values so far, and that of one argument more.
#[cycle(eval)]
fn next_argument<W: TreeStore>(
    alloc: Global,
    world: &mut W,
    frame: EvalContext<'_>,
    done: Vec<Items>,
    part: &Plan,
) -> Result<Vec<Items>, Fault>
    ensures goes { Goes (W.forest world.old) (W.forest world.new) (W.is_clean world.old)
        (W.is_clean world.new) }
    ensures gives { W.is_clean world.new → FrameIn (W.forest world.old) frame.entry
        → TupleIn (W.forest world.old) (lists_of done)
        → GivesLists (one_more (λ part. part (frame_at (W.forest world.old) frame.entry)) (tuple_at
        (W.forest world.old) (lists_of done)) (plan_mean part.now) (W.forest world.old))
        (W.forest world.new) result }
    ensures reads { W.is_clean world.new → FrameIn (W.forest world.old) frame.entry
        → IsLiteral part.now → W.meter world.new ≡ W.meter world.old }
{
    let mut lists = done;
    let list = evaluate(alloc, world, frame, part)?;
    lists.push(list)?;
    Ok(lists)
}
