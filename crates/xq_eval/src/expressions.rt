//! The forms of expressions that keep something while their parts are evaluated. Each is a function
//! of its own, so that [`evaluate`], which every part of a plan enters, keeps nothing itself: a
//! function pays at its entry for all that any of its arms keeps.
ghost use Rattle.std.specs.Prelude.{◌≡◌, ◌*◌, ◌∷◌, [], List, map, length, false, IfSome};
ghost use Rattle.xq_atoms.specs.Atom.{String as AtomicString};
ghost use Rattle.xq_atoms.specs.Text.{Text};
ghost use Rattle.xq_trees.specs.declared.Axis.{Axis as AxisLem};
ghost use Rattle.xq_meaning.specs.declared.node_tests.Test.{Test as TestLem};
ghost use Rattle.xq_meaning.specs.declared.plans.Plan.TheVariants as plan_of;
ghost use Rattle.xq_meaning.specs.declared.plans.PlanClause.TheVariants as plan_clause;
ghost use Rattle.xq_meaning.specs.declared.plans.PlanStep.TheVariants as plan_step;
ghost use Rattle.xq_expressions.specs.declared.signatures.Function.TheVariants.{Doc};
ghost use Rattle.xq_meaning.specs.Arguments.{boolean as boolean_lem};
ghost use Rattle.xq_meaning.specs.Doing.{go_on, give, first_that};
ghost use Rattle.xq_meaning.specs.Forms as Forms;
ghost use Rattle.xq_meaning.specs.PlanMeaning as Meant;
ghost use Rattle.xq_meaning.specs.PlanMeaning.{plan_mean, plan_clause_mean, plan_step_mean};
ghost use Rattle.xq_operators.specs.Reads.{HasGrown};
ghost use Rattle.xq_operators.specs.Views.{frame_at, FrameIn, Goes, GivesNode, GivesSequence};
ghost use Rattle.xq_eval.specs.Reads.{rows_at};
ghost use Rattle.xq_eval.specs.private.Filled.{filled};
ghost use Rattle.xq_eval.specs.private.Quantifying.{IsOf, bindings};

use crate::at_hand::{cheap_atom, picked};
use crate::chosen::nodes_of_step;
use crate::clauses::{clause_list, returned, returned_each};
use crate::evaluation::{call_list, chain, decided, evaluate, filter, keep};
use crate::lent::filtered_variable;
use crate::numbers::number_of_chain;
use crate::paths::{map_list, step_list};
use crate::quantified::satisfied;
use sqlite_items::Items as PlanItems;
use std::alloc::Global;
use std::slice::from_ref;
use xq_atoms::Fault;
use xq_axes::in_axis_order;
use xq_build::literal_name;
use xq_expressions::{AllowingEmpty, Function, NamedNode, Quantifier, Sign, UnnamedNode};
use xq_functions::effective;
use xq_meaning::{Operator, Plan, PlanClause, PlanStep, Test};
use xq_operators::{
    EvalContext, boolean, deciding, node_name, planted_named, scan_from, short_path, sign, single,
    unnamed,
};
use xq_sources::TreeStore;
use xq_trees::{Axis, Item, Items, Node};

/// Operands and the operators between them (XQuery 3.1, sections 3.4 to 3.7). Where they are
/// arithmetic on numbers at hand, no list is made of an operand.
#[cycle(eval)]
#[inline(never)]
pub fn operands<W: TreeStore>(
    alloc: Global,
    world: &mut W,
    frame: EvalContext<'_>,
    first: &Plan,
    rest: &[(Operator, Plan)],
) -> Result<Items, Fault>
    ensures goes { Goes (W.forest world.old) (W.forest world.new) (W.is_clean world.old)
        (W.is_clean world.new) }
    ensures gives { W.is_clean world.new → FrameIn (W.forest world.old) frame.entry
        → GivesSequence (Forms.chain (plan_mean first.now) (map (λ (op, p). (op, plan_mean p))
        rest.now) (frame_at (W.forest world.old) frame.entry) (W.forest world.old))
        (W.forest world.new) result }
{
    if let Some(number) = number_of_chain(frame.slots, first, rest)? {
        return Ok(single(alloc, Item::Atom(number))?);
    }
    let left = evaluate(alloc, world, frame, first)?;
    chain(alloc, world, frame, left, rest)
}

/// Signs before a value (XQuery 3.1, section 3.5).
#[cycle(eval)]
#[inline(never)]
pub fn signed<W: TreeStore>(
    alloc: Global,
    world: &mut W,
    frame: EvalContext<'_>,
    signs: &[Sign],
    part: &Plan,
) -> Result<Items, Fault>
    ensures goes { Goes (W.forest world.old) (W.forest world.new) (W.is_clean world.old)
        (W.is_clean world.new) }
    ensures gives { W.is_clean world.new → FrameIn (W.forest world.old) frame.entry
        → GivesSequence (Forms.unary signs.now (plan_mean part.now) (frame_at (W.forest world.old)
        frame.entry) (W.forest world.old)) (W.forest world.new) result }
{
    let items = evaluate(alloc, world, frame, part)?;
    sign(alloc, world, signs, &items)
}

/// A conditional expression (XQuery 3.1, section 3.14).
#[cycle(eval)]
#[inline(never)]
pub fn conditional<W: TreeStore>(
    alloc: Global,
    world: &mut W,
    frame: EvalContext<'_>,
    test: &Plan,
    yes: &Plan,
    no: &Plan,
) -> Result<Items, Fault>
    ensures goes { Goes (W.forest world.old) (W.forest world.new) (W.is_clean world.old)
        (W.is_clean world.new) }
    ensures gives { W.is_clean world.new → FrameIn (W.forest world.old) frame.entry
        → GivesSequence (Forms.conditional (plan_mean test.now) (plan_mean yes.now)
        (plan_mean no.now) (frame_at (W.forest world.old) frame.entry) (W.forest world.old))
        (W.forest world.new) result }
{
    let value = evaluate(alloc, world, frame, test)?;
    if effective(&value)? {
        evaluate(alloc, world, frame, yes)
    } else {
        evaluate(alloc, world, frame, no)
    }
}

/// A logical expression (XQuery 3.1, section 3.8): whether one of the parts has the wanted truth.
#[cycle(eval)]
#[inline(never)]
pub fn logical<W: TreeStore>(
    alloc: Global,
    world: &mut W,
    frame: EvalContext<'_>,
    parts: &[Plan],
    wanted: bool,
) -> Result<Items, Fault>
    ensures goes { Goes (W.forest world.old) (W.forest world.new) (W.is_clean world.old)
        (W.is_clean world.new) }
    ensures gives { W.is_clean world.new → FrameIn (W.forest world.old) frame.entry
        → GivesSequence (go_on (first_that wanted (λ part. Forms.tested part (frame_at
        (W.forest world.old) frame.entry)) (map plan_mean parts.now) (W.forest world.old))
        (λ answer. give (boolean_lem answer))) (W.forest world.new) result }
{
    let answer = decided(alloc, world, frame, parts, wanted)?;
    boolean(alloc, answer)
}

/// A primary expression and its predicates (XQuery 3.1, section 3.2.1). Where its value is one of
/// several literals, the others are not made; the value of a variable is not copied.
#[cycle(eval)]
#[inline(never)]
pub fn filtered<W: TreeStore>(
    alloc: Global,
    world: &mut W,
    frame: EvalContext<'_>,
    start: &Plan,
    predicates: &[Plan],
) -> Result<Items, Fault>
    ensures goes { Goes (W.forest world.old) (W.forest world.new) (W.is_clean world.old)
        (W.is_clean world.new) }
    ensures gives { W.is_clean world.new → FrameIn (W.forest world.old) frame.entry
        → GivesSequence (Forms.filter_of (plan_mean start.now) (map plan_mean predicates.now)
        (frame_at (W.forest world.old) frame.entry) (W.forest world.old)) (W.forest world.new)
        result }
{
    if let Some(atom) = picked(alloc, frame.slots, start, predicates)? {
        return Ok(single(alloc, Item::Atom(atom))?);
    }
    if let Some(found) = filtered_variable(frame.slots, start, predicates) {
        let kept = keep(alloc, world, frame, found.items, found.first)?;
        return filter(alloc, world, frame, kept, found.rest);
    }
    let items = evaluate(alloc, world, frame, start)?;
    filter(alloc, world, frame, items, predicates)
}

/// What the only clause ranges over, where that is a `for` of one variable that allows no empty
/// sequence.
fn lone_for(clauses: &[PlanClause]) -> Option<&Plan>
    ensures { IfSome result (λ source.
        clauses.now ≡ plan_clause.For AllowingEmpty.No false source.now ∷ []) }
{
    let [clause] = clauses else {
        return None;
    };
    let PlanClause::For(empties, at, source) = clause else {
        return None;
    };
    let AllowingEmpty::No = empties else {
        return None;
    };
    if *at { None } else { Some(source) }
}

/// A FLWOR expression (XQuery 3.1, section 3.12). Where its only clause is a `for` of one variable,
/// no tuples are made.
#[cycle(eval)]
#[inline(never)]
pub fn flwor<W: TreeStore>(
    alloc: Global,
    world: &mut W,
    frame: EvalContext<'_>,
    clauses: &[PlanClause],
    part: &Plan,
) -> Result<Items, Fault>
    ensures goes { Goes (W.forest world.old) (W.forest world.new) (W.is_clean world.old)
        (W.is_clean world.new) }
    ensures gives { W.is_clean world.new → FrameIn (W.forest world.old) frame.entry
        → GivesSequence (Meant.flwor (map plan_clause_mean clauses.now) (plan_mean part.now)
        (frame_at (W.forest world.old) frame.entry) (W.forest world.old)) (W.forest world.new)
        result }
{
    if let Some(source) = lone_for(clauses) {
        let items = evaluate(alloc, world, frame, source)?;
        return returned_each(alloc, world, frame, &items, part);
    }
    let tuples = clause_list(alloc, world, frame, clauses)?;
    returned(alloc, world, frame, &tuples, part)
}

/// A path (XQuery 3.1, section 3.3). Where it is one scan from a node that is at hand, no list is
/// made of that node.
#[cycle(eval)]
#[inline(never)]
pub fn path<W: TreeStore>(
    alloc: Global,
    world: &mut W,
    frame: EvalContext<'_>,
    start: &Plan,
    steps: &[PlanStep],
) -> Result<Items, Fault>
    ensures goes { Goes (W.forest world.old) (W.forest world.new) (W.is_clean world.old)
        (W.is_clean world.new) }
    ensures gives { W.is_clean world.new → FrameIn (W.forest world.old) frame.entry
        → GivesSequence (Meant.path (plan_mean start.now) (map plan_step_mean steps.now)
        (frame_at (W.forest world.old) frame.entry) (W.forest world.old)) (W.forest world.new)
        result }
    ensures reads { W.is_clean world.new → FrameIn (W.forest world.old) frame.entry
        → (address : Text) (scans : List (AxisLem × TestLem))
        → start.now ≡ plan_of.Call Doc (plan_of.Str address ∷ [])
        → steps.now ≡ map (λ s. plan_step.Scan s.0 s.1) scans
        → HasGrown (W.meter world.old) (W.meter world.new)
        (length scans * rows_at address frame.entry.addresses.now (W.forest world.old)) }
{
    if let Some(found) = short_path(frame, start, steps) {
        return Ok(scan_from(alloc, world, found.node, found.axis, found.test)?);
    }
    let items = evaluate(alloc, world, frame, start)?;
    step_list(alloc, world, frame, items, steps)
}

/// A step from the context item, and its predicates (XQuery 3.1, section 3.3.2).
#[cycle(eval)]
#[inline(never)]
pub fn axis_step<W: TreeStore>(
    alloc: Global,
    world: &mut W,
    frame: EvalContext<'_>,
    axis: Axis,
    test: &Test,
    predicates: &[Plan],
) -> Result<Items, Fault>
    ensures goes { Goes (W.forest world.old) (W.forest world.new) (W.is_clean world.old)
        (W.is_clean world.new) }
    ensures gives { W.is_clean world.new → FrameIn (W.forest world.old) frame.entry
        → GivesSequence (Forms.step axis test.now (map plan_mean predicates.now)
        (frame_at (W.forest world.old) frame.entry) (W.forest world.old)) (W.forest world.new)
        result }
{
    let nodes = nodes_of_step(alloc, world, frame, axis, test, predicates)?;
    let kept = filter(alloc, world, frame, nodes, predicates)?;
    Ok(in_axis_order(axis, kept))
}

/// A node of this kind and name, whose content a plan gives. Where that is one atom at hand, no
/// list is made of it.
#[cycle(eval)]
fn with_content<W: TreeStore>(
    alloc: Global,
    world: &mut W,
    frame: EvalContext<'_>,
    kind: NamedNode,
    name: &str,
    part: &Plan,
) -> Result<Node, Fault>
    ensures goes { Goes (W.forest world.old) (W.forest world.new) (W.is_clean world.old)
        (W.is_clean world.new) }
    ensures gives { W.is_clean world.new → FrameIn (W.forest world.old) frame.entry
        → GivesNode (filled kind name.now (plan_mean part.now) (frame_at (W.forest world.old)
        frame.entry) (W.forest world.old)) (W.forest world.new) result }
{
    if let Some(atom) = cheap_atom(alloc, frame.slots, part)? {
        return planted_named(alloc, world, kind, name, from_ref(&Item::Atom(atom)));
    }
    let content = evaluate(alloc, world, frame, part)?;
    planted_named(alloc, world, kind, name, &content)
}

/// The node of a constructor whose name is a string literal, which is read where it lies.
#[cycle(eval)]
fn literally_named<W: TreeStore>(
    alloc: Global,
    world: &mut W,
    frame: EvalContext<'_>,
    kind: NamedNode,
    text: &str,
    part: &Plan,
) -> Result<Node, Fault>
    ensures goes { Goes (W.forest world.old) (W.forest world.new) (W.is_clean world.old)
        (W.is_clean world.new) }
    ensures gives { W.is_clean world.new → FrameIn (W.forest world.old) frame.entry
        → GivesNode (Forms.named_node kind (Forms.literal (AtomicString text.now))
        (plan_mean part.now) (frame_at (W.forest world.old) frame.entry) (W.forest world.old))
        (W.forest world.new) result }
{
    let name = literal_name(kind, text)?;
    with_content(alloc, world, frame, kind, name, part)
}

/// The node of a constructor with a name (XQuery 3.1, section 3.9.3).
#[cycle(eval)]
pub fn constructed<W: TreeStore>(
    alloc: Global,
    world: &mut W,
    frame: EvalContext<'_>,
    kind: NamedNode,
    name: &Plan,
    part: &Plan,
) -> Result<Node, Fault>
    ensures goes { Goes (W.forest world.old) (W.forest world.new) (W.is_clean world.old)
        (W.is_clean world.new) }
    ensures gives { W.is_clean world.new → FrameIn (W.forest world.old) frame.entry
        → GivesNode (Forms.named_node kind (plan_mean name.now) (plan_mean part.now)
        (frame_at (W.forest world.old) frame.entry) (W.forest world.old)) (W.forest world.new)
        result }
{
    if let Plan::Str(text) = name {
        return literally_named(alloc, world, frame, kind, text.as_str(), part);
    }
    let value = evaluate(alloc, world, frame, name)?;
    let name = node_name(alloc, world, kind, &value)?;
    with_content(alloc, world, frame, kind, name.as_str(), part)
}

/// A constructor of a node with a name (XQuery 3.1, section 3.9.3).
#[cycle(eval)]
#[inline(never)]
pub fn named_node<W: TreeStore>(
    alloc: Global,
    world: &mut W,
    frame: EvalContext<'_>,
    kind: NamedNode,
    name: &Plan,
    part: &Plan,
) -> Result<Items, Fault>
    ensures goes { Goes (W.forest world.old) (W.forest world.new) (W.is_clean world.old)
        (W.is_clean world.new) }
    ensures gives { W.is_clean world.new → FrameIn (W.forest world.old) frame.entry
        → GivesSequence (Forms.named_node kind (plan_mean name.now) (plan_mean part.now)
        (frame_at (W.forest world.old) frame.entry) (W.forest world.old)) (W.forest world.new)
        result }
{
    let node = constructed(alloc, world, frame, kind, name, part)?;
    Ok(single(alloc, Item::Node(node))?)
}

/// A constructor of a node without a name (XQuery 3.1, section 3.9.3). Where its content is one
/// atom at hand, no list is made of it.
#[cycle(eval)]
#[inline(never)]
pub fn unnamed_node<W: TreeStore>(
    alloc: Global,
    world: &mut W,
    frame: EvalContext<'_>,
    kind: UnnamedNode,
    part: &Plan,
) -> Result<Items, Fault>
    ensures goes { Goes (W.forest world.old) (W.forest world.new) (W.is_clean world.old)
        (W.is_clean world.new) }
    ensures gives { W.is_clean world.new → FrameIn (W.forest world.old) frame.entry
        → GivesSequence (Forms.unnamed_node kind (plan_mean part.now)
        (frame_at (W.forest world.old) frame.entry) (W.forest world.old)) (W.forest world.new)
        result }
{
    if let Some(atom) = cheap_atom(alloc, frame.slots, part)? {
        return unnamed(alloc, world, kind, from_ref(&Item::Atom(atom)));
    }
    let content = evaluate(alloc, world, frame, part)?;
    unnamed(alloc, world, kind, &content)
}

/// Calls after arrows (XQuery 3.1, section 3.20).
#[cycle(eval)]
#[inline(never)]
pub fn arrow<W: TreeStore>(
    alloc: Global,
    world: &mut W,
    frame: EvalContext<'_>,
    first: &Plan,
    calls: &[(Function, PlanItems<Plan>)],
) -> Result<Items, Fault>
    ensures goes { Goes (W.forest world.old) (W.forest world.new) (W.is_clean world.old)
        (W.is_clean world.new) }
    ensures gives { W.is_clean world.new → FrameIn (W.forest world.old) frame.entry
        → GivesSequence (Forms.arrow (plan_mean first.now) (map (λ (function, parts). (
          function,
          map plan_mean parts,
        )) calls.now) (frame_at (W.forest world.old) frame.entry) (W.forest world.old))
        (W.forest world.new) result }
{
    let items = evaluate(alloc, world, frame, first)?;
    call_list(alloc, world, frame, items, calls)
}

/// A simple map (XQuery 3.1, section 3.19).
#[cycle(eval)]
#[inline(never)]
pub fn simple_map<W: TreeStore>(
    alloc: Global,
    world: &mut W,
    frame: EvalContext<'_>,
    start: &Plan,
    parts: &[Plan],
) -> Result<Items, Fault>
    ensures goes { Goes (W.forest world.old) (W.forest world.new) (W.is_clean world.old)
        (W.is_clean world.new) }
    ensures gives { W.is_clean world.new → FrameIn (W.forest world.old) frame.entry
        → GivesSequence (Forms.simple_map (plan_mean start.now) (map plan_mean parts.now)
        (frame_at (W.forest world.old) frame.entry) (W.forest world.old)) (W.forest world.new)
        result }
{
    let items = evaluate(alloc, world, frame, start)?;
    map_list(alloc, world, frame, items, parts)
}

/// A quantified expression, which is the whole plan (XQuery 3.1, section 3.16).
#[cycle(eval)]
#[inline(never)]
pub fn quantified<W: TreeStore>(
    alloc: Global,
    world: &mut W,
    frame: EvalContext<'_>,
    whole: &Plan,
    which: Quantifier,
    ranges: &[Plan],
    test: &Plan,
) -> Result<Items, Fault>
    requires { IsOf whole.now ranges.now test.now }
    ensures goes { Goes (W.forest world.old) (W.forest world.new) (W.is_clean world.old)
        (W.is_clean world.new) }
    ensures gives { W.is_clean world.new → FrameIn (W.forest world.old) frame.entry
        → GivesSequence (Forms.quantified which (bindings (map plan_mean ranges.now))
        (plan_mean test.now) (frame_at (W.forest world.old) frame.entry) (W.forest world.old))
        (W.forest world.new) result }
{
    let wanted = deciding(which);
    let answer = satisfied(alloc, world, frame, whole, ranges, test, wanted)?;
    boolean(alloc, answer)
}
