//! What a part gives, as its form tells it (XQuery 3.1, section 2.2.3.1).
ghost use Rattle.std.specs.Prelude.{◌≡◌, ◌∷◌, [], true, false, if◌then◌else◌};
ghost use Rattle.std.specs.List.{AllByRecursion};
ghost use Rattle.xq_atoms.specs.Text.{Text};
ghost use Rattle.xq_meaning.specs.declared.plans.Plan.TheVariants as plan_of;
ghost use Rattle.xq_optimise.specs.Scans.{IsNoPathOfScans};
ghost use Rattle.xq_optimise.specs.declared.held.Held.TheVariants.{Nodes, Texts, Anything};
ghost use Rattle.xq_optimise.specs.private.Parts.{IsHeld, IsKnown, IsScan, IsOfNodes, IsOfTexts, IsOfOne, each_of};
ghost use Rattle.xq_optimise.specs.private.Kinds.{EndsInNodes, EndsInText, IsStep, LeavesNodes, GivesText, IsOfText, IsString};

use crate::held::Held;
use sqlite_items::at;
use xq_expressions::Function;
use xq_meaning::{Plan, PlanStep};

/// Whether a slot holds nodes alone, as known.
pub fn has_nodes(known: &[Held], slot: usize) -> bool
    ensures { result ≡ true → IsKnown IsOfNodes known.now slot }
{
    match at(known, slot) {
        Some(Held::Nodes) => true,
        Some(Held::Node) => true,
        _ => false,
    }
}

/// Whether a slot holds texts alone, as known.
pub fn has_texts(known: &[Held], slot: usize) -> bool
    ensures { result ≡ true → IsKnown IsOfTexts known.now slot }
{
    match at(known, slot) {
        Some(Held::Texts) => true,
        Some(Held::Text) => true,
        _ => false,
    }
}

/// Whether a slot holds at most one item, as known.
pub fn has_one(known: &[Held], slot: usize) -> bool
    ensures { result ≡ true → IsKnown IsOfOne known.now slot }
{
    match at(known, slot) {
        Some(Held::Node) => true,
        Some(Held::Text) => true,
        Some(Held::Item) => true,
        _ => false,
    }
}

/// What is known of a value that is one item of what is described so, or nothing.
pub fn of_each(held: Held) -> Held
    ensures { result ≡ each_of held }
{
    match held {
        Held::Nodes => Held::Node,
        Held::Node => Held::Node,
        Held::Texts => Held::Text,
        Held::Text => Held::Text,
        Held::Item => Held::Item,
        Held::Anything => Held::Item,
    }
}

/// Whether all steps are scans.
pub fn are_scans(steps: &[PlanStep]) -> bool
    ensures all { result ≡ true → AllByRecursion IsScan steps.now }
    ensures none { result ≡ false → AllByRecursion IsScan steps.now → ⊥ }
{
    for step in steps {
        let PlanStep::Scan(_, _) = step else {
            return false;
        };
    }
    true
}

/// Whether the part is a document that a literal names.
fn is_document(plan: &Plan) -> bool
    ensures { result ≡ false → (address : Text)
        → plan.now ≡ plan_of.Call Function.Doc (plan_of.Str address ∷ []) → ⊥ }
{
    let Plan::Call(Function::Doc, parts) = plan else {
        return false;
    };
    let [Plan::Str(_)] = parts.as_slice() else {
        return false;
    };
    true
}

/// Whether the plan is a path of scans from such a document.
pub fn is_document_path(plan: &Plan) -> bool
    ensures { result ≡ false → IsNoPathOfScans plan.now }
{
    let Plan::Path(start, steps) = plan else {
        return false;
    };
    is_document(start.get()) && are_scans(steps.as_slice())
}

/// Whether the part is a step from the node in focus.
fn is_step(plan: &Plan) -> bool
    ensures { result ≡ true → IsStep plan.now }
{
    match plan {
        Plan::Step(_, _, _) => true,
        _ => false,
    }
}

/// Whether what follows a slash gives nodes alone: a scan, or a step from each node.
fn leaves_nodes(step: &PlanStep) -> bool
    ensures { result ≡ true → LeavesNodes step.now }
{
    match step {
        PlanStep::Scan(_, _) => true,
        PlanStep::Each(part) => is_step(part),
    }
}

/// Whether there are steps, and the last one gives nodes alone.
pub fn end_in_step(steps: &[PlanStep]) -> bool
    ensures { result ≡ true → EndsInNodes steps.now }
{
    let mut ends = false;
    for step in steps {
        ends = leaves_nodes(step);
    }
    ends
}

/// Whether a call of the function gives documents, where it gives a value.
fn gives_documents(function: Function) -> bool
    ensures { result ≡ true → function ≡ Function.Doc }
{
    match function {
        Function::Doc => true,
        _ => false,
    }
}

/// Whether a part is a slot of nodes, a call that gives documents, a step, or ends in one.
fn is_of_nodes(known: &[Held], plan: &Plan) -> bool
    ensures { result ≡ true → IsHeld known.now Nodes plan.now }
{
    match plan {
        Plan::Slot(slot) => has_nodes(known, *slot),
        Plan::Call(function, _) => gives_documents(*function),
        Plan::Step(_, _, _) => true,
        Plan::Path(_, steps) => end_in_step(steps.as_slice()),
        _ => false,
    }
}

/// Whether a part is such a part, or what predicates keep of one.
pub fn gives_nodes(known: &[Held], plan: &Plan) -> bool
    ensures { result ≡ true → IsHeld known.now Nodes plan.now }
{
    match plan {
        Plan::Filter(start, _) => is_of_nodes(known, start.get()),
        _ => is_of_nodes(known, plan),
    }
}

/// Whether a call of the function gives one string, where it gives a value.
fn is_of_text(function: Function) -> bool
    ensures { result ≡ true → IsOfText function }
{
    match function {
        Function::String => true,
        Function::Concat => true,
        Function::StringJoin => true,
        _ => false,
    }
}

/// Whether the part is a string literal, or a call that gives one string.
fn gives_text(plan: &Plan) -> bool
    ensures { result ≡ true → GivesText plan.now }
{
    match plan {
        Plan::Str(_) => true,
        Plan::Call(function, _) => is_of_text(*function),
        _ => false,
    }
}

/// Whether each part is a string literal.
fn are_strings(parts: &[Plan]) -> bool
    ensures { result ≡ true → AllByRecursion IsString parts.now }
{
    for part in parts {
        let Plan::Str(_) = part else {
            return false;
        };
    }
    true
}

/// Whether there are parts, and the last one gives one string.
fn end_in_text(parts: &[Plan]) -> bool
    ensures { result ≡ true → EndsInText parts.now }
{
    let mut ends = false;
    for part in parts {
        ends = gives_text(part);
    }
    ends
}

/// What the atoms of the items of one part are.
fn held_by_atoms(known: &[Held], parts: &[Plan]) -> Held
    ensures data { IsHeld known.now result (plan_of.Call Function.Data parts.now) }
    ensures distinct { IsHeld known.now result (plan_of.Call Function.DistinctValues parts.now) }
{
    let [part] = parts else {
        return Held::Anything;
    };
    if gives_nodes(known, part) {
        Held::Texts
    } else {
        Held::Anything
    }
}

/// What the value of a call holds, where it has one.
fn held_by_call(known: &[Held], function: Function, parts: &[Plan]) -> Held
    ensures { IsHeld known.now result (plan_of.Call function parts.now) }
{
    if is_of_text(function) {
        return Held::Text;
    }
    match function {
        Function::Data => held_by_atoms(known, parts),
        Function::DistinctValues => held_by_atoms(known, parts),
        Function::Doc => Held::Nodes,
        _ => Held::Anything,
    }
}

/// What a slot holds.
fn held_in(known: &[Held], slot: usize) -> Held
    ensures { IsHeld known.now result (plan_of.Slot slot) }
{
    match at(known, slot) {
        Some(held) => *held,
        None => Held::Anything,
    }
}

/// Texts, where that is so, or else anything.
fn texts_if(are_texts: bool) -> Held
    ensures { result ≡ (if are_texts then Texts else Anything) }
{
    if are_texts {
        Held::Texts
    } else {
        Held::Anything
    }
}

/// What the value of a part holds, where it has one.
pub fn held_by(known: &[Held], plan: &Plan) -> Held
    ensures { IsHeld known.now result plan.now }
{
    match plan {
        Plan::Slot(slot) => held_in(known, *slot),
        Plan::Int(_) => Held::Item,
        Plan::Dec(_) => Held::Item,
        Plan::Str(_) => Held::Text,
        Plan::Call(function, parts) => held_by_call(known, *function, parts.as_slice()),
        Plan::Map(_, parts) => texts_if(end_in_text(parts.as_slice())),
        Plan::Sequence(parts) => texts_if(are_strings(parts.as_slice())),
        _ => {
            if gives_nodes(known, plan) {
                Held::Nodes
            } else {
                Held::Anything
            }
        }
    }
}
