//! Parts that read no slot but those outside a FLWOR expression, as their form tells it (XQuery 3.1,
//! section 3.12: the scope of variables).
ghost use Rattle.std.specs.Prelude.{◌≡◌, true};
ghost use Rattle.std.specs.List.{AllByRecursion};
ghost use Rattle.xq_optimise.specs.private.Joins.{IsOutside, OperandOutside, StepOutside};

use xq_meaning::{Operator, Plan, PlanStep};

/// Whether a part binds no variable, makes no node, and reads no slot but the first ones, so many.
#[cycle(outside)]
pub fn reads_outside(outer: usize, plan: &Plan) -> bool
    ensures { result ≡ true → IsOutside outer plan.now }
{
    match plan {
        Plan::Int(_) => true,
        Plan::Dec(_) => true,
        Plan::Str(_) => true,
        Plan::ContextItem => true,
        Plan::Root => true,
        Plan::Slot(slot) => *slot < outer,
        Plan::Call(_, parts) => all_read_outside(outer, parts.as_slice()),
        Plan::Sequence(parts) => all_read_outside(outer, parts.as_slice()),
        Plan::Or(parts) => all_read_outside(outer, parts.as_slice()),
        Plan::And(parts) => all_read_outside(outer, parts.as_slice()),
        Plan::Unary(_, part) => reads_outside(outer, part.get()),
        Plan::If(test, positive, negative) => {
            reads_outside(outer, test.get())
                && reads_outside(outer, positive.get())
                && reads_outside(outer, negative.get())
        }
        Plan::Chain(first, rest) => {
            reads_outside(outer, first.get()) && operands_read_outside(outer, rest.as_slice())
        }
        Plan::Map(start, parts) => {
            reads_outside(outer, start.get()) && all_read_outside(outer, parts.as_slice())
        }
        Plan::Filter(start, predicates) => {
            reads_outside(outer, start.get()) && all_read_outside(outer, predicates.as_slice())
        }
        Plan::Step(_, _, predicates) => all_read_outside(outer, predicates.as_slice()),
        Plan::Path(start, steps) => {
            reads_outside(outer, start.get()) && steps_read_outside(outer, steps.as_slice())
        }
        _ => false,
    }
}

/// Whether each part does.
#[cycle(outside)]
pub fn all_read_outside(outer: usize, parts: &[Plan]) -> bool
    ensures { result ≡ true → AllByRecursion (IsOutside outer) parts.now }
{
    for part in parts {
        if !reads_outside(outer, part) {
            return false;
        }
    }
    true
}

/// Whether each operand of a chain does.
#[cycle(outside)]
fn operands_read_outside(outer: usize, operands: &[(Operator, Plan)]) -> bool
    ensures { result ≡ true → AllByRecursion (OperandOutside outer) operands.now }
{
    for (_, part) in operands {
        if !reads_outside(outer, part) {
            return false;
        }
    }
    true
}

/// Whether what follows each slash does.
#[cycle(outside)]
pub fn steps_read_outside(outer: usize, steps: &[PlanStep]) -> bool
    ensures { result ≡ true → AllByRecursion (StepOutside outer) steps.now }
{
    for step in steps {
        if !step_reads_outside(outer, step) {
            return false;
        }
    }
    true
}

/// Whether what follows a slash does.
#[cycle(outside)]
fn step_reads_outside(outer: usize, step: &PlanStep) -> bool
    ensures { result ≡ true → StepOutside outer step.now }
{
    match step {
        PlanStep::Scan(_, _) => true,
        PlanStep::Each(part) => reads_outside(outer, part),
    }
}
