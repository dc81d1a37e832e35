//! Parts that give the same whatever the focus is, or whatever the position of the node in focus is,
//! as their form tells it (XQuery 3.1, section 2.1.2: the focus).
ghost use Rattle.std.specs.Prelude.{◌≡◌, true};
ghost use Rattle.std.specs.List.{AllByRecursion};
ghost use Rattle.xq_optimise.specs.Sure.{IgnoresBy, IgnoresFocus, IgnoresPosition};
ghost use Rattle.xq_optimise.specs.private.Invariants.{OperandIgnores};

use xq_meaning::{Operator, Plan};

/// Whether the part binds no variable, and gives the same whatever the focus is.
pub fn ignores_focus(plan: &Plan) -> bool
    ensures { result ≡ true → IgnoresFocus plan.now }
{
    ignores(false, plan)
}

/// Whether the part binds no variable, and gives the same whatever the position of the node in focus
/// is.
pub fn ignores_position(plan: &Plan) -> bool
    ensures { result ≡ true → IgnoresPosition plan.now }
{
    ignores(true, plan)
}

/// Whether the part binds no variable, and gives the same with any two focuses, or with any two on
/// the same node.
#[cycle(focus)]
fn ignores(at_node: bool, plan: &Plan) -> bool
    ensures { result ≡ true → IgnoresBy at_node plan.now }
{
    match plan {
        Plan::Int(_) => true,
        Plan::Dec(_) => true,
        Plan::Str(_) => true,
        Plan::Slot(_) => true,
        Plan::ContextItem => at_node,
        Plan::Step(_, _, _) => at_node,
        Plan::Path(start, _) => ignores(at_node, start.get()),
        Plan::Filter(start, _) => ignores(at_node, start.get()),
        Plan::Map(start, _) => ignores(at_node, start.get()),
        Plan::Call(_, parts) => !parts.is_empty() && all_ignore(at_node, parts.as_slice()),
        Plan::Sequence(parts) => all_ignore(at_node, parts.as_slice()),
        Plan::Chain(first, rest) => {
            ignores(at_node, first.get()) && operands_ignore(at_node, rest.as_slice())
        }
        _ => false,
    }
}

/// Whether each part does.
#[cycle(focus)]
fn all_ignore(at_node: bool, parts: &[Plan]) -> bool
    ensures { result ≡ true → AllByRecursion (IgnoresBy at_node) parts.now }
{
    for part in parts {
        if !ignores(at_node, part) {
            return false;
        }
    }
    true
}

/// Whether each operand of a chain does.
#[cycle(focus)]
fn operands_ignore(at_node: bool, operands: &[(Operator, Plan)]) -> bool
    ensures { result ≡ true → AllByRecursion (OperandIgnores at_node) operands.now }
{
    for (_, part) in operands {
        if !ignores(at_node, part) {
            return false;
        }
    }
    true
}
