//! The plan of each form, where variables are in scope.
ghost use Rattle.std.specs.Prelude.{◌≡◌, ◌≤◌, ◌∷◌, ◌++◌, IfOk, OnOk, map, length};
ghost use Rattle.xq_meaning.specs.declared.normal_forms.CoreClause.TheVariants as clause;
ghost use Rattle.xq_meaning.specs.declared.plans.Plan.TheVariants as plan;
ghost use Rattle.xq_meaning.specs.Meaning.{position_name};
ghost use Rattle.xq_meaning.specs.Same.{IsPlan};
ghost use Rattle.xq_plan.specs.private.Plans as plans;
ghost use Rattle.xq_plan.specs.private.Shapes as shapes;

use crate::copies::{test, text};
use sqlite_items::{Boxed, Items};
use std::alloc::{AllocError, Global};
use xq_atoms::Code;
use xq_expressions::{AllowingEmpty, Function, OrderModifier, Scope, Text};
use xq_meaning::{Core, CoreClause, Operator, Plan, PlanClause, PlanStep};

/// The plan of a normal form.
#[cycle(walk)]
pub fn expression<'a>(
    alloc: Global,
    scope: &mut Scope<'a>,
    core: &'a Core,
) -> Result<Plan, AllocError>
    ensures planned { IfOk result (λ plan. IsPlan scope.old core.now plan) }
    ensures shape { IfOk result (λ plan. shapes.HasShape core.now plan) }
    ensures kept { OnOk result (scope.new ≡ scope.old) }
{
    match core {
        Core::Root => Ok(Plan::Root),
        Core::ContextItem => Ok(Plan::ContextItem),
        Core::Int(value) => Ok(Plan::Int(*value)),
        Core::Dec(value) => Ok(Plan::Dec(*value)),
        Core::Str(value) => Ok(Plan::Str(text(alloc, value)?)),
        Core::Variable(name) => Ok(variable(alloc, scope, name)),
        Core::Sequence(parts) => {
            Ok(Plan::Sequence(expressions(alloc, scope, parts.as_slice())?))
        }
        Core::Or(parts) => Ok(Plan::Or(expressions(alloc, scope, parts.as_slice())?)),
        Core::And(parts) => Ok(Plan::And(expressions(alloc, scope, parts.as_slice())?)),
        Core::Call(function, parts) => {
            Ok(Plan::Call(*function, expressions(alloc, scope, parts.as_slice())?))
        }
        Core::Chain(first, more) => {
            let first = boxed(alloc, scope, first.get())?;
            Ok(Plan::Chain(first, operands(alloc, scope, more.as_slice())?))
        }
        Core::Unary(signs, part) => {
            let signs = Items::from_slice(alloc, signs.as_slice())?;
            Ok(Plan::Unary(signs, boxed(alloc, scope, part.get())?))
        }
        Core::Step(axis, tested, predicates) => {
            // The list first: where the test is refused, it is let go in one call.
            let predicates = expressions(alloc, scope, predicates.as_slice())?;
            let tested = test(alloc, tested)?;
            Ok(Plan::Step(*axis, tested, predicates))
        }
        Core::Filter(start, predicates) => {
            let start = boxed(alloc, scope, start.get())?;
            Ok(Plan::Filter(start, expressions(alloc, scope, predicates.as_slice())?))
        }
        Core::Path(start, parts) => {
            let start = boxed(alloc, scope, start.get())?;
            Ok(Plan::Path(start, steps(alloc, scope, parts.as_slice())?))
        }
        Core::If(condition, positive, negative) => {
            let condition = boxed(alloc, scope, condition.get())?;
            let positive = boxed(alloc, scope, positive.get())?;
            let negative = boxed(alloc, scope, negative.get())?;
            Ok(conditional(condition, positive, negative))
        }
        Core::Arrow(first, list) => {
            let first = boxed(alloc, scope, first.get())?;
            Ok(Plan::Arrow(first, calls(alloc, scope, list.as_slice())?))
        }
        Core::Map(start, parts) => {
            let start = boxed(alloc, scope, start.get())?;
            Ok(Plan::Map(start, expressions(alloc, scope, parts.as_slice())?))
        }
        Core::Named(node, name, content) => {
            let name = boxed(alloc, scope, name.get())?;
            Ok(Plan::Named(*node, name, boxed(alloc, scope, content.get())?))
        }
        Core::Unnamed(node, content) => {
            Ok(Plan::Unnamed(*node, boxed(alloc, scope, content.get())?))
        }
        Core::Flwor(list, part) => {
            let start = scope.len();
            let list = clauses(alloc, scope, start, list.as_slice())?;
            let part = boxed(alloc, scope, part.get())?;
            scope.leave(start);
            Ok(Plan::Flwor(list, part))
        }
        Core::Quantified(quantifier, bindings, part) => {
            let outer = scope.len();
            let sequences = ranges(alloc, scope, bindings.as_slice())?;
            let part = boxed(alloc, scope, part.get())?;
            scope.leave(outer);
            Ok(Plan::Quantified(*quantifier, sequences, part))
        }
    }
}

/// The plan of a normal form, as a part of another.
#[cycle(walk)]
fn boxed<'a>(
    alloc: Global,
    scope: &mut Scope<'a>,
    core: &'a Core,
) -> Result<Boxed<Plan>, AllocError>
    ensures planned { IfOk result (λ plan. IsPlan scope.old core.now plan) }
    ensures shape { IfOk result (λ plan. shapes.HasShape core.now plan) }
    ensures kept { OnOk result (scope.new ≡ scope.old) }
{
    Boxed::new(alloc, expression(alloc, scope, core)?)
}

/// A test and two branches.
fn conditional(condition: Boxed<Plan>, positive: Boxed<Plan>, negative: Boxed<Plan>) -> Plan
    ensures { result ≡ plan.If condition positive negative }
{
    Plan::If(condition, positive, negative)
}

/// A variable: its slot, or nothing where it is not in scope.
fn variable(alloc: Global, scope: &Scope<'_>, name: &Text) -> Plan
    ensures { plans.IsVariable scope.now name.now result }
{
    match scope.slot(name.as_str()) {
        Some(slot) => Plan::Slot(slot),
        None => Plan::Sequence(Items::new(alloc)),
    }
}

/// The plan of each normal form.
#[cycle(walk)]
fn expressions<'a>(
    alloc: Global,
    scope: &mut Scope<'a>,
    cores: &'a [Core],
) -> Result<Items<Plan>, AllocError>
    ensures planned { IfOk result (λ found. plans.AreAll (IsPlan scope.old) cores.now found) }
    ensures literals { IfOk result (λ found. plans.AreAll shapes.IsLiteral cores.now found) }
    ensures kept { OnOk result (scope.new ≡ scope.old) }
{
    let mut found = Items::new(alloc);
    for core in cores {
        found.push(expression(alloc, scope, core)?)?;
    }
    Ok(found)
}

/// The calls after arrows.
#[cycle(walk)]
fn calls<'a>(
    alloc: Global,
    scope: &mut Scope<'a>,
    list: &'a [(Function, Items<Core>)],
) -> Result<Items<(Function, Items<Plan>)>, AllocError>
    ensures planned { IfOk result
        (λ found. plans.AreAll (plans.IsNextCall scope.old) list.now found) }
    ensures kept { OnOk result (scope.new ≡ scope.old) }
{
    let mut found = Items::new(alloc);
    for (function, arguments) in list {
        found.push((*function, expressions(alloc, scope, arguments.as_slice())?))?;
    }
    Ok(found)
}

/// The operands of a chain after the first, with their operators.
#[cycle(walk)]
fn operands<'a>(
    alloc: Global,
    scope: &mut Scope<'a>,
    list: &'a [(Operator, Core)],
) -> Result<Items<(Operator, Plan)>, AllocError>
    ensures planned { IfOk result
        (λ found. plans.AreAll (plans.IsOperand scope.old) list.now found) }
    ensures kept { OnOk result (scope.new ≡ scope.old) }
{
    let mut found = Items::new(alloc);
    for (operator, operand) in list {
        found.push((*operator, expression(alloc, scope, operand)?))?;
    }
    Ok(found)
}

/// What follows each slash of a path.
#[cycle(walk)]
fn steps<'a>(
    alloc: Global,
    scope: &mut Scope<'a>,
    parts: &'a [Core],
) -> Result<Items<PlanStep>, AllocError>
    ensures planned { IfOk result (λ found. plans.AreAll (plans.IsStep scope.old) parts.now found) }
    ensures scans { IfOk result (λ found. plans.AreAll shapes.IsScan parts.now found) }
    ensures kept { OnOk result (scope.new ≡ scope.old) }
{
    let mut found = Items::new(alloc);
    for part in parts {
        found.push(step(expression(alloc, scope, part)?))?;
    }
    Ok(found)
}

/// What follows a slash: a scan, where it is a step without predicates.
fn step(part: Plan) -> PlanStep
    ensures same { plans.IsScanOrPart part result }
    ensures scan { shapes.BecomesScan part result }
{
    match part {
        Plan::Step(axis, tested, predicates) => {
            if predicates.is_empty() {
                return PlanStep::Scan(axis, tested);
            }
            PlanStep::Each(Plan::Step(axis, tested, predicates))
        }
        part => PlanStep::Each(part),
    }
}

/// What each variable of a quantified expression ranges over; they stay in scope.
#[cycle(walk)]
fn ranges<'a>(
    alloc: Global,
    scope: &mut Scope<'a>,
    bindings: &'a [(Text, Core)],
) -> Result<Items<Plan>, AllocError>
    ensures planned { IfOk result (λ found. plans.AreRanges scope.old bindings.now found) }
    ensures bound { OnOk result (scope.new ≡ scope.old ++ map (λ b. b.0) bindings.now) }
{
    let mut found = Items::new(alloc);
    for (variable, sequence) in bindings {
        found.push(expression(alloc, scope, sequence)?)?;
        scope.bind(variable.as_str())?;
    }
    Ok(found)
}

/// The clauses of a FLWOR, whose variables are those from a place on; they stay in scope.
#[cycle(walk)]
fn clauses<'a>(
    alloc: Global,
    scope: &mut Scope<'a>,
    start: usize,
    list: &'a [CoreClause],
) -> Result<Items<PlanClause>, AllocError>
    requires { start ≤ length scope.old }
    ensures planned { IfOk result
        (λ found. plans.AreClauses start scope.old list.now found scope.new) }
    ensures outer { OnOk result (plans.Extends start scope.old scope.new) }
{
    let mut found = Items::new(alloc);
    for next in list {
        found.push(clause(alloc, scope, start, next)?)?;
    }
    Ok(found)
}

/// A clause of a FLWOR, whose variables are those from a place on.
#[cycle(walk)]
fn clause<'a>(
    alloc: Global,
    scope: &mut Scope<'a>,
    start: usize,
    next: &'a CoreClause,
) -> Result<PlanClause, AllocError>
    requires { start ≤ length scope.old }
    ensures planned { IfOk result
        (λ found. plans.IsClause start scope.old next.now found scope.new) }
    ensures outer { OnOk result (plans.Extends start scope.old scope.new) }
{
    match next {
        CoreClause::For(variable, empties, at, sequence) => {
            range(alloc, scope, start, variable, *empties, at, sequence)
        }
        CoreClause::Let(variable, value) => assignment(alloc, scope, start, variable, value),
        CoreClause::Where(condition) => {
            Ok(PlanClause::Where(expression(alloc, scope, condition)?))
        }
        CoreClause::Group(variables) => group(alloc, scope, start, variables.as_slice()),
        CoreClause::Order(specs) => Ok(PlanClause::Order(keys(alloc, scope, specs.as_slice())?)),
        CoreClause::Count(variable) => count(scope, start, variable),
    }
}

/// A variable that ranges over a sequence, and its position.
#[cycle(walk)]
fn range<'a>(
    alloc: Global,
    scope: &mut Scope<'a>,
    start: usize,
    variable: &'a Text,
    empties: AllowingEmpty,
    at: &'a Option<Text>,
    sequence: &'a Core,
) -> Result<PlanClause, AllocError>
    requires { start ≤ length scope.old }
    ensures planned { IfOk result (λ found. plans.IsClause start scope.old
        (clause.For variable.now empties at.now sequence.now) found scope.new) }
    ensures outer { OnOk result (plans.Extends start scope.old scope.new) }
{
    let sequence = expression(alloc, scope, sequence)?;
    bind(scope, variable, at)?;
    Ok(PlanClause::For(empties, at.is_some(), sequence))
}

/// Brings a variable into scope, and its position, where it has one.
fn bind<'a>(
    scope: &mut Scope<'a>,
    variable: &'a Text,
    at: &'a Option<Text>,
) -> Result<(), AllocError>
    ensures { OnOk result (scope.new ≡ scope.old ++ variable.now ∷ position_name at.now) }
{
    scope.bind(variable.as_str())?;
    match at {
        Some(at) => scope.bind(at.as_str()),
        None => Ok(()),
    }
}

/// A variable that has a value.
#[cycle(walk)]
fn assignment<'a>(
    alloc: Global,
    scope: &mut Scope<'a>,
    start: usize,
    variable: &'a Text,
    value: &'a Core,
) -> Result<PlanClause, AllocError>
    requires { start ≤ length scope.old }
    ensures planned { IfOk result (λ found. plans.IsClause start scope.old
        (clause.Let variable.now value.now) found scope.new) }
    ensures outer { OnOk result (plans.Extends start scope.old scope.new) }
{
    let value = expression(alloc, scope, value)?;
    scope.bind(variable.as_str())?;
    Ok(PlanClause::Let(value))
}

/// A variable for the number of each tuple.
fn count<'a>(
    scope: &mut Scope<'a>,
    start: usize,
    variable: &'a Text,
) -> Result<PlanClause, AllocError>
    requires { start ≤ length scope.old }
    ensures planned { IfOk result (λ found. plans.IsClause start scope.old
        (clause.Count variable.now) found scope.new) }
    ensures outer { OnOk result (plans.Extends start scope.old scope.new) }
{
    let number = variable.as_str();
    scope.bind(number)?;
    Ok(PlanClause::Count)
}

/// Groups by variables of a FLWOR. One that it doesn't bind is refused.
fn group(
    alloc: Global,
    scope: &Scope<'_>,
    start: usize,
    variables: &[Text],
) -> Result<PlanClause, AllocError>
    requires { start ≤ length scope.now }
    ensures { IfOk result (λ found. plans.IsGroup start scope.now variables.now found) }
{
    let mut slots = Items::new(alloc);
    for variable in variables {
        let Some(slot) = scope.slot_from(start, variable.as_str()) else {
            return Ok(PlanClause::Refused(Code::XQST0094));
        };
        slots.push(slot)?;
    }
    Ok(PlanClause::Group(slots))
}

/// The keys of `order by`.
#[cycle(walk)]
fn keys<'a>(
    alloc: Global,
    scope: &mut Scope<'a>,
    specs: &'a [(Core, OrderModifier)],
) -> Result<Items<(Plan, OrderModifier)>, AllocError>
    ensures planned { IfOk result (λ found. plans.AreAll (plans.IsKey scope.old) specs.now found) }
    ensures kept { OnOk result (scope.new ≡ scope.old) }
{
    let mut found = Items::new(alloc);
    for (key, modifier) in specs {
        found.push((expression(alloc, scope, key)?, *modifier))?;
    }
    Ok(found)
}
