//! The walk over an expression, in the order of its text.
ghost use Rattle.std.specs.Prelude.{◌≡◌, ◌≤◌, ◌++◌, ℕ, List, length, drop, map, OnOk};
ghost use Rattle.xq_statics.specs.Gives.{Judges};
ghost use Rattle.xq_statics.specs.Statics.{places, each, in_turn, assigned, counting, ranging};
ghost use Rattle.xq_statics.specs.private.Parts as parts;
ghost use Rattle.xq_statics.specs.private.Parts.{fault, binding_fault};

use crate::names::{axis, call, grouping, name, position, variable};
use sqlite_items::Items;
use xq_atoms::Fault;
use xq_expressions::{
    AllowingEmpty, Clause, ConstructorName, Expr, GroupSpec, OrderModifier, ProductOperator, QName,
    Scope, Separator, SetOperator, Sign, Step,
};

/// The places of an expression.
#[cycle(walk)]
pub fn expression<'a>(scope: &mut Scope<'a>, expr: &'a Expr) -> Result<(), Fault>
    ensures judged { Judges result (fault (places expr.now) scope.old) }
    ensures kept { OnOk result (scope.new ≡ scope.old) }
{
    match expr {
        Expr::Root | Expr::Int(_) | Expr::Dec(_) | Expr::Str(_) | Expr::ContextItem => Ok(()),
        Expr::Variable(name) => variable(scope, name),
        Expr::Call(name, arguments) => {
            call(name, arguments.as_slice().len())?;
            expressions(scope, arguments.as_slice())
        }
        Expr::Sequence(parts)
        | Expr::Or(parts)
        | Expr::And(parts)
        | Expr::Concat(parts)
        | Expr::Union(parts) => expressions(scope, parts.as_slice()),
        Expr::Unary(_, part) | Expr::Unnamed(_, part) => expression(scope, part.get()),
        Expr::Comparison(left, _, right) | Expr::Range(left, right) => {
            expression(scope, left.get())?;
            expression(scope, right.get())
        }
        Expr::Sum(first, more) => {
            expression(scope, first.get())?;
            addends(scope, more.as_slice())
        }
        Expr::Product(first, more) => {
            expression(scope, first.get())?;
            factors(scope, more.as_slice())
        }
        Expr::SetOperation(first, more) => {
            expression(scope, first.get())?;
            set_operands(scope, more.as_slice())
        }
        Expr::Arrow(first, calls) => {
            expression(scope, first.get())?;
            arrow_calls(scope, calls.as_slice())
        }
        Expr::Map(first, more) => {
            expression(scope, first.get())?;
            expressions(scope, more.as_slice())
        }
        Expr::Path(_, first, more) => {
            step(scope, first.get())?;
            steps(scope, more.as_slice())
        }
        Expr::If(condition, positive, negative) => {
            expression(scope, condition.get())?;
            expression(scope, positive.get())?;
            expression(scope, negative.get())
        }
        Expr::Named(_, name, content) => {
            constructor_name(scope, name)?;
            expression(scope, content.get())
        }
        Expr::Flwor(list, part) => {
            let start = scope.len();
            clauses(scope, start, list.as_slice())?;
            expression(scope, part.get())?;
            scope.leave(start);
            Ok(())
        }
        Expr::Quantified(_, bindings, part) => {
            let outer = scope.len();
            assignments(scope, bindings.as_slice())?;
            expression(scope, part.get())?;
            scope.leave(outer);
            Ok(())
        }
    }
}

/// The places of each expression.
#[cycle(walk)]
fn expressions<'a>(scope: &mut Scope<'a>, exprs: &'a [Expr]) -> Result<(), Fault>
    ensures judged { Judges result (fault (each (map places exprs.now)) scope.old) }
    ensures kept { OnOk result (scope.new ≡ scope.old) }
{
    for expr in exprs {
        expression(scope, expr)?;
    }
    Ok(())
}

/// The places of the operands of a sum after the first.
#[cycle(walk)]
fn addends<'a>(scope: &mut Scope<'a>, operands: &'a [(Sign, Expr)]) -> Result<(), Fault>
    ensures judged { Judges result (fault (parts.operands operands.now) scope.old) }
    ensures kept { OnOk result (scope.new ≡ scope.old) }
{
    for (_, operand) in operands {
        expression(scope, operand)?;
    }
    Ok(())
}

/// The places of the operands of a product after the first.
#[cycle(walk)]
fn factors<'a>(scope: &mut Scope<'a>, operands: &'a [(ProductOperator, Expr)]) -> Result<(), Fault>
    ensures judged { Judges result (fault (parts.operands operands.now) scope.old) }
    ensures kept { OnOk result (scope.new ≡ scope.old) }
{
    for (_, operand) in operands {
        expression(scope, operand)?;
    }
    Ok(())
}

/// The places of the operands of intersections and differences after the first.
#[cycle(walk)]
fn set_operands<'a>(scope: &mut Scope<'a>, operands: &'a [(SetOperator, Expr)]) -> Result<(), Fault>
    ensures judged { Judges result (fault (parts.operands operands.now) scope.old) }
    ensures kept { OnOk result (scope.new ≡ scope.old) }
{
    for (_, operand) in operands {
        expression(scope, operand)?;
    }
    Ok(())
}

/// The places of the calls after each `=>`, which have one argument more than stand in them.
#[cycle(walk)]
fn arrow_calls<'a>(scope: &mut Scope<'a>, calls: &'a [(QName, Items<Expr>)]) -> Result<(), Fault>
    ensures judged { Judges result (fault (parts.arrow_calls calls.now) scope.old) }
    ensures kept { OnOk result (scope.new ≡ scope.old) }
{
    for (name, arguments) in calls {
        let arguments = arguments.as_slice();
        call(name, arguments.len() + 1)?;
        expressions(scope, arguments)?;
    }
    Ok(())
}

/// The places of the steps of a path after the first.
#[cycle(walk)]
fn steps<'a>(scope: &mut Scope<'a>, steps: &'a [(Separator, Step)]) -> Result<(), Fault>
    ensures judged { Judges result (fault (parts.steps steps.now) scope.old) }
    ensures kept { OnOk result (scope.new ≡ scope.old) }
{
    for (_, next) in steps {
        step(scope, next)?;
    }
    Ok(())
}

/// The places of a step: those of its test or its expression, and of its predicates.
#[cycle(walk)]
fn step<'a>(scope: &mut Scope<'a>, step: &'a Step) -> Result<(), Fault>
    ensures judged { Judges result (fault (parts.step step.now) scope.old) }
    ensures kept { OnOk result (scope.new ≡ scope.old) }
{
    match step {
        Step::Axis(along, predicates) => {
            axis(along)?;
            expressions(scope, predicates.as_slice())
        }
        Step::Primary(primary, predicates) => {
            expression(scope, primary.get())?;
            expressions(scope, predicates.as_slice())
        }
    }
}

/// The places of a constructed node's name.
#[cycle(walk)]
fn constructor_name<'a>(scope: &mut Scope<'a>, written: &'a ConstructorName) -> Result<(), Fault>
    ensures judged { Judges result (fault (parts.constructor_name written.now) scope.old) }
    ensures kept { OnOk result (scope.new ≡ scope.old) }
{
    match written {
        ConstructorName::Literal(literal) => name(literal),
        ConstructorName::Computed(part) => expression(scope, part.get()),
    }
}

/// The places of clauses, where a FLWOR has bound the variables from `start` on.
#[cycle(walk)]
fn clauses<'a>(scope: &mut Scope<'a>, start: usize, clauses: &'a [Clause]) -> Result<(), Fault>
    requires { start ≤ length scope.old }
    ensures judged { Judges result
        (binding_fault (in_turn (map parts.clause clauses.now)) scope.old (drop start scope.old)) }
    ensures bound { OnOk result
        (scope.new ≡ scope.old ++ (in_turn (map parts.clause clauses.now)).binds) }
{
    for next in clauses {
        clause(scope, start, next)?;
    }
    Ok(())
}

/// The places of a clause.
#[cycle(walk)]
fn clause<'a>(scope: &mut Scope<'a>, start: usize, clause: &'a Clause) -> Result<(), Fault>
    requires { start ≤ length scope.old }
    ensures judged { Judges result
        (binding_fault (parts.clause clause.now) scope.old (drop start scope.old)) }
    ensures bound { OnOk result (scope.new ≡ scope.old ++ (parts.clause clause.now).binds) }
{
    match clause {
        Clause::For(bindings) => ranges(scope, bindings.as_slice()),
        Clause::Let(bindings) => assignments(scope, bindings.as_slice()),
        Clause::Filter(condition) => expression(scope, condition),
        Clause::Group(specs) => group_specs(scope, start, specs.as_slice()),
        Clause::Order(specs) => keys(scope, specs.as_slice()),
        Clause::Count(variable) => count(scope, variable),
    }
}

/// The places of variables with their values; each is in scope after its value.
#[cycle(walk)]
fn assignments<'a>(scope: &mut Scope<'a>, bindings: &'a [(QName, Expr)]) -> Result<(), Fault>
    ensures judged { (before : List (List ℕ)) → Judges result
        (binding_fault (parts.assignments bindings.now) scope.old before) }
    ensures bound { OnOk result (scope.new ≡ scope.old ++ (parts.assignments bindings.now).binds) }
{
    for (variable, value) in bindings {
        assignment(scope, variable, value)?;
    }
    Ok(())
}

/// The places of a variable with its value.
#[cycle(walk)]
fn assignment<'a>(scope: &mut Scope<'a>, variable: &'a QName, value: &'a Expr) -> Result<(), Fault>
    ensures judged { (before : List (List ℕ)) → Judges result
        (binding_fault (assigned variable.now (places value.now)) scope.old before) }
    ensures bound { OnOk result
        (scope.new ≡ scope.old ++ (assigned variable.now (places value.now)).binds) }
{
    name(variable)?;
    expression(scope, value)?;
    Ok(scope.bind(variable.local.as_str())?)
}

/// The places of the variables of `for`, each with the sequence it ranges over.
#[cycle(walk)]
fn ranges<'a>(
    scope: &mut Scope<'a>,
    bindings: &'a [(QName, AllowingEmpty, Option<QName>, Expr)],
) -> Result<(), Fault>
    ensures judged { (before : List (List ℕ)) → Judges result
        (binding_fault (parts.ranges bindings.now) scope.old before) }
    ensures bound { OnOk result (scope.new ≡ scope.old ++ (parts.ranges bindings.now).binds) }
{
    for (variable, _, at, sequence) in bindings {
        range(scope, variable, at, sequence)?;
    }
    Ok(())
}

/// The places of a variable of `for`, its positional variable and its sequence.
#[cycle(walk)]
fn range<'a>(
    scope: &mut Scope<'a>,
    variable: &'a QName,
    at: &'a Option<QName>,
    sequence: &'a Expr,
) -> Result<(), Fault>
    ensures judged { (before : List (List ℕ)) → Judges result
        (binding_fault (ranging variable.now at.now (places sequence.now)) scope.old before) }
    ensures bound { OnOk result
        (scope.new ≡ scope.old ++ (ranging variable.now at.now (places sequence.now)).binds) }
{
    name(variable)?;
    if let Some(at) = at {
        position(at, variable)?;
    }
    expression(scope, sequence)?;
    scope.bind(variable.local.as_str())?;
    if let Some(at) = at {
        scope.bind(at.local.as_str())?;
    }
    Ok(())
}

/// The places of grouping variables.
#[cycle(walk)]
fn group_specs<'a>(scope: &mut Scope<'a>, start: usize, specs: &'a [GroupSpec]) -> Result<(), Fault>
    requires { start ≤ length scope.old }
    ensures judged { Judges result (binding_fault
        (in_turn (map parts.group_spec specs.now)) scope.old (drop start scope.old)) }
    ensures bound { OnOk result
        (scope.new ≡ scope.old ++ (in_turn (map parts.group_spec specs.now)).binds) }
{
    for spec in specs {
        group_spec(scope, start, spec)?;
    }
    Ok(())
}

/// The places of a grouping variable, and of the value that it may be given.
#[cycle(walk)]
fn group_spec<'a>(scope: &mut Scope<'a>, start: usize, spec: &'a GroupSpec) -> Result<(), Fault>
    requires { start ≤ length scope.old }
    ensures judged { Judges result
        (binding_fault (parts.group_spec spec.now) scope.old (drop start scope.old)) }
    ensures bound { OnOk result (scope.new ≡ scope.old ++ (parts.group_spec spec.now).binds) }
{
    match spec {
        GroupSpec::Variable(variable) => grouping(scope, start, variable),
        GroupSpec::Assigned(variable, value) => assignment(scope, variable, value),
    }
}

/// The place of the variable of `count`, which is in scope after it.
fn count<'a>(scope: &mut Scope<'a>, variable: &'a QName) -> Result<(), Fault>
    ensures judged { (before : List (List ℕ)) → Judges result
        (binding_fault (counting variable.now) scope.old before) }
    ensures bound { OnOk result (scope.new ≡ scope.old ++ (counting variable.now).binds) }
{
    name(variable)?;
    let number = variable.local.as_str();
    Ok(scope.bind(number)?)
}

/// The places of the keys of `order by`.
#[cycle(walk)]
fn keys<'a>(scope: &mut Scope<'a>, specs: &'a [(Expr, OrderModifier)]) -> Result<(), Fault>
    ensures judged { Judges result (fault (parts.keys specs.now) scope.old) }
    ensures kept { OnOk result (scope.new ≡ scope.old) }
{
    for (key, _) in specs {
        expression(scope, key)?;
    }
    Ok(())
}
