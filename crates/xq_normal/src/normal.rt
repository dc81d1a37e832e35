//! The normal form of each form of expression. Where two parts are made, lists and boxes come first:
//! what is let go where the second is refused is then one call, and no choice among all forms.
ghost use Rattle.std.specs.Prelude.{◌≡◌, [], ◌∷◌, IfOk, map};
ghost use Rattle.xq_expressions.specs.declared.operators.PathStart.TheVariants.{Relative};
ghost use Rattle.xq_meaning.specs.declared.operators.Operator.TheVariants as operator;
ghost use Rattle.xq_meaning.specs.Meaning as meaning;
ghost use Rattle.xq_meaning.specs.Meaning.{mean, name_mean, clause_mean, group_mean, step_mean};
ghost use Rattle.xq_meaning.specs.CoreMeaning.{core_mean, core_clause_mean};
ghost use Rattle.xq_normal.specs.private.Parts as parts;
ghost use Rattle.xq_normal.specs.private.Shapes as shapes;

use crate::clause_parts::{append_clauses, push_let};
use crate::names::{axis_step, called, local, text};
use crate::path_parts::{push_step, simple_map};
use sqlite_items::{Boxed, Items};
use std::alloc::{AllocError, Global};
use xq_expressions::{
    AllowingEmpty, Clause, ConstructorName, Expr, Function, GroupSpec, OrderModifier, PathStart,
    ProductOperator, QName, Separator, SetOperator, Sign, Step, Text,
};
use xq_meaning::{Core, CoreClause, Operator};

/// The normal form of an expression.
#[cycle(normal)]
pub fn expression(alloc: Global, expr: &Expr) -> Result<Core, AllocError>
    ensures same { IfOk result (λ core. core_mean core ≡ mean expr.now) }
    ensures shape { IfOk result (λ core. shapes.HasShape expr.now core) }
{
    match expr {
        Expr::Root => Ok(Core::Root),
        Expr::Int(value) => Ok(Core::Int(*value)),
        Expr::Dec(value) => Ok(Core::Dec(*value)),
        Expr::Str(value) => Ok(Core::Str(text(alloc, value)?)),
        Expr::ContextItem => Ok(Core::ContextItem),
        Expr::Variable(name) => Ok(Core::Variable(text(alloc, &name.local)?)),
        Expr::Call(name, arguments) => call(alloc, name, arguments.as_slice()),
        Expr::Sequence(parts) => Ok(Core::Sequence(expressions(alloc, parts.as_slice())?)),
        Expr::Or(parts) => Ok(Core::Or(expressions(alloc, parts.as_slice())?)),
        Expr::And(parts) => Ok(Core::And(expressions(alloc, parts.as_slice())?)),
        Expr::Concat(parts) => joined(alloc, Operator::Concat, parts.as_slice()),
        Expr::Union(parts) => joined(alloc, Operator::Union, parts.as_slice()),
        Expr::Comparison(left, operator, right) => {
            let left = boxed(alloc, left.get())?;
            let operator = Operator::Comparison(*operator);
            operation(alloc, left, operator, expression(alloc, right.get())?)
        }
        Expr::Range(left, right) => {
            let left = boxed(alloc, left.get())?;
            operation(
                alloc,
                left,
                Operator::Range,
                expression(alloc, right.get())?,
            )
        }
        Expr::Sum(first, more) => {
            let first = boxed(alloc, first.get())?;
            Ok(Core::Chain(first, addends(alloc, more.as_slice())?))
        }
        Expr::Product(first, more) => {
            let first = boxed(alloc, first.get())?;
            Ok(Core::Chain(first, factors(alloc, more.as_slice())?))
        }
        Expr::SetOperation(first, more) => {
            let first = boxed(alloc, first.get())?;
            Ok(Core::Chain(first, set_operands(alloc, more.as_slice())?))
        }
        Expr::Unary(signs, part) => {
            let signs = Items::from_slice(alloc, signs.as_slice())?;
            Ok(Core::Unary(signs, boxed(alloc, part.get())?))
        }
        Expr::Arrow(first, calls) => {
            let first = expression(alloc, first.get())?;
            arrow(alloc, first, calls.as_slice())
        }
        Expr::Map(first, more) => {
            let first = boxed(alloc, first.get())?;
            Ok(simple_map(first, expressions(alloc, more.as_slice())?))
        }
        Expr::Path(start, first, more) => {
            let later = steps(alloc, more.as_slice())?;
            let first = step(alloc, first.get())?;
            path(alloc, *start, first, later)
        }
        Expr::If(condition, positive, negative) => {
            let condition = boxed(alloc, condition.get())?;
            let positive = boxed(alloc, positive.get())?;
            Ok(Core::If(condition, positive, boxed(alloc, negative.get())?))
        }
        Expr::Named(node, name, content) => {
            let name = constructor_name(alloc, name)?;
            Ok(Core::Named(*node, name, boxed(alloc, content.get())?))
        }
        Expr::Unnamed(node, content) => { Ok(Core::Unnamed(*node, boxed(alloc, content.get())?)) }
        Expr::Flwor(list, part) => {
            let list = clauses(alloc, list.as_slice())?;
            Ok(Core::Flwor(list, boxed(alloc, part.get())?))
        }
        Expr::Quantified(quantifier, list, part) => {
            let list = bindings(alloc, list.as_slice())?;
            Ok(Core::Quantified(*quantifier, list, boxed(alloc, part.get())?))
        }
    }
}

/// The normal form of an expression, as a part of another.
#[cycle(normal)]
fn boxed(alloc: Global, expr: &Expr) -> Result<Boxed<Core>, AllocError>
    ensures { IfOk result (λ core. core_mean core ≡ mean expr.now) }
{
    Boxed::new(alloc, expression(alloc, expr)?)
}

/// The normal form of each expression.
#[cycle(normal)]
fn expressions(alloc: Global, exprs: &[Expr]) -> Result<Items<Core>, AllocError>
    ensures same { IfOk result (λ cores. map core_mean cores ≡ map mean exprs.now) }
    ensures literals { IfOk result (λ cores. shapes.StayLiterals exprs.now cores) }
{
    let mut cores = Items::new(alloc);
    for expr in exprs {
        cores.push(expression(alloc, expr)?)?;
    }
    Ok(cores)
}

/// Operands with one operator between them.
#[cycle(normal)]
fn joined(alloc: Global, operator: Operator, exprs: &[Expr]) -> Result<Core, AllocError>
    ensures { IfOk result
        (λ core. core_mean core ≡ meaning.joined_by operator (map mean exprs.now)) }
{
    match exprs {
        [] => Ok(Core::Sequence(Items::new(alloc))),
        [first, more @ ..] => {
            let first = boxed(alloc, first)?;
            Ok(Core::Chain(first, following(alloc, operator, more)?))
        }
    }
}

/// The operands after the first, with their operator.
#[cycle(normal)]
fn following(
    alloc: Global,
    operator: Operator,
    exprs: &[Expr],
) -> Result<Items<(Operator, Core)>, AllocError>
    ensures { IfOk result
        (λ operands. parts.core_operands operands ≡ parts.following operator exprs.now) }
{
    let mut operands = Items::new(alloc);
    for expr in exprs {
        operands.push((operator, expression(alloc, expr)?))?;
    }
    Ok(operands)
}

/// Two operands with their operator.
fn operation(
    alloc: Global,
    left: Boxed<Core>,
    operator: Operator,
    right: Core,
) -> Result<Core, AllocError>
    ensures { IfOk result
        (λ core. core_mean core ≡ parts.operation (core_mean left) operator (core_mean right)) }
{
    let mut more = Items::new(alloc);
    more.push((operator, right))?;
    Ok(Core::Chain(left, more))
}

/// The operands of a sum after the first.
#[cycle(normal)]
fn addends(alloc: Global, operands: &[(Sign, Expr)]) -> Result<Items<(Operator, Core)>, AllocError>
    ensures { IfOk result
        (λ found. parts.core_operands found ≡ parts.operands operator.Sum operands.now) }
{
    let mut found = Items::new(alloc);
    for (sign, operand) in operands {
        found.push((Operator::Sum(*sign), expression(alloc, operand)?))?;
    }
    Ok(found)
}

/// The operands of a product after the first.
#[cycle(normal)]
fn factors(
    alloc: Global,
    operands: &[(ProductOperator, Expr)],
) -> Result<Items<(Operator, Core)>, AllocError>
    ensures { IfOk result
        (λ found. parts.core_operands found ≡ parts.operands operator.Product operands.now) }
{
    let mut found = Items::new(alloc);
    for (operator, operand) in operands {
        found.push((Operator::Product(*operator), expression(alloc, operand)?))?;
    }
    Ok(found)
}

/// The operands of intersections and differences after the first.
#[cycle(normal)]
fn set_operands(
    alloc: Global,
    operands: &[(SetOperator, Expr)],
) -> Result<Items<(Operator, Core)>, AllocError>
    ensures { IfOk result
        (λ found. parts.core_operands found ≡ parts.operands operator.SetOperation operands.now) }
{
    let mut found = Items::new(alloc);
    for (operator, operand) in operands {
        found.push((
            Operator::SetOperation(*operator),
            expression(alloc, operand)?,
        ))?;
    }
    Ok(found)
}

/// A call. One that names no function, or gives it another number of arguments than it takes, is
/// refused when it is evaluated, before its arguments.
#[cycle(normal)]
fn call(alloc: Global, name: &QName, arguments: &[Expr]) -> Result<Core, AllocError>
    ensures same { IfOk result
        (λ core. core_mean core ≡ meaning.call_named name.now (map mean arguments.now)) }
    ensures shape { IfOk result (λ core. shapes.StaysCall name.now arguments.now core) }
{
    match called(name, arguments.len()) {
        Some(function) => Ok(Core::Call(function, expressions(alloc, arguments)?)),
        None => unknown_function(alloc),
    }
}

/// Calls after arrows. The first is a call whose first argument stands before its arrow.
#[cycle(normal)]
fn arrow(alloc: Global, first: Core, calls: &[(QName, Items<Expr>)]) -> Result<Core, AllocError>
    ensures { IfOk result
        (λ core. core_mean core ≡ meaning.arrow (core_mean first) (parts.calls calls.now)) }
{
    match calls {
        [] => Ok(first),
        [next, more @ ..] => {
            let value = call_on(alloc, first, &next.0, next.1.as_slice())?;
            later_calls(alloc, value, more)
        }
    }
}

/// A call after an arrow, as a call with one argument more.
#[cycle(normal)]
fn call_on(alloc: Global, first: Core, name: &QName, arguments: &[Expr]) -> Result<Core, AllocError>
    ensures { IfOk result (λ core. core_mean core
        ≡ meaning.call_named name.now (core_mean first ∷ map mean arguments.now)) }
{
    let mut values = Items::new(alloc);
    values.push(first)?;
    let Some(function) = called(name, arguments.len() + 1) else {
        return unknown_function(alloc);
    };
    values.append(expressions(alloc, arguments)?)?;
    Ok(Core::Call(function, values))
}

/// The calls after a value. Where one of them is refused, so is the whole, before the value is
/// evaluated.
#[cycle(normal)]
fn later_calls(
    alloc: Global,
    value: Core,
    calls: &[(QName, Items<Expr>)],
) -> Result<Core, AllocError>
    ensures { IfOk result
        (λ core. core_mean core ≡ meaning.arrow (core_mean value) (parts.calls calls.now)) }
{
    if calls.is_empty() {
        return Ok(value);
    }
    let start = Boxed::new(alloc, value)?;
    let mut found = Items::new(alloc);
    for (name, arguments) in calls {
        let arguments = arguments.as_slice();
        let Some(function) = called(name, arguments.len() + 1) else {
            return unknown_function(alloc);
        };
        found.push((function, expressions(alloc, arguments)?))?;
    }
    Ok(Core::Arrow(start, found))
}

/// A call that is always refused with XPST0017: `true` with an argument.
fn unknown_function(alloc: Global) -> Result<Core, AllocError>
    ensures { IfOk result (λ core. core_mean core ≡ meaning.unknown_function) }
{
    let mut arguments = Items::new(alloc);
    arguments.push(Core::Sequence(Items::new(alloc)))?;
    Ok(Core::Call(Function::True, arguments))
}

/// The name of a constructed node. One that is written out is a string.
#[cycle(normal)]
fn constructor_name(alloc: Global, name: &ConstructorName) -> Result<Boxed<Core>, AllocError>
    ensures { IfOk result (λ core. core_mean core ≡ name_mean name.now) }
{
    match name {
        ConstructorName::Literal(name) => {
            Boxed::new(alloc, Core::Str(text(alloc, &name.local)?))
        }
        ConstructorName::Computed(part) => boxed(alloc, part.get()),
    }
}

/// A path, with what follows the slashes after its first step.
fn path(
    alloc: Global,
    start: PathStart,
    first: Core,
    later: Items<Core>,
) -> Result<Core, AllocError>
    ensures same { IfOk result (λ core. core_mean core
        ≡ parts.path_from start (core_mean first) (map core_mean later)) }
    ensures relative { IfOk result
        (λ core. start ≡ Relative → shapes.GoesOn first later core) }
{
    match start {
        PathStart::Relative => path_along(alloc, first, later),
        PathStart::Root => rooted(alloc, Separator::Slash, first, later),
        PathStart::RootAndBelow => rooted(alloc, Separator::DoubleSlash, first, later),
    }
}

/// A path from the root, whose first step stands after a separator.
fn rooted(
    alloc: Global,
    separator: Separator,
    first: Core,
    later: Items<Core>,
) -> Result<Core, AllocError>
    ensures { IfOk result (λ core. core_mean core
        ≡ parts.rooted separator (core_mean first) (map core_mean later)) }
{
    let mut found = Items::new(alloc);
    push_step(alloc, &mut found, separator, first)?;
    found.append(later)?;
    path_along(alloc, Core::Root, found)
}

/// A start, and what follows each slash; a start alone is itself.
fn path_along(alloc: Global, start: Core, found: Items<Core>) -> Result<Core, AllocError>
    ensures same { IfOk result
        (λ core. core_mean core ≡ parts.path (core_mean start) (map core_mean found)) }
    ensures goes_on { IfOk result (λ core. shapes.GoesOn start found core) }
{
    if found.is_empty() {
        return Ok(start);
    }
    Ok(Core::Path(Boxed::new(alloc, start)?, found))
}

/// What follows the slashes after the first step of a path.
#[cycle(normal)]
fn steps(alloc: Global, more: &[(Separator, Step)]) -> Result<Items<Core>, AllocError>
    ensures same { IfOk result
        (λ found. map core_mean found ≡ meaning.later_parts (parts.steps more.now)) }
    ensures plain { IfOk result (λ found. shapes.StaySteps more.now found) }
{
    let mut found = Items::new(alloc);
    for (separator, later) in more {
        push_step(alloc, &mut found, *separator, step(alloc, later)?)?;
    }
    Ok(found)
}

/// A step of a path.
#[cycle(normal)]
fn step(alloc: Global, step: &Step) -> Result<Core, AllocError>
    ensures same { IfOk result (λ core. core_mean core ≡ step_mean step.now) }
    ensures plain { IfOk result (λ core. shapes.StaysStep step.now core) }
{
    match step {
        Step::Axis(along, predicates) => {
            let predicates = expressions(alloc, predicates.as_slice())?;
            let (axis, test) = axis_step(alloc, along)?;
            Ok(Core::Step(axis, test, predicates))
        }
        Step::Primary(primary, predicates) => {
            let predicates = expressions(alloc, predicates.as_slice())?;
            let primary = expression(alloc, primary.get())?;
            filtered(alloc, primary, predicates)
        }
    }
}

/// A primary expression with its predicates; without one it is itself.
fn filtered(alloc: Global, primary: Core, predicates: Items<Core>) -> Result<Core, AllocError>
    ensures same { IfOk result
        (λ core. core_mean core ≡ parts.filter_of (core_mean primary) (map core_mean predicates)) }
    ensures alone { IfOk result (λ core. predicates ≡ [] → core ≡ primary) }
{
    if predicates.is_empty() {
        return Ok(primary);
    }
    Ok(Core::Filter(Boxed::new(alloc, primary)?, predicates))
}

/// Clauses with one binding each, one after another.
#[cycle(normal)]
fn clauses(alloc: Global, list: &[Clause]) -> Result<Items<CoreClause>, AllocError>
    ensures { IfOk result
        (λ found. meaning.clauses (map core_clause_mean found)
        ≡ meaning.clauses (map clause_mean list.now)) }
{
    let mut found = Items::new(alloc);
    for next in list {
        append_clauses(&mut found, clause(alloc, next)?)?;
    }
    Ok(found)
}

/// The clauses with one binding that a clause is short for.
#[cycle(normal)]
fn clause(alloc: Global, clause: &Clause) -> Result<Items<CoreClause>, AllocError>
    ensures { IfOk result
        (λ found. meaning.clauses (map core_clause_mean found) ≡ clause_mean clause.now) }
{
    match clause {
        Clause::For(list) => ranges(alloc, list.as_slice()),
        Clause::Let(list) => assignments(alloc, list.as_slice()),
        Clause::Filter(condition) => one(alloc, CoreClause::Where(expression(alloc, condition)?)),
        Clause::Group(specs) => group(alloc, specs.as_slice()),
        Clause::Order(specs) => one(alloc, CoreClause::Order(keys(alloc, specs.as_slice())?)),
        Clause::Count(variable) => one(alloc, CoreClause::Count(text(alloc, &variable.local)?)),
    }
}

/// A clause by itself.
fn one(alloc: Global, clause: CoreClause) -> Result<Items<CoreClause>, AllocError>
    ensures { IfOk result
        (λ found. meaning.clauses (map core_clause_mean found) ≡ core_clause_mean clause) }
{
    let mut found = Items::new(alloc);
    found.push(clause)?;
    Ok(found)
}

/// A clause for each variable of `for`.
#[cycle(normal)]
fn ranges(
    alloc: Global,
    list: &[(QName, AllowingEmpty, Option<QName>, Expr)],
) -> Result<Items<CoreClause>, AllocError>
    ensures { IfOk result (λ found. map core_clause_mean found ≡ parts.ranges list.now) }
{
    let mut found = Items::new(alloc);
    for (variable, empties, at, sequence) in list {
        let variable = text(alloc, &variable.local)?;
        let at = local(alloc, at)?;
        let sequence = expression(alloc, sequence)?;
        found.push(CoreClause::For(variable, *empties, at, sequence))?;
    }
    Ok(found)
}

/// A clause for each variable of `let`.
#[cycle(normal)]
fn assignments(alloc: Global, list: &[(QName, Expr)]) -> Result<Items<CoreClause>, AllocError>
    ensures { IfOk result (λ found. map core_clause_mean found ≡ parts.assignments list.now) }
{
    let mut found = Items::new(alloc);
    for (variable, value) in list {
        let variable = text(alloc, &variable.local)?;
        push_let(&mut found, variable, expression(alloc, value)?)?;
    }
    Ok(found)
}

/// The values that grouping variables are given, as by `let`, and then the groups.
#[cycle(normal)]
fn group(alloc: Global, specs: &[GroupSpec]) -> Result<Items<CoreClause>, AllocError>
    ensures { IfOk result
        (λ found. meaning.clauses (map core_clause_mean found)
        ≡ meaning.group_by (map group_mean specs.now)) }
{
    let mut found = Items::new(alloc);
    for spec in specs {
        append_clauses(&mut found, lets(alloc, spec)?)?;
    }
    found.push(CoreClause::Group(grouping(alloc, specs)?))?;
    Ok(found)
}

/// The value of a grouping variable, as by `let`, where it has one.
#[cycle(normal)]
fn lets(alloc: Global, spec: &GroupSpec) -> Result<Items<CoreClause>, AllocError>
    ensures { IfOk result
        (λ found. map core_clause_mean found ≡ parts.lets (group_mean spec.now)) }
{
    let mut found = Items::new(alloc);
    match spec {
        GroupSpec::Variable(_) => Ok(found),
        GroupSpec::Assigned(variable, value) => {
            let variable = text(alloc, &variable.local)?;
            push_let(&mut found, variable, expression(alloc, value)?)?;
            Ok(found)
        }
    }
}

/// The names of grouping variables.
fn grouping(alloc: Global, specs: &[GroupSpec]) -> Result<Items<Text>, AllocError>
    ensures { IfOk result (λ found. found ≡ parts.variables specs.now) }
{
    let mut found = Items::new(alloc);
    for spec in specs {
        found.push(text(alloc, &grouped_by(spec).local)?)?;
    }
    Ok(found)
}

/// A grouping variable.
fn grouped_by(spec: &GroupSpec) -> &QName
    ensures { result.now.local ≡ parts.variable (group_mean spec.now) }
{
    match spec {
        GroupSpec::Variable(variable) | GroupSpec::Assigned(variable, _) => variable,
    }
}

/// The keys of `order by`.
#[cycle(normal)]
fn keys(
    alloc: Global,
    specs: &[(Expr, OrderModifier)],
) -> Result<Items<(Core, OrderModifier)>, AllocError>
    ensures { IfOk result (λ found. parts.core_keys found ≡ parts.keys specs.now) }
{
    let mut found = Items::new(alloc);
    for (key, modifier) in specs {
        found.push((expression(alloc, key)?, *modifier))?;
    }
    Ok(found)
}

/// The variables of a quantified expression, each with what it ranges over.
#[cycle(normal)]
fn bindings(alloc: Global, list: &[(QName, Expr)]) -> Result<Items<(Text, Core)>, AllocError>
    ensures { IfOk result (λ found. parts.core_bindings found ≡ parts.bindings list.now) }
{
    let mut found = Items::new(alloc);
    for (variable, sequence) in list {
        let variable = text(alloc, &variable.local)?;
        found.push((variable, expression(alloc, sequence)?))?;
    }
    Ok(found)
}
