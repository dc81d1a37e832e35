//! What phrases stand for.
ghost use Rattle.std.specs.Prelude.{◌≡◌, List, Some};
ghost use Rattle.xq_expressions.specs.declared.expressions.Expr.{Expr as Expr_};
ghost use Rattle.xq_expressions.specs.declared.expressions.Expr.TheVariants as e;
ghost use Rattle.xq_parser.specs.Grammar as g;
ghost use Rattle.xq_parser.specs.private.Behind as behind;
ghost use Rattle.xq_parser.specs.private.Parses.{ParsesAs};

use crate::levels::{AND, CONCAT, UNION};
use crate::lists::listed;
use crate::words::Listed;
use sqlite_items::{Boxed, Items};
use std::alloc::Global;
use xq_atoms::Fault;
use xq_expressions::{
    Clause, ComparisonOperator, ConstructorName, Expr, NamedNode, PathStart, ProductOperator,
    QName, Quantifier, Separator, SetOperator, Sign, Step, UnnamedNode,
};

/// An expression, or a sequence of two and more.
pub(crate) fn sequence(
    alloc: Global,
    first: Boxed<Expr>,
    more: Items<Expr>,
) -> Result<Boxed<Expr>, Fault>
    ensures { ParsesAs (λ x. x) result (Some (g.several e.Sequence (first, more))) }
{
    if more.len() == 0 {
        return Ok(first);
    }
    let all = listed(alloc, first.into_inner(), more)?;
    Ok(Boxed::new(alloc, Expr::Sequence(all))?)
}

/// An operand, or the list that a level makes of two and more.
#[tactic(auto, unfolding(crate::specs::private::Behind::of_list))]
pub(crate) fn joined(
    alloc: Global,
    level: u8,
    first: Boxed<Expr>,
    more: Items<Expr>,
) -> Result<Boxed<Expr>, Fault>
    ensures { ParsesAs (λ x. x) result (Some (g.several (behind.of_list level) (first, more))) }
{
    if more.len() == 0 {
        return Ok(first);
    }
    let all = listed(alloc, first.into_inner(), more)?;
    let value = if level == UNION {
        Expr::Union(all)
    } else if level == CONCAT {
        Expr::Concat(all)
    } else if level == AND {
        Expr::And(all)
    } else {
        Expr::Or(all)
    };
    Ok(Boxed::new(alloc, value)?)
}

/// An operator whose level makes a chain of operands, each with the operator before it.
pub(crate) trait Chains: Listed {
    ghost chain: { Expr_ → List (Self × Expr_) → Expr_ };

    /// The chain of an operand and those behind it.
    fn chain(first: Boxed<Expr>, more: Items<(Self, Expr)>) -> Expr
        ensures { result ≡ chain first more };
}

impl Chains for SetOperator {
    ghost chain = { e.SetOperation };

    fn chain(first: Boxed<Expr>, more: Items<(SetOperator, Expr)>) -> Expr
        ensures { result ≡ e.SetOperation first more }
    {
        Expr::SetOperation(first, more)
    }
}

impl Chains for ProductOperator {
    ghost chain = { e.Product };

    fn chain(first: Boxed<Expr>, more: Items<(ProductOperator, Expr)>) -> Expr
        ensures { result ≡ e.Product first more }
    {
        Expr::Product(first, more)
    }
}

impl Chains for Sign {
    ghost chain = { e.Sum };

    fn chain(first: Boxed<Expr>, more: Items<(Sign, Expr)>) -> Expr
        ensures { result ≡ e.Sum first more }
    {
        Expr::Sum(first, more)
    }
}

/// An operand, or a chain of two and more.
pub(crate) fn chained<T: Chains + Drop>(
    alloc: Global,
    first: Boxed<Expr>,
    more: Items<(T, Expr)>,
) -> Result<Boxed<Expr>, Fault>
    ensures { ParsesAs (λ x. x) result (Some (g.chain T.chain (first, more))) }
{
    if more.len() == 0 {
        return Ok(first);
    }
    Ok(Boxed::new(alloc, T::chain(first, more))?)
}

/// An operand, or the calls that it is handed on to.
pub(crate) fn arrow(
    alloc: Global,
    first: Boxed<Expr>,
    calls: Items<(QName, Items<Expr>)>,
) -> Result<Boxed<Expr>, Fault>
    ensures { ParsesAs (λ x. x) result (Some (g.chain e.Arrow (first, calls))) }
{
    if calls.len() == 0 {
        Ok(first)
    } else {
        Ok(Boxed::new(alloc, Expr::Arrow(first, calls))?)
    }
}

/// A path, or what is mapped over its items.
pub(crate) fn simple_map(
    alloc: Global,
    first: Boxed<Expr>,
    more: Items<Expr>,
) -> Result<Boxed<Expr>, Fault>
    ensures { ParsesAs (λ x. x) result (Some (g.chain e.Map (first, more))) }
{
    if more.len() == 0 {
        Ok(first)
    } else {
        Ok(Boxed::new(alloc, Expr::Map(first, more))?)
    }
}

/// A comparison of two operands.
pub(crate) fn compared(
    alloc: Global,
    left: Boxed<Expr>,
    operator: ComparisonOperator,
    right: Boxed<Expr>,
) -> Result<Boxed<Expr>, Fault>
    ensures { ParsesAs (λ x. x) result (Some (g.compared (left, Some (operator, right)))) }
{
    Ok(Boxed::new(alloc, Expr::Comparison(left, operator, right))?)
}

/// The range between two operands.
pub(crate) fn ranged(
    alloc: Global,
    first: Boxed<Expr>,
    last: Boxed<Expr>,
) -> Result<Boxed<Expr>, Fault>
    ensures { ParsesAs (λ x. x) result (Some (g.ranged (first, Some last))) }
{
    Ok(Boxed::new(alloc, Expr::Range(first, last))?)
}

/// An operand with its signs, if there are any.
pub(crate) fn signed(
    alloc: Global,
    signs: Items<Sign>,
    operand: Boxed<Expr>,
) -> Result<Boxed<Expr>, Fault>
    ensures { ParsesAs (λ x. x) result (Some (g.signed (signs, operand))) }
{
    if signs.len() == 0 {
        Ok(operand)
    } else {
        Ok(Boxed::new(alloc, Expr::Unary(signs, operand))?)
    }
}

/// A path from a start that isn't its first step.
pub(crate) fn rooted(
    alloc: Global,
    start: PathStart,
    first: Step,
    more: Items<(Separator, Step)>,
) -> Result<Boxed<Expr>, Fault>
    ensures { ParsesAs (λ x. x) result (Some (g.rooted start (first, more))) }
{
    let first = Boxed::new(alloc, first)?;
    Ok(Boxed::new(alloc, Expr::Path(start, first, more))?)
}

/// A path from its first step; one primary expression without predicates is itself.
pub(crate) fn relative(
    alloc: Global,
    first: Step,
    more: Items<(Separator, Step)>,
) -> Result<Boxed<Expr>, Fault>
    ensures { ParsesAs (λ x. x) result (Some (g.relative (first, more))) }
{
    if more.len() > 0 {
        return rooted(alloc, PathStart::Relative, first, more);
    }
    match first {
        Step::Primary(value, predicates) => {
            if predicates.len() == 0 {
                Ok(value)
            } else {
                rooted(
                    alloc,
                    PathStart::Relative,
                    Step::Primary(value, predicates),
                    more,
                )
            }
        }
        first => rooted(alloc, PathStart::Relative, first, more),
    }
}

/// A FLWOR expression of its first clause, the others and what it returns.
pub(crate) fn flwor(
    alloc: Global,
    first: Boxed<Clause>,
    more: Items<Clause>,
    value: Boxed<Expr>,
) -> Result<Boxed<Expr>, Fault>
    ensures { ParsesAs (λ x. x) result (Some (g.flwor (first, (more, value)))) }
{
    let clauses = listed(alloc, first.into_inner(), more)?;
    Ok(Boxed::new(alloc, Expr::Flwor(clauses, value))?)
}

/// A quantified expression.
pub(crate) fn quantified(
    alloc: Global,
    quantifier: Quantifier,
    bindings: Items<(QName, Expr)>,
    condition: Boxed<Expr>,
) -> Result<Boxed<Expr>, Fault>
    ensures { ParsesAs (λ x. x) result (Some (g.quantified (quantifier, (bindings, condition)))) }
{
    Ok(Boxed::new(alloc, Expr::Quantified(quantifier, bindings, condition))?)
}

/// A conditional expression.
pub(crate) fn conditional(
    alloc: Global,
    test: Boxed<Expr>,
    yes: Boxed<Expr>,
    no: Boxed<Expr>,
) -> Result<Boxed<Expr>, Fault>
    ensures { ParsesAs (λ x. x) result (Some (g.conditional (test, (yes, no)))) }
{
    Ok(Boxed::new(alloc, Expr::If(test, yes, no))?)
}

/// The constructor of a node with a name.
pub(crate) fn named_node(
    alloc: Global,
    node: NamedNode,
    name: ConstructorName,
    content: Boxed<Expr>,
) -> Result<Boxed<Expr>, Fault>
    ensures { ParsesAs (λ x. x) result (Some (g.named_node (node, (name, content)))) }
{
    Ok(Boxed::new(alloc, Expr::Named(node, name, content))?)
}

/// The constructor of a node without a name.
pub(crate) fn unnamed_node(
    alloc: Global,
    node: UnnamedNode,
    content: Boxed<Expr>,
) -> Result<Boxed<Expr>, Fault>
    ensures { ParsesAs (λ x. x) result (Some (g.unnamed_node (node, content))) }
{
    Ok(Boxed::new(alloc, Expr::Unnamed(node, content))?)
}
