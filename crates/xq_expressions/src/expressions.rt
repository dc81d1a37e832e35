//! Expressions: one variant for each level of the grammar.
//!
//! A level without an operator is its operand. Chains are lists, so that the height of an
//! expression is bounded by its nesting. The parts of each variant stand in the order of the
//! text: a walk from left to right meets names, variables and calls as the text has them,
//! and each of them is a place where static faults are judged. A call's name comes before its
//! arguments.

use crate::names::{QName, Text};
use crate::operators::{
    AllowingEmpty, AxisStep, ComparisonOperator, NamedNode, OrderModifier, PathStart,
    ProductOperator, Quantifier, Separator, SetOperator, Sign, UnnamedNode,
};
use sqlite_items::{Boxed, Items};
use xq_atoms::Decimal;

/// An expression (XQuery 3.1, section 3, in this profile).
#[derive(Drop)]
#[cycle(tree)]
pub enum Expr {
    /// None, or two and more.
    Sequence(Items<Expr>),
    /// One clause and more, and what is returned.
    Flwor(Items<Clause>, Boxed<Expr>),
    /// One binding and more, and what they satisfy.
    Quantified(Quantifier, Items<(QName, Expr)>, Boxed<Expr>),
    /// The test, and the two branches.
    If(Boxed<Expr>, Boxed<Expr>, Boxed<Expr>),
    /// Two operands and more.
    Or(Items<Expr>),
    /// Two operands and more.
    And(Items<Expr>),
    Comparison(Boxed<Expr>, ComparisonOperator, Boxed<Expr>),
    /// Two operands and more.
    Concat(Items<Expr>),
    Range(Boxed<Expr>, Boxed<Expr>),
    /// The first operand, and the others with their operators.
    Sum(Boxed<Expr>, Items<(Sign, Expr)>),
    Product(Boxed<Expr>, Items<(ProductOperator, Expr)>),
    /// Two operands and more.
    Union(Items<Expr>),
    SetOperation(Boxed<Expr>, Items<(SetOperator, Expr)>),
    /// One sign and more, the outermost first.
    Unary(Items<Sign>, Boxed<Expr>),
    /// The first argument, and after each `=>` the name of a function with its other arguments
    /// (XQuery 3.1, section 3.20).
    Arrow(Boxed<Expr>, Items<(QName, Items<Expr>)>),
    /// What is gone through, and what stands after each `!` (XQuery 3.1, section 3.19).
    Map(Boxed<Expr>, Items<Expr>),
    /// A lone `/`.
    Root,
    /// Where it starts, its first step, and the others with what stands before each. The step is
    /// boxed, since it is the largest part of all: an expression takes half as many bytes for it.
    Path(PathStart, Boxed<Step>, Items<(Separator, Step)>),
    Int(i64),
    Dec(Decimal),
    Str(Text),
    Variable(QName),
    ContextItem,
    Call(QName, Items<Expr>),
    /// An element, attribute or processing instruction, its name and its content, which is
    /// the empty sequence for an empty body.
    Named(NamedNode, ConstructorName, Boxed<Expr>),
    /// A document, text or comment and its content.
    Unnamed(UnnamedNode, Boxed<Expr>),
}

/// The name of a constructed node, written out or computed.
#[derive(Drop)]
#[cycle(tree)]
pub enum ConstructorName {
    Literal(QName),
    Computed(Boxed<Expr>),
}

/// A clause of a FLWOR expression (XQuery 3.1, section 3.12).
#[derive(Drop)]
#[cycle(tree)]
pub enum Clause {
    /// Each variable, whether its sequence may be empty, its positional variable, and the sequence
    /// it ranges over.
    For(Items<(QName, AllowingEmpty, Option<QName>, Expr)>),
    Let(Items<(QName, Expr)>),
    /// The condition after `where`.
    Filter(Expr),
    Group(Items<GroupSpec>),
    Order(Items<(Expr, OrderModifier)>),
    /// The variable of the tuples' numbers.
    Count(QName),
}

/// A grouping variable.
#[derive(Drop)]
#[cycle(tree)]
pub enum GroupSpec {
    Variable(QName),
    /// The variable and, after `:=`, its value.
    Assigned(QName, Expr),
}

/// A step of a path, and its predicates.
#[derive(Drop)]
#[cycle(tree)]
pub enum Step {
    Axis(AxisStep, Items<Expr>),
    Primary(Boxed<Expr>, Items<Expr>),
}
