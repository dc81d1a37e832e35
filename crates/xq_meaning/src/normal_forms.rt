//! Normal forms of expressions: calls by their function, steps with their axis, one binding in a
//! clause, one list of operators for all chains.

use crate::node_tests::Test;
use crate::operators::Operator;
use sqlite_items::{Boxed, Items};
use xq_atoms::Decimal;
use xq_expressions::{
    AllowingEmpty, Function, NamedNode, OrderModifier, Quantifier, Sign, Text, UnnamedNode,
};
use xq_trees::Axis;

/// An expression in normal form.
#[derive(Drop)]
#[cycle(normal)]
pub enum Core {
    Int(i64),
    Dec(Decimal),
    Str(Text),
    Variable(Text),
    ContextItem,
    /// A leading `/`.
    Root,
    Sequence(Items<Core>),
    /// The clauses, and what is returned.
    Flwor(Items<CoreClause>, Boxed<Core>),
    /// The variables with what they range over, and what they satisfy.
    Quantified(Quantifier, Items<(Text, Core)>, Boxed<Core>),
    /// The test, and the two branches.
    If(Boxed<Core>, Boxed<Core>, Boxed<Core>),
    Or(Items<Core>),
    And(Items<Core>),
    /// The first operand, and the others with their operators.
    Chain(Boxed<Core>, Items<(Operator, Core)>),
    /// The signs, the outermost first.
    Unary(Items<Sign>, Boxed<Core>),
    /// A start, and what follows each slash.
    Path(Boxed<Core>, Items<Core>),
    /// A step from the context item, and its predicates.
    Step(Axis, Test, Items<Core>),
    /// A primary expression and its predicates.
    Filter(Boxed<Core>, Items<Core>),
    Call(Function, Items<Core>),
    /// What stands before the first arrow, and the calls after each, whose first argument is what
    /// stands before it.
    Arrow(Boxed<Core>, Items<(Function, Items<Core>)>),
    /// What is gone through, and what is evaluated for each item of what stands before it.
    Map(Boxed<Core>, Items<Core>),
    /// The name and the content; a name that is written out is a string.
    Named(NamedNode, Boxed<Core>, Boxed<Core>),
    Unnamed(UnnamedNode, Boxed<Core>),
}

/// A clause with one binding.
#[derive(Drop)]
#[cycle(normal)]
pub enum CoreClause {
    /// The variable, whether what it ranges over may be empty, its positional variable, and what it
    /// ranges over.
    For(Text, AllowingEmpty, Option<Text>, Core),
    Let(Text, Core),
    Where(Core),
    /// Variables of this FLWOR.
    Group(Items<Text>),
    Order(Items<(Core, OrderModifier)>),
    /// The variable of the tuples' numbers.
    Count(Text),
}
