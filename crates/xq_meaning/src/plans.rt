//! Plans: normal forms with numbered slots in place of names, and with scans.
//!
//! A place in a plan has the slots that are open there: first those outside, then, in a FLWOR, one
//! for each binding of its clauses so far, two for a `for` with a position, and one for a `count`,
//! and in a quantified expression one for each binding before. So a binding needs no number: it
//! takes the next slot.

use crate::joins::Join;
use crate::node_tests::Test;
use crate::operators::Operator;
use sqlite_items::{Boxed, Items};
use xq_atoms::{Code, Decimal};
use xq_expressions::{
    AllowingEmpty, Function, NamedNode, OrderModifier, Quantifier, Sign, Text, UnnamedNode,
};
use xq_trees::Axis;

/// A plan.
#[derive(Drop)]
#[cycle(plan)]
pub enum Plan {
    Int(i64),
    Dec(Decimal),
    Str(Text),
    /// The value of a slot, by its number from 0.
    Slot(usize),
    ContextItem,
    /// A leading `/`.
    Root,
    Sequence(Items<Plan>),
    /// The clauses, and what is returned.
    Flwor(Items<PlanClause>, Boxed<Plan>),
    /// What each variable ranges over, and what they satisfy.
    Quantified(Quantifier, Items<Plan>, Boxed<Plan>),
    /// The test, and the two branches.
    If(Boxed<Plan>, Boxed<Plan>, Boxed<Plan>),
    Or(Items<Plan>),
    And(Items<Plan>),
    /// The first operand, and the others with their operators.
    Chain(Boxed<Plan>, Items<(Operator, Plan)>),
    /// The signs, the outermost first.
    Unary(Items<Sign>, Boxed<Plan>),
    Path(Boxed<Plan>, Items<PlanStep>),
    /// A step from the context item, and its predicates.
    Step(Axis, Test, Items<Plan>),
    /// A primary expression and its predicates.
    Filter(Boxed<Plan>, Items<Plan>),
    Call(Function, Items<Plan>),
    /// What stands before the first arrow, and the calls after each, whose first argument is what
    /// stands before it.
    Arrow(Boxed<Plan>, Items<(Function, Items<Plan>)>),
    /// What is gone through, and what is evaluated for each item of what stands before it.
    Map(Boxed<Plan>, Items<Plan>),
    /// The name and the content.
    Named(NamedNode, Boxed<Plan>, Boxed<Plan>),
    Unnamed(UnnamedNode, Boxed<Plan>),
}

/// A clause, from the tuples so far to others.
#[derive(Drop)]
#[cycle(plan)]
pub enum PlanClause {
    /// Whether what the item ranges over may be empty, whether a slot for the position follows that
    /// of the item, and what the item ranges over.
    For(AllowingEmpty, bool, Plan),
    /// What the item ranges over, which reads of the slots of the tuples none but the one that is
    /// carried, and the keys that are compared: a `for`, and the `where` after it.
    Join(Plan, Join),
    /// What the next slot takes its items from, and the keys that are compared: each tuple gets the
    /// items whose keys are equal, as a `let` of what a `for` and its `where` give (XQuery 3.1,
    /// sections 3.12.3 and 3.12.5).
    GroupJoin(Plan, Join),
    Let(Plan),
    Where(Plan),
    /// By slots of the tuples, numbered from 0 for the first binding of this FLWOR.
    Group(Items<usize>),
    Order(Items<(Plan, OrderModifier)>),
    /// A slot for the number of each tuple.
    Count,
    /// Refused, whatever the tuples are: it groups by a variable that its FLWOR doesn't bind.
    Refused(Code),
}

/// What follows a slash.
#[derive(Drop)]
#[cycle(plan)]
pub enum PlanStep {
    /// A part for each item.
    Each(Plan),
    /// The nodes on the axis from all nodes that pass the test, in document order.
    Scan(Axis, Test),
}
