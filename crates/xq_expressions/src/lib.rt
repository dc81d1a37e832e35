//! Expressions of the query language, as their tokens derive them, the functions that they may
//! call, and the variables in scope.
#![tactic(auto)]

mod expressions;
mod names;
mod operators;
mod place;
mod scopes;
mod signatures;

pub use expressions::{Clause, ConstructorName, Expr, GroupSpec, Step};
pub use names::{QName, Text};
pub use operators::{
    AllowingEmpty, AxisName, AxisStep, ComparisonOperator, Direction, EmptyOrder, NamedNode,
    NodeComparison, NodeTest, OrderModifier, PathStart, ProductOperator, Quantifier, Relation,
    Separator, SetOperator, Sign, UnnamedNode,
};
pub use scopes::Scope;
pub use signatures::{Arity, Function};
