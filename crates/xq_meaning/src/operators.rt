//! Operators.

use xq_expressions::{ComparisonOperator, ProductOperator, SetOperator, Sign};

/// An operator between two operands (XQuery 3.1, sections 3.4 to 3.7).
#[derive(Clone, Copy, Debug, PartialEq, Eq)]
pub enum Operator {
    Sum(Sign),
    Product(ProductOperator),
    /// `to`
    Range,
    /// `||`
    Concat,
    Comparison(ComparisonOperator),
    Union,
    SetOperation(SetOperator),
}
