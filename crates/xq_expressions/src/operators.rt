//! Operators, axes and tests.

use crate::names::{QName, Text};

/// Which tuples a quantified expression asks for.
#[derive(Clone, Copy, Debug, PartialEq, Eq)]
pub enum Quantifier {
    Some,
    Every,
}

/// What a value or general comparison asks of two atoms.
#[derive(Clone, Copy, Debug, PartialEq, Eq)]
pub enum Relation {
    Equal,
    NotEqual,
    Less,
    LessEqual,
    Greater,
    GreaterEqual,
}

/// What a node comparison asks of two nodes.
#[derive(Clone, Copy, Debug, PartialEq, Eq)]
pub enum NodeComparison {
    Is,
    Precedes,
    Follows,
}

/// A comparison (XQuery 3.1, section 3.7): `eq` to `ge`, `=` to `>=`, or `is`, `<<`, `>>`.
#[derive(Clone, Copy, Debug, PartialEq, Eq)]
pub enum ComparisonOperator {
    Value(Relation),
    General(Relation),
    Node(NodeComparison),
}

/// A sign before an operand, and the operator between two of a sum.
#[derive(Clone, Copy, Debug, PartialEq, Eq)]
pub enum Sign {
    Plus,
    Minus,
}

#[derive(Clone, Copy, Debug, PartialEq, Eq)]
pub enum ProductOperator {
    Times,
    Div,
    Idiv,
    Mod,
}

#[derive(Clone, Copy, Debug, PartialEq, Eq)]
pub enum SetOperator {
    Intersect,
    Except,
}

/// Where a path starts: at its first step, at the root, or at the root and all below it.
#[derive(Clone, Copy, Debug, PartialEq, Eq)]
pub enum PathStart {
    Relative,
    Root,
    RootAndBelow,
}

/// What stands before a later step of a path: `/` or `//`.
#[derive(Clone, Copy, Debug, PartialEq, Eq)]
pub enum Separator {
    Slash,
    DoubleSlash,
}

/// The name of an axis (XQuery 3.1, section 3.3.2.1).
#[derive(Clone, Copy, Debug, PartialEq, Eq)]
pub enum AxisName {
    Child,
    Descendant,
    DescendantOrSelf,
    SelfNode,
    Attribute,
    Parent,
    Ancestor,
    AncestorOrSelf,
    Following,
    FollowingSibling,
    Preceding,
    PrecedingSibling,
}

/// A node test (XQuery 3.1, section 3.3.2.2). Where a name is missing, any name passes.
#[derive(Drop)]
pub enum NodeTest {
    Named(QName),
    AnyName,
    Node,
    Text,
    Comment,
    Document,
    ProcessingInstruction(Option<Text>),
    Element(Option<QName>),
    Attribute(Option<QName>),
}

/// An axis step without its predicates.
#[derive(Drop)]
pub enum AxisStep {
    /// A test after the name of an axis and `::`.
    Along(AxisName, NodeTest),
    /// A test after `@`.
    Attribute(NodeTest),
    /// `..`
    Parent,
    /// A test alone.
    Abbreviated(NodeTest),
}

/// A node that a constructor gives a name.
#[derive(Clone, Copy, Debug, PartialEq, Eq)]
pub enum NamedNode {
    Element,
    Attribute,
    ProcessingInstruction,
}

/// A node that a constructor gives no name.
#[derive(Clone, Copy, Debug, PartialEq, Eq)]
pub enum UnnamedNode {
    Document,
    Text,
    Comment,
}

#[derive(Clone, Copy, Debug, PartialEq, Eq)]
pub enum Direction {
    Ascending,
    Descending,
}

/// Where the empty sequence stands among the keys of an order.
#[derive(Clone, Copy, Debug, PartialEq, Eq)]
pub enum EmptyOrder {
    Least,
    Greatest,
}

/// How one key of `order by` orders: without words, ascending and empty least.
#[derive(Clone, Copy, Debug, PartialEq, Eq)]
pub struct OrderModifier {
    pub direction: Direction,
    pub empty: EmptyOrder,
}

/// What `for` makes of a tuple at which its sequence is empty: none, or with `allowing empty` one.
#[derive(Clone, Copy, Debug, PartialEq, Eq)]
pub enum AllowingEmpty {
    No,
    Yes,
}
