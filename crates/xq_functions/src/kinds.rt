//! What functions and operators look at.
ghost use Rattle.std.specs.Prelude.{◌≡◌};
ghost use Rattle.xq_functions.specs.Kinds as Kinds;

use xq_expressions::{ComparisonOperator, Function};
use xq_meaning::Operator;

/// What a function of one argument looks at.
#[derive(Clone, Copy, Debug, PartialEq, Eq)]
pub enum Argument {
    /// There is no such form of the function.
    Missing,
    /// The items, whatever they are.
    Items,
    /// The atoms that the items are atomized to.
    Atoms,
    /// The items, and of a node the tree around it.
    Nodes,
    /// The atoms, and the addresses of the documents.
    Address,
}

/// What the function's form of one argument looks at.
pub fn argument_of(function: Function) -> Argument
    ensures { result ≡ Kinds.argument_of function }
{
    match function {
        Function::Doc | Function::DocAvailable => Argument::Address,
        Function::Root | Function::Name | Function::LocalName | Function::String | Function::Data =>
            Argument::Nodes,
        Function::Count
        | Function::Empty
        | Function::Exists
        | Function::Head
        | Function::Tail
        | Function::Reverse
        | Function::ZeroOrOne
        | Function::OneOrMore
        | Function::ExactlyOne
        | Function::Not
        | Function::Boolean => Argument::Items,
        Function::StringLength
        | Function::NormalizeSpace
        | Function::StringJoin
        | Function::DistinctValues
        | Function::Sum
        | Function::Min
        | Function::Max
        | Function::Abs
        | Function::Floor
        | Function::Ceiling
        | Function::Round
        | Function::ToInteger
        | Function::ToDecimal
        | Function::ToString
        | Function::ToBoolean
        | Function::ToUntyped => Argument::Atoms,
        Function::Collection
        | Function::Concat
        | Function::Contains
        | Function::StartsWith
        | Function::EndsWith
        | Function::Substring
        | Function::SubstringBefore
        | Function::SubstringAfter
        | Function::True
        | Function::False
        | Function::Position
        | Function::Last => Argument::Missing,
    }
}

/// Whether the operator atomizes its operands; the others take nodes.
pub fn is_on_atoms(operator: Operator) -> bool
    ensures { result ≡ Kinds.is_on_atoms operator }
{
    match operator {
        Operator::Sum(_)
        | Operator::Product(_)
        | Operator::Range
        | Operator::Concat
        | Operator::Comparison(ComparisonOperator::Value(_) | ComparisonOperator::General(_)) => {
            true
        }
        Operator::Comparison(ComparisonOperator::Node(_))
        | Operator::Union
        | Operator::SetOperation(_) => false,
    }
}
