//! Comparisons of atoms.
ghost use Rattle.std.specs.Prelude.{◌≡◌};
ghost use Rattle.xq_atoms.specs.Atom.{atomic_of};
ghost use Rattle.xq_atoms.specs.Compare as Compare;
ghost use Rattle.xq_atoms.specs.private.Comparing.{ordering_of, key_of_comparable};

use crate::atoms::Atom;
use crate::casts;
use crate::decimals::Decimal;
use crate::refusals::Code;
use std::cmp::Ordering;

/// A comparison of two values (XQuery 3.1, section 3.7).
#[derive(Clone, Copy, Debug, PartialEq, Eq)]
pub enum CompOp {
    Eq,
    Ne,
    Lt,
    Le,
    Gt,
    Ge,
}

impl CompOp {
    /// Whether the comparison holds of values in this order.
    fn holds(self, order: Ordering) -> bool
        ensures { result ≡ Compare.holds self order }
    {
        match self {
            CompOp::Eq => order.is_eq(),
            CompOp::Ne => order.is_ne(),
            CompOp::Lt => order.is_lt(),
            CompOp::Le => order.is_le(),
            CompOp::Gt => order.is_gt(),
            CompOp::Ge => order.is_ge(),
        }
    }
}

/// What an atom is compared by: numbers in millionths, untyped values as strings.
#[derive(Clone, Copy)]
enum Comparable<'a> {
    Number(i128),
    Text(&'a str),
    Truth(bool),
}

/// A value comparison (XQuery 3.1, section 3.7.1): numbers with numbers, strings and untyped values
/// by code points, booleans with false before true; else XPTY0004.
pub fn compare_value(op: CompOp, left: &Atom, right: &Atom) -> Result<bool, Code>
    ensures { result ≡ Compare.compare_value op (atomic_of left.now) (atomic_of right.now) }
{
    match order(compared_by(left), compared_by(right)) {
        Some(order) => Ok(op.holds(order)),
        None => Err(Code::XPTY0004),
    }
}

/// A general comparison of one pair (XQuery 3.1, section 3.7.2): an untyped value is a string
/// beside a string or an untyped value, a boolean beside a boolean (FORG0001 where it is none),
/// and prof:DOUBLE beside a number. All else is a value comparison.
pub fn compare_general(op: CompOp, left: &Atom, right: &Atom) -> Result<bool, Code>
    ensures { result ≡ Compare.compare_general op (atomic_of left.now) (atomic_of right.now) }
{
    match left {
        Atom::Untyped(_) => match right {
            Atom::Int(_) | Atom::Dec(_) => Err(Code::ProfDouble),
            Atom::Bool(right) => Ok(op.holds(casts::boolean(left)?.cmp(right))),
            Atom::Str(_) | Atom::Untyped(_) => compare_value(op, left, right),
        },
        Atom::Bool(truth) => match right {
            Atom::Untyped(_) => Ok(op.holds(truth.cmp(&casts::boolean(right)?))),
            _ => compare_value(op, left, right),
        },
        Atom::Int(_) | Atom::Dec(_) => match right {
            Atom::Untyped(_) => Err(Code::ProfDouble),
            _ => compare_value(op, left, right),
        },
        Atom::Str(_) => compare_value(op, left, right),
    }
}

/// What the atom is compared by.
fn compared_by(atom: &Atom) -> Comparable<'_>
    ensures { key_of_comparable result ≡ Compare.key (atomic_of atom.now) }
{
    match atom {
        Atom::Int(value) => Comparable::Number(Decimal::from_int(*value).millionths()),
        Atom::Dec(value) => Comparable::Number(value.millionths()),
        Atom::Str(text) | Atom::Untyped(text) => Comparable::Text(text.as_str()),
        Atom::Bool(truth) => Comparable::Truth(*truth),
    }
}

/// The order of two values of one kind, or None for two kinds.
fn order(left: Comparable<'_>, right: Comparable<'_>) -> Option<Ordering>
    ensures { result
        ≡ ordering_of (key_of_comparable left.entry) (key_of_comparable right.entry) }
{
    match (left, right) {
        (Comparable::Number(left), Comparable::Number(right)) => Some(left.cmp(&right)),
        (Comparable::Text(left), Comparable::Text(right)) => Some(left.cmp(right)),
        (Comparable::Truth(left), Comparable::Truth(right)) => Some(left.cmp(&right)),
        _ => None,
    }
}
