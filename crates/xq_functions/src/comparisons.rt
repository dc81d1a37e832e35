//! Comparisons of atoms (XQuery 3.1, sections 3.7.1 and 3.7.2), and the concatenation of strings.
ghost use Rattle.std.specs.Prelude.{◌≡◌};
ghost use Rattle.xq_atoms.specs.Atom.{atomic_of};
ghost use Rattle.xq_meaning.specs.Operators as Operators;
ghost use Rattle.xq_functions.specs.Answers.{GivesItems, atomics};
ghost use Rattle.xq_functions.specs.private.Calls as Calls;

use crate::arguments::single;
use crate::results::one;
use crate::texts::piece;
use std::alloc::Global;
use xq_atoms::{Atom, Code, CompOp, Fault, compare_general, compare_value};
use xq_expressions::Relation;
use xq_trees::Items;

/// The comparison that a relation asks for.
fn related_by(relation: Relation) -> CompOp
    ensures { result ≡ Operators.related_by relation }
{
    match relation {
        Relation::Equal => CompOp::Eq,
        Relation::NotEqual => CompOp::Ne,
        Relation::Less => CompOp::Lt,
        Relation::LessEqual => CompOp::Le,
        Relation::Greater => CompOp::Gt,
        Relation::GreaterEqual => CompOp::Ge,
    }
}

/// A value comparison of one atom with another; XPTY0004 for more than one, and for two kinds.
pub fn compare_values(
    alloc: Global,
    relation: Relation,
    left: &[Atom],
    right: &[Atom],
) -> Result<Items, Fault>
    ensures { GivesItems (Calls.values_compared (Operators.related_by relation)
        (atomics left.now) (atomics right.now)) result }
{
    let left = single(left)?;
    let right = single(right)?;
    let holds = compare_value(related_by(relation), left, right)?;
    Ok(one(alloc, Atom::Bool(holds))?)
}

/// A general comparison: whether some pair compares. Pairs go by the left atom and then by the
/// right one, up to the first that compares or is refused.
pub fn compare_pairs(
    alloc: Global,
    relation: Relation,
    left: &[Atom],
    right: &[Atom],
) -> Result<Items, Fault>
    ensures { GivesItems (Operators.by_pairs (Operators.related_by relation)
        (atomics left.now) (atomics right.now)) result }
{
    let holds = some_pair(related_by(relation), left, right)?;
    Ok(one(alloc, Atom::Bool(holds))?)
}

/// Whether some pair compares.
fn some_pair(op: CompOp, left: &[Atom], right: &[Atom]) -> Result<bool, Code>
    ensures { result ≡ Operators.some_pair op (atomics left.now) (atomics right.now) }
{
    for atom in left {
        let compares = some_with(op, atom, right)?;
        if compares {
            return Ok(true);
        }
    }
    Ok(false)
}

/// Whether the left atom compares with some of the right ones.
fn some_with(op: CompOp, left: &Atom, right: &[Atom]) -> Result<bool, Code>
    ensures { result ≡ Operators.some_with op (atomic_of left.now) (atomics right.now) }
{
    for atom in right {
        let compares = compare_general(op, left, atom)?;
        if compares {
            return Ok(true);
        }
    }
    Ok(false)
}

/// The texts of at most one atom each, one after the other (XQuery 3.1, section 3.6).
pub fn concatenated(alloc: Global, left: &[Atom], right: &[Atom]) -> Result<Items, Fault>
    ensures { GivesItems (Calls.texts_concatenated (atomics left.now) (atomics right.now)) result }
{
    let mut text = piece(alloc, left)?;
    let end = piece(alloc, right)?;
    text.push_str(end.as_str())?;
    Ok(one(alloc, Atom::Str(text))?)
}
