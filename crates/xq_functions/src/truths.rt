//! What holds of a sequence: its effective boolean value, and the value of a predicate.
ghost use Rattle.std.specs.Prelude.{◌≡◌, ◌<◌, ◌^◌, List, map};
ghost use Rattle.xq_atoms.specs.Atom.{atomic_of};
ghost use Rattle.xq_trees.specs.Items.{item_view};
ghost use Rattle.xq_trees.specs.Tree.{Tree};
ghost use Rattle.xq_meaning.specs.Arguments as Arguments;
ghost use Rattle.xq_meaning.specs.Operators as Operators;
ghost use Rattle.xq_meaning.specs.Readings.{items_at};

use xq_atoms::{Atom, Code};
use xq_trees::Item;

/// The effective boolean value (XQuery 3.1, section 2.4.3): nothing is false, a first item that is
/// a node true; else one atom by itself. FORG0006 for more than one.
pub fn effective(items: &[Item]) -> Result<bool, Code>
    ensures { (trees : List Tree) →
        result ≡ Arguments.effective (items_at trees (map item_view items.now)) }
{
    match items {
        [] => Ok(false),
        [Item::Node(_), ..] => Ok(true),
        [Item::Atom(atom)] => Ok(truth(atom)),
        [Item::Atom(_), _, ..] => Err(Code::FORG0006),
    }
}

/// Whether a predicate with this value keeps the item at a position, from 1 (XQuery 3.1, section
/// 3.3.3): one number keeps that position alone, any other value is taken by its effective boolean
/// value.
pub fn keeps(position: usize, items: &[Item]) -> Result<bool, Code>
    ensures { (trees : List Tree) →
        result ≡ Operators.keeps position (items_at trees (map item_view items.now)) }
{
    match items {
        [] => Ok(false),
        [Item::Node(_), ..] => Ok(true),
        [Item::Atom(atom)] => Ok(is_kept(position, atom)),
        [Item::Atom(_), _, ..] => Err(Code::FORG0006),
    }
}

/// Whether one atom keeps the item at a position.
fn is_kept(position: usize, atom: &Atom) -> bool
    ensures { result ≡ Operators.is_kept position (atomic_of atom.now) }
{
    match atom {
        Atom::Int(number) => i128::from(*number) == position as i128,
        Atom::Dec(number) => number.millionths() == position as i128 * 1_000_000,
        Atom::Str(_) | Atom::Bool(_) | Atom::Untyped(_) => truth(atom),
    }
}

/// The effective boolean value of one atom.
fn truth(atom: &Atom) -> bool
    ensures { result ≡ Arguments.truth (atomic_of atom.now) }
{
    match atom {
        Atom::Int(number) => *number != 0,
        Atom::Dec(number) => number.millionths() != 0,
        Atom::Bool(truth) => *truth,
        Atom::Str(text) | Atom::Untyped(text) => !text.is_empty(),
    }
}
