//! Atomic values.
ghost use Rattle.std.specs.Prelude.{◌≡◌, IfOk, IfErr};
ghost use Rattle.std.specs.Option.{option_copied};
ghost use Rattle.xq_atoms.specs.Atom.{atomic_of};
ghost use Rattle.xq_atoms.specs.Compare.{group_key, key_of};

use crate::decimals::Decimal;
use crate::refusals::Want;
use std::alloc::Global;

/// An atomic value (XDM 3.1, section 2.7.1), of one of the profile's five types.
#[derive(Debug, Drop)]
pub enum Atom {
    Int(i64),
    Dec(Decimal),
    Str(String),
    Bool(bool),
    Untyped(String),
}

impl Atom {
    /// An atom of the same type and value.
    pub fn try_clone(&self, alloc: Global) -> Result<Atom, Want>
        ensures value { IfOk result (λ copy. atomic_of copy ≡ atomic_of self.now) }
        ensures want { IfErr result (λ want. want ≡ Want.Memory) }
    {
        Ok(match self {
            Atom::Int(integer) => Atom::Int(*integer),
            Atom::Dec(decimal) => Atom::Dec(*decimal),
            Atom::Str(text) => Atom::Str(String::from_str(alloc, text.as_str())?),
            Atom::Bool(truth) => Atom::Bool(*truth),
            Atom::Untyped(text) => Atom::Untyped(String::from_str(alloc, text.as_str())?),
        })
    }
}

/// A value that groups tuples and tells distinct values apart: keys are equal where both are
/// empty, or are equal numbers, strings or booleans. A number is kept in millionths.
/// Keys of one kind are in the order of numbers, of code points, of `false` before `true`;
/// the empty key is the least.
#[derive(Debug, Drop, PartialEq, Eq, PartialOrd, Ord, Hash)]
pub enum GroupKey {
    Empty,
    Num(i128),
    Text(String),
    Truth(bool),
}

impl GroupKey {
    /// The key of at most one atom; an untyped value has that of the string.
    pub fn of(alloc: Global, atom: Option<&Atom>) -> Result<GroupKey, Want>
        ensures value { IfOk result
            (λ made. key_of made ≡ group_key (option_copied atom.entry)) }
        ensures want { IfErr result (λ want. want ≡ Want.Memory) }
    {
        Ok(match atom {
            None => GroupKey::Empty,
            Some(Atom::Int(integer)) => GroupKey::Num(Decimal::from_int(*integer).millionths()),
            Some(Atom::Dec(decimal)) => GroupKey::Num(decimal.millionths()),
            Some(Atom::Str(text)) => GroupKey::Text(String::from_str(alloc, text.as_str())?),
            Some(Atom::Bool(truth)) => GroupKey::Truth(*truth),
            Some(Atom::Untyped(text)) => GroupKey::Text(String::from_str(alloc, text.as_str())?),
        })
    }
}
