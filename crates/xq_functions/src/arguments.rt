//! How many atoms an argument may have, and their types (XQuery 3.1, section 3.1.5.2).
ghost use Rattle.std.specs.Prelude.{◌≡◌, ◌<◌, ◌^◌, length, IfOk};
ghost use Rattle.std.specs.Option.{option_map};
ghost use Rattle.xq_atoms.specs.Atom.{atomic_of};
ghost use Rattle.xq_meaning.specs.Arguments as Arguments;
ghost use Rattle.xq_functions.specs.Answers.{atomics};
ghost use Rattle.xq_functions.specs.Judgements.{judged_as};

use xq_atoms::{Atom, Code};

/// The greatest magnitude of a position or a length.
const MAX_COUNT: u64 = 1_000_000_000;

/// The atom, or None where there is none; XPTY0004 for more than one.
pub fn optional(atoms: &[Atom]) -> Result<Option<&Atom>, Code>
    ensures { judged_as (option_map (λ atom. atomic_of atom.now)) result
        ≡ Arguments.optional (atomics atoms.now) }
{
    match atoms {
        [] => Ok(None),
        [atom] => Ok(Some(atom)),
        [_, _, ..] => Err(Code::XPTY0004),
    }
}

/// The one atom; XPTY0004 for none and for more than one.
pub fn single(atoms: &[Atom]) -> Result<&Atom, Code>
    ensures { judged_as (λ atom. atomic_of atom.now) result
        ≡ Arguments.single (atomics atoms.now) }
{
    match atoms {
        [atom] => Ok(atom),
        [] | [_, _, ..] => Err(Code::XPTY0004),
    }
}

/// The characters of a string or of an untyped value; XPTY0004 for another type.
pub fn text_argument(atom: &Atom) -> Result<&str, Code>
    ensures text { judged_as (λ text. text.now) result
        ≡ Arguments.text_argument (atomic_of atom.now) }
    ensures small { IfOk result (λ text. length text.now < 2 ^ 63) }
{
    match atom {
        Atom::Str(text) | Atom::Untyped(text) => Ok(text.as_str()),
        Atom::Int(_) | Atom::Dec(_) | Atom::Bool(_) => Err(Code::XPTY0004),
    }
}

/// The characters of one string or untyped value.
pub fn one_text(atoms: &[Atom]) -> Result<&str, Code>
    ensures { judged_as (λ text. text.now) result ≡ Arguments.one_text (atomics atoms.now) }
{
    text_argument(single(atoms)?)
}

/// The characters of at most one string or untyped value, or none.
pub fn optional_text(atoms: &[Atom]) -> Result<&str, Code>
    ensures text { judged_as (λ text. text.now) result
        ≡ Arguments.optional_text (atomics atoms.now) }
    ensures small { IfOk result (λ text. length text.now < 2 ^ 63) }
{
    match optional(atoms)? {
        Some(atom) => text_argument(atom),
        None => Ok(""),
    }
}

/// A position or a length: one integer of at most 10^9 to either side. prof:DOUBLE for another
/// number and an untyped value, XPTY0004 for another type.
pub fn one_count(atoms: &[Atom]) -> Result<i64, Code>
    ensures { result ≡ Arguments.one_count (atomics atoms.now) }
{
    match single(atoms)? {
        Atom::Int(count) if count.unsigned_abs() <= MAX_COUNT => Ok(*count),
        Atom::Int(_) | Atom::Dec(_) | Atom::Untyped(_) => Err(Code::ProfDouble),
        Atom::Str(_) | Atom::Bool(_) => Err(Code::XPTY0004),
    }
}
