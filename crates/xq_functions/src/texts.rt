//! Functions on strings (F&O 3.1, sections 5.4 and 5.5), on atoms.
ghost use Rattle.std.specs.Prelude.{◌≡◌, List, Ok, map, flat_map, IfOk, IfErr, string_bytes};
ghost use Rattle.xq_atoms.specs.Atom.{Atomic, atomic_of};
ghost use Rattle.xq_atoms.specs.Cast.{text_of};
ghost use Rattle.xq_meaning.specs.Arguments as Arguments;
ghost use Rattle.xq_meaning.specs.Functions as Functions;
ghost use Rattle.xq_functions.specs.Answers.{GivesItems, atomics};
ghost use Rattle.xq_atoms.specs.Answers.{Gives};
ghost use Rattle.xq_functions.specs.private.Calls as Calls;

use crate::arguments::{one_count, one_text, optional, optional_text};
use crate::results::one;
use crate::{parts, positions, words};
use std::alloc::Global;
use xq_atoms::{Atom, Fault, cast_str};
use xq_expressions::Function;
use xq_trees::Items;

/// How many characters the string has (fn:string-length).
pub fn string_length(alloc: Global, atoms: &[Atom]) -> Result<Items, Fault>
    ensures { GivesItems (Calls.string_length (atomics atoms.now)) result }
{
    let text = optional_text(atoms)?;
    let count = positions::character_count(text) as i64;
    Ok(one(alloc, Atom::Int(count))?)
}

/// The string with its white space made single spaces (fn:normalize-space).
pub fn normalize_space(alloc: Global, atoms: &[Atom]) -> Result<Items, Fault>
    ensures { GivesItems (Calls.normalize_space (atomics atoms.now)) result }
{
    let words = words::normalized(alloc, optional_text(atoms)?)?;
    Ok(one(alloc, Atom::Str(words))?)
}

/// The atoms' texts, one after another (fn:string-join).
pub fn string_join(alloc: Global, atoms: &[Atom]) -> Result<Items, Fault>
    ensures { GivesItems (Ok (Arguments.text (flat_map text_of (atomics atoms.now)))) result }
{
    let joined = parts::joined(alloc, "", atoms)?;
    Ok(one(alloc, Atom::Str(joined))?)
}

/// The atoms' texts with a separator between them (fn:string-join).
pub fn string_join_by(alloc: Global, atoms: &[Atom], separator: &[Atom]) -> Result<Items, Fault>
    ensures { GivesItems
        (Functions.of_two Function.StringJoin (atomics atoms.now) (atomics separator.now)) result }
{
    let joined = parts::joined(alloc, one_text(separator)?, atoms)?;
    Ok(one(alloc, Atom::Str(joined))?)
}

/// Whether the second string stands in the first (fn:contains).
pub fn contains(alloc: Global, text: &[Atom], word: &[Atom]) -> Result<Items, Fault>
    ensures { GivesItems
        (Functions.of_two Function.Contains (atomics text.now) (atomics word.now)) result }
{
    let text = optional_text(text)?;
    let word = optional_text(word)?;
    Ok(one(alloc, Atom::Bool(parts::contains(text, word)))?)
}

/// Whether the first string begins with the second (fn:starts-with).
pub fn starts_with(alloc: Global, text: &[Atom], word: &[Atom]) -> Result<Items, Fault>
    ensures { GivesItems
        (Functions.of_two Function.StartsWith (atomics text.now) (atomics word.now)) result }
{
    let text = optional_text(text)?;
    let word = optional_text(word)?;
    Ok(one(alloc, Atom::Bool(parts::starts_with(text, word)))?)
}

/// Whether the first string ends with the second (fn:ends-with).
pub fn ends_with(alloc: Global, text: &[Atom], word: &[Atom]) -> Result<Items, Fault>
    ensures { GivesItems
        (Functions.of_two Function.EndsWith (atomics text.now) (atomics word.now)) result }
{
    let text = optional_text(text)?;
    let word = optional_text(word)?;
    Ok(one(alloc, Atom::Bool(parts::ends_with(text, word)))?)
}

/// What stands before the second string in the first (fn:substring-before).
pub fn substring_before(alloc: Global, text: &[Atom], word: &[Atom]) -> Result<Items, Fault>
    ensures { GivesItems
        (Functions.of_two Function.SubstringBefore (atomics text.now) (atomics word.now)) result }
{
    let text = optional_text(text)?;
    let word = optional_text(word)?;
    let part = String::from_str(alloc, parts::before_first(text, word))?;
    Ok(one(alloc, Atom::Str(part))?)
}

/// What stands after the second string in the first (fn:substring-after).
pub fn substring_after(alloc: Global, text: &[Atom], word: &[Atom]) -> Result<Items, Fault>
    ensures { GivesItems
        (Functions.of_two Function.SubstringAfter (atomics text.now) (atomics word.now)) result }
{
    let text = optional_text(text)?;
    let word = optional_text(word)?;
    let part = String::from_str(alloc, parts::after_first(text, word))?;
    Ok(one(alloc, Atom::Str(part))?)
}

/// The characters from a position on (fn:substring).
pub fn substring_from(alloc: Global, text: &[Atom], first: &[Atom]) -> Result<Items, Fault>
    ensures { GivesItems
        (Functions.of_two Function.Substring (atomics text.now) (atomics first.now)) result }
{
    let text = optional_text(text)?;
    let first = one_count(first)?;
    let part = String::from_str(alloc, positions::from_position(text, first))?;
    Ok(one(alloc, Atom::Str(part))?)
}

/// So many characters from a position on (fn:substring).
pub fn substring(
    alloc: Global,
    text: &[Atom],
    first: &[Atom],
    length: &[Atom],
) -> Result<Items, Fault>
    ensures { GivesItems (Functions.of_three Function.Substring
        (atomics text.now) (atomics first.now) (atomics length.now)) result }
{
    let text = optional_text(text)?;
    let first = one_count(first)?;
    let length = one_count(length)?;
    let part = String::from_str(alloc, positions::between_positions(text, first, length))?;
    Ok(one(alloc, Atom::Str(part))?)
}

/// The text of at most one atom, or none; XPTY0004 for more than one.
pub fn piece(alloc: Global, atoms: &[Atom]) -> Result<String, Fault>
    ensures { Gives (λ text. string_bytes text) (Functions.piece (atomics atoms.now)) result }
{
    match optional(atoms)? {
        Some(atom) => Ok(cast_str(alloc, atom)?),
        None => Ok(String::new(alloc)),
    }
}

/// The texts of lists of at most one atom each, one after another (fn:concat).
pub fn concat(alloc: Global, lists: &[Vec<Atom>]) -> Result<Items, Fault>
    ensures { GivesItems (Functions.concat (map (λ list. atomics list.items) lists.now)) result }
{
    let mut text = String::new(alloc);
    for list in lists {
        text.push_str(piece(alloc, list)?.as_str())?;
    }
    Ok(one(alloc, Atom::Str(text))?)
}

/// The texts of three lists of at most one atom each, one after another (fn:concat).
pub fn concat_three(
    alloc: Global,
    first: &[Atom],
    second: &[Atom],
    third: &[Atom],
) -> Result<Items, Fault>
    ensures { GivesItems (Calls.three_concatenated
        (atomics first.now) (atomics second.now) (atomics third.now)) result }
{
    let mut text = piece(alloc, first)?;
    let middle = piece(alloc, second)?;
    let end = piece(alloc, third)?;
    text.push_str(middle.as_str())?;
    text.push_str(end.as_str())?;
    Ok(one(alloc, Atom::Str(text))?)
}
