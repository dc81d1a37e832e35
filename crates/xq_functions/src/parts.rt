//! Texts put together, and texts that stand in other ones.
ghost use Rattle.std.specs.Prelude.{◌≡◌, ◌++◌, map, IfOk, IfErr, OnOk, string_bytes};
ghost use Rattle.xq_atoms.specs.Atom.{atomic_of};
ghost use Rattle.xq_atoms.specs.Cast.{text_of};
ghost use Rattle.xq_trees.specs.Names.{holds};
ghost use Rattle.xq_meaning.specs.Texts as Texts;

use std::alloc::Global;
use xq_atoms::{Atom, Want, cast_str};

/// Adds the text of an atom after others; that of a string is copied at once.
fn push_text(alloc: Global, text: &mut String, atom: &Atom) -> Result<(), Want>
    ensures text { OnOk result (string_bytes text.new
        ≡ string_bytes text.old ++ text_of (atomic_of atom.now)) }
    ensures want { IfErr result (λ want. want ≡ Want.Memory) }
{
    match atom {
        Atom::Str(value) | Atom::Untyped(value) => text.push_str(value.as_str())?,
        _ => text.push_str(cast_str(alloc, atom)?.as_str())?,
    }
    Ok(())
}

/// The atoms' texts with a separator between them (fn:string-join, F&O 3.1, section 5.4.2).
pub fn joined(alloc: Global, separator: &str, atoms: &[Atom]) -> Result<String, Want>
    ensures text { IfOk result (λ made. string_bytes made
        ≡ Texts.joined separator.now (map text_of (map atomic_of atoms.now))) }
    ensures want { IfErr result (λ want. want ≡ Want.Memory) }
{
    let mut text = String::new(alloc);
    let mut is_first = true;
    for atom in atoms {
        if !is_first {
            text.push_str(separator)?;
        }
        push_text(alloc, &mut text, atom)?;
        is_first = false;
    }
    Ok(text)
}

/// Whether the word stands somewhere in the text (fn:contains, F&O 3.1, section 5.5.1).
pub fn contains(text: &str, word: &str) -> bool
    ensures { result ≡ holds word.now text.now }
{
    text.contains(word)
}

/// Whether the text begins with the word (fn:starts-with, F&O 3.1, section 5.5.2).
pub fn starts_with(text: &str, word: &str) -> bool
    ensures { result ≡ Texts.begins word.now text.now }
{
    text.starts_with(word)
}

/// Whether the text ends with the word (fn:ends-with, F&O 3.1, section 5.5.3).
pub fn ends_with(text: &str, word: &str) -> bool
    ensures { result ≡ Texts.ends word.now text.now }
{
    text.ends_with(word)
}

/// The text before the first place where the word stands, or nothing where it stands nowhere
/// (fn:substring-before, F&O 3.1, section 5.5.4).
pub fn before_first<'a>(text: &'a str, word: &str) -> &'a str
    ensures { result.now ≡ Texts.substring_before text.now word.now }
{
    match text.split_once(word) {
        Some((before, _)) => before,
        None => "",
    }
}

/// The text after the first place where the word stands, or nothing where it stands nowhere; all
/// of the text after an empty word (fn:substring-after, F&O 3.1, section 5.5.5).
pub fn after_first<'a>(text: &'a str, word: &str) -> &'a str
    ensures { result.now ≡ Texts.substring_after text.now word.now }
{
    match text.split_once(word) {
        Some((_, after)) => after,
        None => "",
    }
}
