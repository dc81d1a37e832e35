//! Words between white space.
ghost use Rattle.std.specs.Prelude.{◌≡◌, ◌++◌, ℕ, List, encode_utf8, IfOk, IfErr, string_bytes};
ghost use Rattle.xq_meaning.specs.Texts as Texts;
ghost use Rattle.xq_functions.specs.private.Words.{continued};

use std::alloc::Global;
use xq_atoms::{Want, is_space};

/// The text without white space at its ends, and with one space for each run of white space in it
/// (fn:normalize-space, F&O 3.1, section 5.4.5).
pub fn normalized(alloc: Global, text: &str) -> Result<String, Want>
    ensures text { IfOk result (λ made. string_bytes made ≡ Texts.normalized text.now) }
    ensures want { IfErr result (λ want. want ≡ Want.Memory) }
{
    let mut words = String::new(alloc);
    let mut is_apart = false;
    for character in text.chars() {
        is_apart = push_character(&mut words, is_apart, character)?;
    }
    Ok(words)
}

/// Adds a character to the words before it, from which white space parts it where `is_apart`.
/// Answers whether white space comes after the words.
fn push_character(words: &mut String, is_apart: bool, character: char) -> Result<bool, Want>
    ensures words { IfOk result (λ apart. (rest : List ℕ) →
        string_bytes words.new ++ continued apart (string_bytes words.new) rest
        ≡ string_bytes words.old
        ++ continued is_apart (string_bytes words.old) (encode_utf8 character ++ rest)) }
    ensures want { IfErr result (λ want. want ≡ Want.Memory) }
{
    if is_space(character) {
        return Ok(is_apart || !words.is_empty());
    }
    if is_apart {
        words.push(' ')?;
    }
    words.push(character)?;
    Ok(false)
}
