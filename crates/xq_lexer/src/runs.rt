//! Runs of characters of one class, and their bytes.
ghost use Rattle.std.specs.Prelude.{◌≡◌, ◌+◌, ◌++◌, length, IfOk, IfSome, OnOk, string_bytes, ◌<◌, ◌^◌};
ghost use Rattle.std.specs.Str.{encode_utf8_all};
ghost use Rattle.xq_atoms.specs.Characters.{is_char as is_char_lem, is_name_char as is_name_char_lem};
ghost use Rattle.xq_lexer.specs.private.Lexes.{BeginsAt, test};
ghost use Rattle.xq_lexer.specs.Reading.{span};
ghost use Rattle.xq_lexer.specs.Spelling.{bytes as bytes_of};

use crate::chars::is_hex;
use std::alloc::{AllocError, Global};
use xq_atoms::{is_char, is_digit, is_name_char};

/// A class of characters.
#[derive(Clone, Copy)]
pub enum Class {
    Name,
    Digit,
    HexDigit,
    /// What stands for itself in a string with this quote.
    Plain(char),
}

impl Class {
    /// Whether the character is of the class.
    fn has(self, c: char) -> bool
        ensures { result ≡ test self c }
    {
        match self {
            Class::Name => is_in_name(c),
            Class::Digit => is_digit(c),
            Class::HexDigit => is_hex(c),
            Class::Plain(quote) => c != quote && c != '&' && is_written(c),
        }
    }
}

/// Whether the character may stand in a query. Most are letters, and one look tells these.
#[tactic(auto, unfolding(xq_atoms::specs::Characters::is_char))]
fn is_written(c: char) -> bool
    ensures { result ≡ is_char_lem c }
{
    matches!(c, ' '..='\u{D7FF}') || is_char(c)
}

/// Whether the character may stand in a name. Most are small letters, and one look tells these.
#[tactic(auto, unfolding(xq_atoms::specs::Characters::is_name_char, xq_atoms::specs::Characters::is_name_start))]
fn is_in_name(c: char) -> bool
    ensures { result ≡ is_name_char_lem c }
{
    matches!(c, 'a'..='z') || is_name_char(c)
}

/// The longest front whose characters are of the class, and what is left.
pub fn run(class: Class, chars: &[char]) -> (&[char], &[char])
    ensures { (result.0.now, result.1.now) ≡ span (test class) chars.now }
{
    for (length, c) in chars.iter().enumerate() {
        if !class.has(*c) {
            return chars.split_at(length);
        }
    }
    chars.split_at(chars.len())
}

/// The characters as a text, which is cut out of what is written: it spells them there.
pub fn cut(alloc: Global, written: &str, place: usize, chars: &[char]) -> Result<String, AllocError>
    requires short { bytes_of chars.now < 2 ^ 64 }
    requires spelled { BeginsAt written.now place chars.now }
    ensures { IfOk result (λ text. string_bytes text ≡ encode_utf8_all chars.now) }
{
    match piece(written, place, chars) {
        Some(piece) => String::from_str(alloc, piece),
        None => text(alloc, chars),
    }
}

/// What spells the characters from a place on, if what is written may be cut there.
pub fn piece<'a>(written: &'a str, place: usize, chars: &[char]) -> Option<&'a str>
    requires short { bytes_of chars.now < 2 ^ 64 }
    requires spelled { BeginsAt written.now place chars.now }
    ensures { IfSome result (λ piece. piece.now ≡ encode_utf8_all chars.now) }
{
    let (_before, rest) = written.split_at_checked(place)?;
    let (piece, _after) = rest.split_at_checked(bytes(chars))?;
    Some(piece)
}

/// The characters as a text.
pub fn text(alloc: Global, chars: &[char]) -> Result<String, AllocError>
    ensures { IfOk result (λ text. string_bytes text ≡ encode_utf8_all chars.now) }
{
    let mut text = String::new(alloc);
    append(&mut text, chars)?;
    Ok(text)
}

/// Adds the characters to the text, for which room is made at once.
pub fn append(text: &mut String, chars: &[char]) -> Result<(), AllocError>
    ensures { OnOk result
        (string_bytes text.new ≡ string_bytes text.old ++ encode_utf8_all chars.now) }
{
    text.reserve(chars.len())?;
    for c in chars {
        text.push(*c)?;
    }
    Ok(())
}

/// How many bytes spell the characters.
pub fn bytes(chars: &[char]) -> usize
    requires { bytes_of chars.now < 2 ^ 64 }
    ensures { result ≡ bytes_of chars.now }
{
    // Each has a byte, and most have no more.
    let mut bytes = chars.len();
    for c in chars {
        if *c >= '\u{80}' {
            bytes += c.len_utf8() - 1;
        }
    }
    bytes
}
