//! String literals.
ghost use Rattle.std.specs.Prelude.{◌≡◌, ◌+◌, ◌<◌, ◌≤◌, ◌^◌, ◌∷◌, min, true, option_map, Ok};
ghost use Rattle.xq_atoms.specs.Answers.{Gives};
ghost use Rattle.xq_lexer.specs.private.Lexes.{GivesAlways, SpelledAt, lexed, refers, referred_char, next_inside};
ghost use Rattle.xq_lexer.specs.Chars as chars_spec;
ghost use Rattle.xq_lexer.specs.Lexeme.{lex_of};
ghost use Rattle.xq_lexer.specs.Literals as lit;
ghost use Rattle.xq_lexer.specs.Reading as spec;
ghost use Rattle.xq_lexer.specs.Spelling.{bytes as bytes_of};

use crate::runs::{Class, append, cut, run};
use crate::tokens::Token;
use std::alloc::Global;
use xq_atoms::{Code, Fault, is_char, is_digit};

/// One more than the greatest number of a character: numbers are counted up to here.
const PAST_CHARS: u32 = 0x11_0000;

/// The string whose first quote was read, and what is left behind its last one; so many bytes stand
/// before the first quote in what is written. XQST0090 where a reference stands for no character,
/// XPST0003 at another fault or where the string stays open.
pub fn string<'a>(
    alloc: Global,
    written: &str,
    place: usize,
    quote: char,
    chars: &'a [char],
) -> Result<(Token, &'a [char]), Fault>
    requires quote { chars_spec.is_quote quote ≡ true }
    requires short { place + bytes_of (quote ∷ chars.now) < 2 ^ 64 }
    requires spelled { SpelledAt written.now place (quote ∷ chars.now) }
    ensures { Gives (λ x. (lex_of x.0, x.1.now)) (lexed (spec.read_string quote chars.now)) result }
{
    let (plain, special) = run(Class::Plain(quote), chars);
    let mut text = cut(alloc, written, place + 1, plain)?;
    let mut rest = special;
    'pieces: loop {
        match inside(quote, rest)? {
            (Some(c), after) => {
                text.push(c)?;
                let (plain, special) = run(Class::Plain(quote), after);
                append(&mut text, plain)?;
                rest = special;
            }
            (None, after) => return Ok((Token::Str(text), after)),
        }
    }
}

/// The character that is next inside a string, or None at its last quote, and what is left.
#[tactic(auto, unfolding(crate::specs::Reading::inside))]
fn inside(quote: char, chars: &[char]) -> Result<(Option<char>, &[char]), Code>
    ensures { GivesAlways (λ x. (x.0, x.1.now)) (next_inside quote (spec.inside quote chars.now))
        result }
{
    match chars {
        [] => Err(Code::XPST0003),
        [c, rest @ ..] => {
            if *c == quote {
                Ok(after_quote(quote, rest))
            } else if *c == '&' {
                after_ampersand(rest)
            } else if is_char(*c) {
                Ok((Some(*c), rest))
            } else {
                Err(Code::XPST0003)
            }
        }
    }
}

/// Behind a quote: the quote where it is doubled, else None.
fn after_quote(quote: char, chars: &[char]) -> (Option<char>, &[char])
    ensures { Ok (result.0, result.1.now) ≡ next_inside quote (spec.after_quote quote chars.now) }
{
    match chars {
        [c, rest @ ..] if *c == quote => (Some(quote), rest),
        _ => (None, chars),
    }
}

/// Behind an `&`: the character that the reference stands for, and what is left.
fn after_ampersand(chars: &[char]) -> Result<(Option<char>, &[char]), Code>
    ensures { GivesAlways (λ x. (x.0, x.1.now)) (referred_char (spec.read_reference chars.now))
        result }
{
    match reference(chars) {
        None => Err(Code::XPST0003),
        Some((number, rest)) => match char::from_u32(number) {
            Some(c) => {
                if is_char(c) {
                    Ok((Some(c), rest))
                } else {
                    Err(Code::XQST0090)
                }
            }
            None => Err(Code::XQST0090),
        },
    }
}

/// The number of the character that the reference behind an `&` stands for, at most `PAST_CHARS`,
/// and what is left.
#[tactic(auto, unfolding(crate::specs::Reading::read_reference))]
fn reference(chars: &[char]) -> Option<(u32, &[char])>
    ensures { option_map (λ x. (x.0, x.1.now)) result ≡ refers (spec.read_reference chars.now) }
{
    if let Some(rest) = strip(&['l', 't', ';'], chars) {
        return Some((60, rest));
    }
    if let Some(rest) = strip(&['g', 't', ';'], chars) {
        return Some((62, rest));
    }
    if let Some(rest) = strip(&['a', 'm', 'p', ';'], chars) {
        return Some((38, rest));
    }
    if let Some(rest) = strip(&['q', 'u', 'o', 't', ';'], chars) {
        return Some((34, rest));
    }
    if let Some(rest) = strip(&['a', 'p', 'o', 's', ';'], chars) {
        return Some((39, rest));
    }
    numbered(strip(&['#'], chars)?)
}

/// What is left behind the word.
fn strip<'a>(word: &[char], chars: &'a [char]) -> Option<&'a [char]>
    ensures { option_map (λ x. x.now) result ≡ spec.strip word.now chars.now }
{
    let mut rest = chars;
    for expected in word {
        match rest {
            [c, after @ ..] if *c == *expected => rest = after,
            _ => return None,
        }
    }
    Some(rest)
}

/// The number that the digits behind `&#` spell, at most `PAST_CHARS`, and what is left behind `;`.
#[tactic(auto, unfolding(crate::specs::Reading::read_numbered))]
fn numbered(chars: &[char]) -> Option<(u32, &[char])>
    ensures { option_map (λ x. (x.0, x.1.now)) result ≡ refers (spec.read_numbered chars.now) }
{
    let (base, digits, rest) = match chars {
        [c, hex @ ..] if *c == 'x' => {
            let (digits, rest) = run(Class::HexDigit, hex);
            (16, digits, rest)
        }
        _ => {
            let (digits, rest) = run(Class::Digit, chars);
            (10, digits, rest)
        }
    };
    match rest {
        [c, rest @ ..] if *c == ';' && !digits.is_empty() => Some((value(base, digits), rest)),
        _ => None,
    }
}

/// The number that the digits spell in the base, at most `PAST_CHARS`.
fn value(base: u32, digits: &[char]) -> u32
    requires { base ≤ 16 }
    ensures { result ≡ min 0x110000 (lit.digits_value base digits.now) }
{
    let mut value = 0;
    for c in digits {
        value = PAST_CHARS.min(value * base + digit_value(*c));
    }
    value
}

/// The value of a digit of base 10 or 16.
fn digit_value(c: char) -> u32
    ensures { result ≡ lit.hex_digit c }
{
    let code = u32::from(c);
    if is_digit(c) {
        code.saturating_sub(48)
    } else if matches!(c, 'A'..='F') {
        code.saturating_sub(55)
    } else {
        code.saturating_sub(87)
    }
}
