//! Number literals.
ghost use Rattle.std.specs.Prelude.{◌≡◌, ◌+◌, ◌<◌, ◌^◌, true, IsTrue};
ghost use Rattle.std.specs.Str.{encode_utf8_all};
ghost use Rattle.std.specs.Bool.{OnTrue, OnFalse};
ghost use Rattle.xq_atoms.specs.Literal.{is_number};
ghost use Rattle.xq_atoms.specs.Text.{is_whole};
ghost use Rattle.xq_atoms.specs.Characters.{is_digit as is_digit_lem};
ghost use Rattle.xq_atoms.specs.Answers.{Gives};
ghost use Rattle.xq_lexer.specs.private.Lexes.{BeginsAt, GivesAlways, SpelledAt, lexed, pointed, valued_lex};
ghost use Rattle.xq_lexer.specs.Lexeme.{lex_of};
ghost use Rattle.xq_lexer.specs.Literals as lit;
ghost use Rattle.xq_lexer.specs.Chars as chars_spec;
ghost use Rattle.xq_lexer.specs.Reading as spec;
ghost use Rattle.xq_lexer.specs.Spelling.{bytes as bytes_of};

use crate::runs::{Class, piece, run, text};
use crate::tokens::Token;
use std::alloc::Global;
use xq_atoms::{Code, Fault, dec_literal, int_literal, is_digit, is_name_start};

/// Whether a number stands at the front: a digit, or a point and a digit.
pub fn begins_number(chars: &[char]) -> bool
    ensures { result ≡ spec.begins_number chars.now }
{
    match chars {
        [c, rest @ ..] => is_digit(*c) || (*c == '.' && begins_digit(rest)),
        [] => false,
    }
}

/// The number at the front and what is left: prof:DOUBLE before an exponent, XPST0003 before what
/// may not follow a number, then prof:DIGITS and FOAR0002 by its value.
pub fn number<'a>(
    alloc: Global,
    written: &str,
    place: usize,
    chars: &'a [char],
) -> Result<(Token, &'a [char]), Fault>
    requires begun { spec.begins_number chars.now ≡ true }
    requires short { place + bytes_of chars.now < 2 ^ 64 }
    requires spelled { SpelledAt written.now place chars.now }
    ensures { Gives (λ x. (lex_of x.0, x.1.now))
        (lexed (spec.judged (spec.read_number chars.now))) result }
{
    let (has_point, rest) = digits(chars);
    if let Some(code) = follow_fault(rest) {
        return Err(Fault::Code(code));
    }
    let literal = &chars[..chars.len() - rest.len()];
    Ok((read(alloc, written, place, has_point, literal)?, rest))
}

/// What the characters of a literal stand for, which is read where it is written.
fn read(
    alloc: Global,
    written: &str,
    place: usize,
    has_point: bool,
    literal: &[char],
) -> Result<Token, Fault>
    requires short { bytes_of literal.now < 2 ^ 64 }
    requires spelled { BeginsAt written.now place literal.now }
    requires whole { OnFalse has_point (IsTrue (is_whole (encode_utf8_all literal.now))) }
    requires number { OnTrue has_point (IsTrue (is_number (encode_utf8_all literal.now))) }
    ensures { Gives lex_of (valued_lex has_point (encode_utf8_all literal.now)) result }
{
    match piece(written, place, literal) {
        Some(piece) => Ok(valued(has_point, piece)?),
        None => {
            let copy = text(alloc, literal)?;
            Ok(valued(has_point, copy.as_str())?)
        }
    }
}

/// Whether a point stands among the digits at the front, and what is left behind them.
#[tactic(auto, unfolding(crate::specs::Reading::read_number, crate::specs::Reading::after_digits))]
fn digits(chars: &[char]) -> (bool, &[char])
    ensures { (result.0, result.1.now) ≡ pointed (spec.read_number chars.now) }
{
    let (_whole, rest) = run(Class::Digit, chars);
    match rest {
        [c, fraction @ ..] if *c == '.' => {
            let (_fraction, rest) = run(Class::Digit, fraction);
            (true, rest)
        }
        _ => (false, rest),
    }
}

/// What a literal stands for.
fn valued(has_point: bool, literal: &str) -> Result<Token, Code>
    requires whole { OnFalse has_point (IsTrue (is_whole literal.now)) }
    requires number { OnTrue has_point (IsTrue (is_number literal.now)) }
    ensures { GivesAlways lex_of (valued_lex has_point literal.now) result }
{
    if has_point {
        Ok(Token::Dec(dec_literal(literal)?))
    } else {
        Ok(Token::Int(int_literal(literal)?))
    }
}

/// The code of a number before the characters, where they may not follow one.
fn follow_fault(rest: &[char]) -> Option<Code>
    ensures { result ≡ lit.follow_fault rest.now }
{
    if begins_exponent(rest) {
        Some(Code::ProfDouble)
    } else if clings(rest) {
        Some(Code::XPST0003)
    } else {
        None
    }
}

/// Whether the characters begin with `e`, perhaps a sign, and a digit.
fn begins_exponent(chars: &[char]) -> bool
    ensures { result ≡ lit.begins_exponent chars.now }
{
    match chars {
        [e, next, rest @ ..] => {
            (*e == 'e' || *e == 'E')
                && (is_digit(*next) || ((*next == '+' || *next == '-') && begins_digit(rest)))
        }
        _ => false,
    }
}

/// Whether the characters begin with a name start, a digit or a point.
fn clings(chars: &[char]) -> bool
    ensures { result ≡ chars_spec.begins lit.clings chars.now }
{
    match chars {
        [c, ..] => is_name_start(*c) || is_digit(*c) || *c == '.',
        [] => false,
    }
}

fn begins_digit(chars: &[char]) -> bool
    ensures { result ≡ chars_spec.begins is_digit_lem chars.now }
{
    match chars {
        [c, ..] => is_digit(*c),
        [] => false,
    }
}
