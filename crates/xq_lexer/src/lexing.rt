//! From a text to its tokens.
ghost use Rattle.std.specs.Prelude.{◌≡◌, ◌+◌, ◌<◌, ◌^◌, ◌++◌, List, IfOk, IfErr};
ghost use Rattle.std.specs.Str.{chars as chars_of};
ghost use Rattle.xq_atoms.specs.declared.refusals.Code.{Code as FaultCode};
ghost use Rattle.xq_atoms.specs.declared.refusals.Fault.TheVariants.{Want as FaultWant};
ghost use Rattle.xq_atoms.specs.declared.refusals.Want.TheVariants.{Memory as WantMemory};
ghost use Rattle.xq_lexer.specs.Chars.{Text};
ghost use Rattle.xq_atoms.specs.Answers.{Gives};
ghost use Rattle.xq_lexer.specs.private.Lexes.{GivesAlways, Lexes, Nexts, SpelledAt, lexed};
ghost use Rattle.xq_lexer.specs.Lexeme.{Lex, lex_of, lexemes};
ghost use Rattle.xq_lexer.specs.Reading as spec;
ghost use Rattle.xq_lexer.specs.Spelling.{Spells, bytes as bytes_of};
ghost use Rattle.xq_lexer.specs.TokenFaults.{HasFault, RefusesText};

use crate::chars::is_quote;
use crate::names::name;
use crate::numbers::{begins_number, number};
use crate::runs::bytes;
use crate::separators::skip;
use crate::strings::string;
use crate::symbols::{double_symbol, single_symbol};
use crate::tokens::Token;
use std::alloc::{AllocError, Global};
use xq_atoms::{Code, Fault, is_name_start};

/// The tokens that the text spells (XQuery 3.1, appendix A.2). Else the code of its first fault:
/// XPST0003, XQST0090, prof:DOUBLE, prof:DIGITS or FOAR0002; or want of memory.
pub fn lex(alloc: Global, text: &str) -> Result<Vec<Token>, Fault>
    ensures spelled { IfOk result (λ tokens. Spells (chars_of text.now) (lexemes tokens.items)) }
    ensures only { IfOk result (λ tokens. (other : List Lex) → Spells (chars_of text.now) other
        → other ≡ lexemes tokens.items) }
    ensures sound { IfOk result (λ _. (code : FaultCode) → HasFault (chars_of text.now) code → ⊥) }
    ensures refused { IfErr result (λ fault. RefusesText (chars_of text.now) fault) }
{
    let chars = chars(alloc, text)?;
    tokens(alloc, text, &chars)
}

/// The characters of the text.
fn chars(alloc: Global, text: &str) -> Result<Vec<char>, Fault>
    ensures chars { IfOk result (λ chars. chars.items ≡ chars_of text.now) }
    ensures spelled { IfOk result (λ chars. SpelledAt text.now 0 chars.items) }
    ensures short { IfOk result (λ chars. bytes_of chars.items < 2 ^ 64) }
    ensures want { IfErr result (λ fault. fault ≡ FaultWant WantMemory) }
{
    // A text's length is a `usize`, so the places in it are.
    let _bytes = text.len();
    let chars = if text.is_ascii() {
        narrow_chars(alloc, text.as_bytes())?
    } else {
        wide_chars(alloc, text)?
    };
    Ok(chars)
}

/// The characters that the bytes are, one by one.
fn narrow_chars(alloc: Global, written: &[u8]) -> Result<Vec<char>, AllocError>
    ensures { IfOk result (λ chars. chars.items ≡ written.now) }
{
    let mut chars = Vec::with_capacity(alloc, written.len())?;
    for byte in written {
        chars.push_reserved(char::from(*byte));
    }
    Ok(chars)
}

/// The characters of any text.
fn wide_chars(alloc: Global, text: &str) -> Result<Vec<char>, AllocError>
    ensures { IfOk result (λ chars. chars.items ≡ chars_of text.now) }
{
    let mut chars = Vec::with_capacity(alloc, text.len())?;
    chars.extend(text.chars())?;
    Ok(chars)
}

/// The tokens that the characters spell, or the code of their first fault.
fn tokens(alloc: Global, text: &str, chars: &[char]) -> Result<Vec<Token>, Fault>
    requires short { bytes_of chars.now < 2 ^ 64 }
    requires spelled { SpelledAt text.now 0 chars.now }
    ensures { Lexes chars.now result }
{
    // Most tokens have five characters and more, with what separates them.
    let mut tokens = Vec::with_capacity(alloc, chars.len() / 8)?;
    let mut place = 0;
    let mut rest = chars;
    while let Some((token, after)) = next(alloc, text, place, rest)? {
        place += passed(rest, after);
        rest = after;
        tokens.push(token)?;
    }
    Ok(tokens)
}

/// The next token behind separators and what is left, or None at the end; so many bytes of the text
/// stand before the characters.
fn next<'a>(
    alloc: Global,
    text: &str,
    place: usize,
    chars: &'a [char],
) -> Result<Option<(Token, &'a [char])>, Fault>
    requires short { place + bytes_of chars.now < 2 ^ 64 }
    requires spelled { SpelledAt text.now place chars.now }
    ensures { Nexts chars.now result }
{
    let begun = skip(chars)?;
    if begun.is_empty() {
        return Ok(None);
    }
    let start = place + passed(chars, begun);
    let (token, rest) = token(alloc, text, start, begun)?;
    Ok(Some((token, rest)))
}

/// How many bytes spell the characters that stand before what is left.
fn passed(chars: &[char], rest: &[char]) -> usize
    requires short { bytes_of chars.now < 2 ^ 64 }
    requires suffix { (front : Text) × (front ++ rest.now ≡ chars.now) }
    ensures { result + bytes_of rest.now ≡ bytes_of chars.now }
{
    bytes(&chars[..chars.len() - rest.len()])
}

/// What the token at the front is, and what is left behind it; so many bytes of the text stand
/// before it.
#[tactic(auto, unfolding(crate::specs::Reading::read_token))]
fn token<'a>(
    alloc: Global,
    text: &str,
    place: usize,
    chars: &'a [char],
) -> Result<(Token, &'a [char]), Fault>
    requires short { place + bytes_of chars.now < 2 ^ 64 }
    requires spelled { SpelledAt text.now place chars.now }
    ensures { Gives (λ x. (lex_of x.0, x.1.now)) (lexed (spec.read_token chars.now)) result }
{
    match chars {
        [] => Err(Fault::Code(Code::XPST0003)),
        [c, rest @ ..] => {
            if is_name_start(*c) {
                name(alloc, text, place, chars)
            } else if begins_number(chars) {
                number(alloc, text, place, chars)
            } else if is_quote(*c) {
                string(alloc, text, place, *c, rest)
            } else {
                Ok(symbol(chars)?)
            }
        }
    }
}

/// The symbol at the front, and what is left behind it.
#[tactic(auto, unfolding(crate::specs::Reading::read_symbol))]
fn symbol(chars: &[char]) -> Result<(Token, &[char]), Code>
    ensures { GivesAlways (λ x. (lex_of x.0, x.1.now)) (lexed (spec.read_symbol chars.now)) result }
{
    if let [a, b, rest @ ..] = chars {
        if let Some(symbol) = double_symbol(*a, *b) {
            return Ok((Token::Sym(symbol), rest));
        }
    }
    match chars {
        [] => Err(Code::XPST0003),
        [a, rest @ ..] => match single_symbol(*a) {
            Some(symbol) => Ok((Token::Sym(symbol), rest)),
            None => Err(Code::XPST0003),
        },
    }
}
