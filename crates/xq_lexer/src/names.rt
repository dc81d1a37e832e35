//! Names.
ghost use Rattle.std.specs.Prelude.{◌≡◌, ◌+◌, ◌<◌, ◌^◌, Ok};
ghost use Rattle.xq_atoms.specs.Answers.{Gives};
ghost use Rattle.xq_lexer.specs.private.Lexes.{SpelledAt, lexed};
ghost use Rattle.xq_lexer.specs.Lexeme.{lex_of};
ghost use Rattle.xq_lexer.specs.Reading as spec;
ghost use Rattle.xq_lexer.specs.Spelling.{bytes as bytes_of};

use crate::runs::{Class, cut, run, text};
use crate::tokens::Token;
use std::alloc::Global;
use xq_atoms::{Fault, is_name_start};

/// The name at the front, or the two names with a colon between them, and what is left; so many
/// bytes stand before it in what is written.
#[tactic(auto, unfolding(crate::specs::Reading::read_name, crate::specs::Reading::after_name))]
pub fn name<'a>(
    alloc: Global,
    written: &str,
    place: usize,
    chars: &'a [char],
) -> Result<(Token, &'a [char]), Fault>
    requires short { place + bytes_of chars.now < 2 ^ 64 }
    requires spelled { SpelledAt written.now place chars.now }
    ensures { Gives (λ x. (lex_of x.0, x.1.now)) (lexed (Ok (spec.read_name chars.now))) result }
{
    let (first, rest) = run(Class::Name, chars);
    match rest {
        [colon, start, ..] if *colon == ':' && is_name_start(*start) => {
            let (local, rest) = run(Class::Name, &rest[1..]);
            let prefix = text(alloc, first)?;
            let local = text(alloc, local)?;
            Ok((Token::Prefixed { prefix, local }, rest))
        }
        _ => Ok((Token::Name(cut(alloc, written, place, first)?), rest)),
    }
}
