//! Lists: one phrase after another.
ghost use Rattle.std.specs.Prelude.{◌≡◌, Bool, Some, ◌∷◌};
ghost use Rattle.xq_lexer.specs.Lexeme.{lexemes, symbol as symbol_lex};
ghost use Rattle.xq_lexer.specs.declared.tokens.Symbol.TheVariants as s;
ghost use Rattle.xq_parser.specs.Look.{Tokens};
ghost use Rattle.xq_parser.specs.private.Reading as spec;
ghost use Rattle.xq_parser.specs.private.Parses.{ParsesAs, Parses};

use crate::lookahead::{expect_symbol, is_symbol};
use sqlite_items::Items;
use std::alloc::Global;
use xq_atoms::Fault;
use xq_lexer::{Symbol, Token};

/// What reads a phrase.
pub(crate) trait Phrase<'a> {
    /// What the phrase stands for.
    type Value: Drop;

    ghost ready: { Self → Type 0 };

    ghost reader: { Self → spec.Parser Self.Value };

    fn read(&self, tokens: &'a [Token]) -> Result<(Self::Value, &'a [Token]), Fault>
        requires { ready self.now }
        ensures { Parses result (reader self.now (lexemes tokens.now)) };
}

/// What reads a phrase wherever the next tokens say that one follows.
pub(crate) trait Repeated<'a> {
    /// What the phrase stands for.
    type Value: Drop;

    ghost ready: { Self → Type 0 };

    ghost test: { Self → Tokens → Bool };

    ghost reader: { Self → spec.Parser Self.Value };

    fn follows(&self, tokens: &[Token]) -> bool
        ensures { result ≡ test self.now (lexemes tokens.now) };

    fn next(&self, tokens: &'a [Token]) -> Result<(Self::Value, &'a [Token]), Fault>
        requires { ready self.now }
        ensures { Parses result (reader self.now (lexemes tokens.now)) };
}

/// One phrase after another, as long as they follow.
pub(crate) fn many<'a, R: Repeated<'a>>(
    alloc: Global,
    phrase: &R,
    tokens: &'a [Token],
) -> Result<(Items<R::Value>, &'a [Token]), Fault>
    requires { R.ready phrase.now }
    ensures { Parses result
        (spec.many (R.test phrase.now) (R.reader phrase.now) (lexemes tokens.now)) }
{
    if !phrase.follows(tokens) {
        return Ok((Items::new(alloc), tokens));
    }
    // Most lists have one item, and a push into an empty list takes room for four.
    let mut found = Items::from_vec(Vec::with_capacity(alloc, 1)?);
    let mut rest = tokens;
    for _turn in 0..tokens.len() {
        if !phrase.follows(rest) {
            return Ok((found, rest));
        }
        let (item, after) = phrase.next(rest)?;
        found.push(item)?;
        rest = after;
    }
    Ok((found, rest))
}

/// A phrase after a comma.
#[derive(Drop)]
pub(crate) struct AfterComma<'p, P>(pub(crate) &'p P);

impl<'a, 'p, P: Phrase<'a>> Repeated<'a> for AfterComma<'p, P> {
    type Value = P::Value;

    ghost ready = { λ it. P.ready it.0.now };

    ghost test = { λ _. spec.is (symbol_lex s.Comma) };

    ghost reader = { λ it. spec.after_comma (P.reader it.0.now) };

    fn follows(&self, tokens: &[Token]) -> bool {
        is_symbol(Symbol::Comma, tokens)
    }

    #[tactic(auto, unfolding(crate::specs::private::Reading::after_comma))]
    fn next(&self, tokens: &'a [Token]) -> Result<(P::Value, &'a [Token]), Fault> {
        let rest = expect_symbol(Symbol::Comma, tokens)?;
        self.0.read(rest)
    }
}

/// One phrase and more, with commas between them.
#[tactic(auto, unfolding(crate::specs::private::Reading::commas))]
pub(crate) fn commas<'a, P: Phrase<'a>>(
    alloc: Global,
    phrase: &P,
    tokens: &'a [Token],
) -> Result<(Items<P::Value>, &'a [Token]), Fault>
    requires { P.ready phrase.now }
    ensures { Parses result (spec.commas (P.reader phrase.now) (lexemes tokens.now)) }
{
    let (first, rest) = phrase.read(tokens)?;
    let (more, rest) = many(alloc, &AfterComma(phrase), rest)?;
    Ok((listed(alloc, first, more)?, rest))
}

/// The first item and those after it, in room for just these.
pub(crate) fn listed<T: Drop>(alloc: Global, first: T, more: Items<T>) -> Result<Items<T>, Fault>
    ensures { ParsesAs (λ x. x) result (Some (first ∷ more)) }
{
    let mut all = Items::from_vec(Vec::with_capacity(alloc, more.len().saturating_add(1))?);
    all.push(first)?;
    all.append(more)?;
    Ok(all)
}
