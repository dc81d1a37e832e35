//! What the next tokens are.
ghost use Rattle.std.specs.Prelude.{◌≡◌, Some};
ghost use Rattle.xq_lexer.specs.Lexeme.{lexemes, name as name_lex, symbol as symbol_lex};
ghost use Rattle.xq_parser.specs.Look as look;
ghost use Rattle.xq_parser.specs.Grammar as g;
ghost use Rattle.xq_parser.specs.private.Reading as spec;
ghost use Rattle.xq_parser.specs.private.Alone.{begins_end, ends as ends_lem, stands_alone};
ghost use Rattle.xq_parser.specs.private.Parses.{ParsesAs, Parses};

use crate::words::{
    is_constructor_word, is_named_constructor_word, is_reserved_name, named_node_word,
    quantifier_word,
};
use std::alloc::Global;
use xq_atoms::{Code, Fault};
use xq_expressions::{QName, Text};
use xq_lexer::{Symbol, Token};

#[tactic(auto, unfolding(crate::specs::Look::same_symbol))]
fn same_symbol(a: Symbol, b: Symbol) -> bool
    ensures { result ≡ look.same_symbol a b }
{
    a == b
}

/// Whether the next token is the symbol.
#[tactic(auto, unfolding(crate::specs::private::Reading::begins, crate::specs::Look::lookup, crate::specs::Look::same))]
pub(crate) fn is_symbol(symbol: Symbol, tokens: &[Token]) -> bool
    ensures { result ≡ spec.is (symbol_lex symbol) (lexemes tokens.now) }
{
    match tokens {
        [Token::Sym(next), ..] => same_symbol(*next, symbol),
        _ => false,
    }
}

/// Whether the next token is the word.
#[tactic(auto, unfolding(crate::specs::private::Reading::begins, crate::specs::Look::lookup, crate::specs::Look::same))]
pub(crate) fn is_word(word: &str, tokens: &[Token]) -> bool
    ensures { result ≡ spec.is (name_lex word.now) (lexemes tokens.now) }
{
    match tokens {
        [Token::Name(name), ..] => name.as_str() == word,
        _ => false,
    }
}

/// The tokens after the symbol, which is the next token.
#[tactic(auto, unfolding(crate::specs::private::Reading::one_of, crate::specs::Look::lookup, crate::specs::Look::same))]
pub(crate) fn expect_symbol(symbol: Symbol, tokens: &[Token]) -> Result<&[Token], Fault>
    ensures { ParsesAs (λ x. (tt, lexemes x.now)) result
        (spec.expect (symbol_lex symbol) (lexemes tokens.now)) }
{
    match tokens {
        [Token::Sym(next), rest @ ..] => {
            if same_symbol(*next, symbol) {
                Ok(rest)
            } else {
                Err(Fault::Code(Code::XPST0003))
            }
        }
        _ => Err(Fault::Code(Code::XPST0003)),
    }
}

/// The tokens after the word, which is the next token.
#[tactic(auto, unfolding(crate::specs::private::Reading::one_of, crate::specs::Look::lookup, crate::specs::Look::same))]
pub(crate) fn expect_word<'a>(word: &str, tokens: &'a [Token]) -> Result<&'a [Token], Fault>
    ensures { ParsesAs (λ x. (tt, lexemes x.now)) result
        (spec.expect (name_lex word.now) (lexemes tokens.now)) }
{
    match tokens {
        [Token::Name(name), rest @ ..] => {
            if name.as_str() == word {
                Ok(rest)
            } else {
                Err(Fault::Code(Code::XPST0003))
            }
        }
        _ => Err(Fault::Code(Code::XPST0003)),
    }
}

/// The name that is the next token, without a prefix.
pub(crate) fn ncname(alloc: Global, tokens: &[Token]) -> Result<(Text, &[Token]), Fault>
    ensures { Parses result (spec.nc (lexemes tokens.now)) }
{
    match tokens {
        [Token::Name(name), rest @ ..] => { Ok((Text::copy_of(alloc, name.as_str())?, rest)) }
        _ => Err(Fault::Code(Code::XPST0003)),
    }
}

/// A name with a prefix.
fn prefixed(alloc: Global, prefix: &str, local: &str) -> Result<QName, Fault>
    ensures { ParsesAs (λ x. x) result (Some (g.with_prefix prefix.now local.now)) }
{
    let prefix = Some(Text::copy_of(alloc, prefix)?);
    let local = Text::copy_of(alloc, local)?;
    Ok(QName { prefix, local })
}

/// The name that is the next token.
#[tactic(auto, unfolding(crate::specs::private::Reading::qname))]
pub(crate) fn qname(alloc: Global, tokens: &[Token]) -> Result<(QName, &[Token]), Fault>
    ensures { Parses result (spec.qname (lexemes tokens.now)) }
{
    match tokens {
        [Token::Name(name), rest @ ..] => {
            let local = Text::copy_of(alloc, name.as_str())?;
            Ok((
                QName {
                    prefix: None,
                    local,
                },
                rest,
            ))
        }
        [Token::Prefixed { prefix, local }, rest @ ..] => {
            Ok((prefixed(alloc, prefix.as_str(), local.as_str())?, rest))
        }
        _ => Err(Fault::Code(Code::XPST0003)),
    }
}

/// The name of a call that is the next token.
#[tactic(auto, unfolding(crate::specs::private::Reading::call_name, crate::specs::private::Reading::qname))]
pub(crate) fn call_name(alloc: Global, tokens: &[Token]) -> Result<(QName, &[Token]), Fault>
    ensures { Parses result (spec.call_name (lexemes tokens.now)) }
{
    match tokens {
        [Token::Name(name), ..] => {
            if is_reserved_name(name.as_str()) {
                return Err(Fault::Code(Code::XPST0003));
            }
            qname(alloc, tokens)
        }
        [Token::Prefixed { .. }, ..] => qname(alloc, tokens),
        _ => Err(Fault::Code(Code::XPST0003)),
    }
}

/// `$` and a name.
#[tactic(auto, unfolding(crate::specs::private::Reading::variable))]
pub(crate) fn variable(alloc: Global, tokens: &[Token]) -> Result<(QName, &[Token]), Fault>
    ensures { Parses result (spec.variable (lexemes tokens.now)) }
{
    let rest = expect_symbol(Symbol::Dollar, tokens)?;
    qname(alloc, rest)
}

/// A variable after `at`, if the next token is this word.
#[tactic(auto, unfolding(crate::specs::private::Reading::position))]
pub(crate) fn position(alloc: Global, tokens: &[Token]) -> Result<(Option<QName>, &[Token]), Fault>
    ensures { Parses result (spec.position (lexemes tokens.now)) }
{
    if is_word("at", tokens) {
        let rest = expect_word("at", tokens)?;
        let (name, rest) = variable(alloc, rest)?;
        Ok((Some(name), rest))
    } else {
        Ok((None, tokens))
    }
}

/// Whether the next token is a name without a prefix.
pub(crate) fn begins_nc(tokens: &[Token]) -> bool
    ensures { result ≡ spec.begins_nc (lexemes tokens.now) }
{
    matches!(tokens, [Token::Name(_), ..])
}

/// Whether the next token is a name.
pub(crate) fn begins_name(tokens: &[Token]) -> bool
    ensures { result ≡ spec.begins_name (lexemes tokens.now) }
{
    matches!(tokens, [Token::Name(_) | Token::Prefixed { .. }, ..])
}

/// Whether the next token is `{`.
fn begins_brace(tokens: &[Token]) -> bool
    ensures { result ≡ spec.begins_brace (lexemes tokens.now) }
{
    matches!(tokens, [Token::Sym(Symbol::OpenBrace), ..])
}

/// Whether the next token is a name that no `(` follows.
pub(crate) fn begins_name_test(tokens: &[Token]) -> bool
    ensures { result ≡ spec.begins_name_test (lexemes tokens.now) }
{
    match tokens {
        [Token::Name(_), Token::Sym(Symbol::OpenParenthesis), ..] => false,
        [Token::Name(_) | Token::Prefixed { .. }, ..] => true,
        _ => false,
    }
}

/// Whether the next token is a name that `::` follows.
pub(crate) fn begins_axis(tokens: &[Token]) -> bool
    ensures { result ≡ spec.begins_axis (lexemes tokens.now) }
{
    matches!(
        tokens,
        [Token::Name(_), Token::Sym(Symbol::DoubleColon), ..]
    )
}

/// Whether the next tokens are the name of a call and `(`.
#[tactic(auto, unfolding(crate::specs::private::Reading::begins_call))]
pub(crate) fn begins_call(tokens: &[Token]) -> bool
    ensures { result ≡ spec.begins_call (lexemes tokens.now) }
{
    match tokens {
        [Token::Name(name), Token::Sym(Symbol::OpenParenthesis), ..] => {
            !is_reserved_name(name.as_str())
        }
        [
            Token::Prefixed { .. },
            Token::Sym(Symbol::OpenParenthesis),
            ..
        ] => true,
        _ => false,
    }
}

/// Whether the tokens after the word make it that of a constructor.
fn is_constructor(word: &str, tokens: &[Token]) -> bool
    ensures { result ≡ spec.makes word.now (lexemes tokens.now) }
{
    match tokens {
        [Token::Sym(Symbol::OpenBrace), ..] => is_constructor_word(word),
        [Token::Name(_), rest @ ..] => begins_brace(rest) && is_named_constructor_word(word),
        [Token::Prefixed { .. }, rest @ ..] => {
            begins_brace(rest) && named_node_word(word).is_some()
        }
        _ => false,
    }
}

/// Whether the next tokens begin a constructor.
#[tactic(auto, unfolding(crate::specs::private::Reading::begins_make))]
pub(crate) fn begins_constructor(tokens: &[Token]) -> bool
    ensures { result ≡ spec.begins_make (lexemes tokens.now) }
{
    match tokens {
        [Token::Name(name), rest @ ..] => is_constructor(name.as_str(), rest),
        _ => false,
    }
}

/// Whether the next token alone begins a primary expression.
#[tactic(auto, unfolding(crate::specs::private::Reading::begins_literal))]
fn begins_literal(tokens: &[Token]) -> bool
    ensures { result ≡ spec.begins_literal (lexemes tokens.now) }
{
    match tokens {
        [Token::Int(_) | Token::Dec(_) | Token::Str(_), ..] => true,
        [
            Token::Sym(Symbol::Dollar | Symbol::OpenParenthesis | Symbol::Dot),
            ..
        ] => true,
        _ => false,
    }
}

/// Whether the next token is a literal that is an expression by itself, since what stands behind it
/// ends the expression.
#[tactic(auto, unfolding(crate::specs::private::Alone::stands_alone))]
pub(crate) fn is_alone(tokens: &[Token]) -> bool
    ensures { result ≡ stands_alone (lexemes tokens.now) }
{
    match tokens {
        [
            Token::Int(_) | Token::Dec(_) | Token::Str(_),
            Token::Sym(
                Symbol::Comma
                | Symbol::CloseParenthesis
                | Symbol::CloseBracket
                | Symbol::CloseBrace,
            ),
            ..
        ] => true,
        _ => false,
    }
}

/// Whether the next token ends an expression.
#[tactic(auto, unfolding(crate::specs::private::Alone::begins_end))]
pub(crate) fn ends_expression(tokens: &[Token]) -> bool
    ensures { result ≡ begins_end (lexemes tokens.now) }
{
    match tokens {
        [Token::Sym(symbol), ..] => ends(*symbol),
        _ => false,
    }
}

/// Whether no expression goes on with the symbol.
fn ends(symbol: Symbol) -> bool
    ensures { result ≡ ends_lem (symbol_lex symbol) }
{
    matches!(
        symbol,
        Symbol::Comma | Symbol::CloseParenthesis | Symbol::CloseBracket | Symbol::CloseBrace
    )
}

/// Whether the next tokens begin a primary expression.
#[tactic(auto, unfolding(crate::specs::private::Reading::begins_primary))]
pub(crate) fn begins_primary(tokens: &[Token]) -> bool
    ensures { result ≡ spec.begins_primary (lexemes tokens.now) }
{
    begins_literal(tokens) || begins_call(tokens) || begins_constructor(tokens)
}

/// Whether the next token begins a step.
fn begins_step(tokens: &[Token]) -> bool
    ensures { result ≡ look.begins_step (lexemes tokens.now) }
{
    match tokens {
        [] => false,
        [Token::Sym(symbol), ..] => matches!(
            symbol,
            Symbol::Dollar
                | Symbol::OpenParenthesis
                | Symbol::Dot
                | Symbol::DoubleDot
                | Symbol::At
                | Symbol::Star
        ),
        _ => true,
    }
}

/// Whether the next token is a `/` that nothing which begins a step follows.
#[tactic(auto, unfolding(crate::specs::private::Reading::begins_lone))]
pub(crate) fn begins_lone(tokens: &[Token]) -> bool
    ensures { result ≡ spec.begins_lone (lexemes tokens.now) }
{
    match tokens {
        [Token::Sym(Symbol::Slash), rest @ ..] => !begins_step(rest),
        _ => false,
    }
}

/// Whether the next tokens begin a FLWOR expression.
#[tactic(auto, unfolding(crate::specs::private::Reading::begins_flwor))]
pub(crate) fn begins_flwor(tokens: &[Token]) -> bool
    ensures { result ≡ spec.begins_flwor (lexemes tokens.now) }
{
    match tokens {
        [Token::Name(name), Token::Sym(Symbol::Dollar), ..] => {
            name.as_str() == "for" || name.as_str() == "let"
        }
        _ => false,
    }
}

/// Whether the next tokens begin a quantified expression.
#[tactic(auto, unfolding(crate::specs::private::Reading::begins_quantified))]
pub(crate) fn begins_quantified(tokens: &[Token]) -> bool
    ensures { result ≡ spec.begins_quantified (lexemes tokens.now) }
{
    match tokens {
        [Token::Name(name), Token::Sym(Symbol::Dollar), ..] => {
            quantifier_word(name.as_str()).is_some()
        }
        _ => false,
    }
}

/// Whether the next tokens begin a conditional expression.
#[tactic(auto, unfolding(crate::specs::private::Reading::begins_if))]
pub(crate) fn begins_if(tokens: &[Token]) -> bool
    ensures { result ≡ spec.begins_if (lexemes tokens.now) }
{
    match tokens {
        [Token::Name(name), Token::Sym(Symbol::OpenParenthesis), ..] => { name.as_str() == "if" }
        _ => false,
    }
}
