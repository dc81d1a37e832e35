//! How loosely operators between operands bind (XQuery 3.1, appendix A.4).
ghost use Rattle.std.specs.Prelude.{◌≡◌};
ghost use Rattle.xq_lexer.specs.Lexeme.{lexemes, name as name_lex};
ghost use Rattle.xq_parser.specs.Look as look;
ghost use Rattle.xq_parser.specs.private.Reading as spec;

use xq_lexer::{Symbol, Token};

/// `intersect` and `except`, which bind most tightly.
pub(crate) const SET: u8 = 1;

/// `union` and `|`.
pub(crate) const UNION: u8 = 2;

/// `*`, `div`, `idiv` and `mod`.
pub(crate) const PRODUCT: u8 = 3;

/// `+` and `-`.
pub(crate) const SUM: u8 = 4;

/// `to`.
pub(crate) const RANGE: u8 = 5;

/// `||`.
pub(crate) const CONCAT: u8 = 6;

/// The operators of comparisons.
pub(crate) const COMPARISON: u8 = 7;

/// `and`.
pub(crate) const AND: u8 = 8;

/// `or`, which binds most loosely.
pub(crate) const OR: u8 = 9;

/// How loosely the word binds as an operator between operands, or 0 where it is none.
#[tactic(auto, unfolding(crate::specs::Look::lookup, crate::specs::Look::same))]
fn word_level(word: &str) -> u8
    ensures { result ≡ spec.or_zero (look.lookup spec.word_levels (name_lex word.now)) }
{
    match word {
        "intersect" | "except" => SET,
        "union" => UNION,
        "div" | "idiv" | "mod" => PRODUCT,
        "to" => RANGE,
        "eq" | "ne" | "lt" | "le" | "gt" | "ge" | "is" => COMPARISON,
        "and" => AND,
        "or" => OR,
        _ => 0,
    }
}

/// How loosely the symbol binds as an operator between operands, or 0 where it is none.
fn symbol_level(symbol: Symbol) -> u8
    ensures { result ≡ spec.symbol_level symbol }
{
    match symbol {
        Symbol::Bar => UNION,
        Symbol::Star => PRODUCT,
        Symbol::Plus | Symbol::Minus => SUM,
        Symbol::DoubleBar => CONCAT,
        Symbol::Equal
        | Symbol::NotEqual
        | Symbol::Less
        | Symbol::LessEqual
        | Symbol::Greater
        | Symbol::GreaterEqual
        | Symbol::Precedes
        | Symbol::Follows => COMPARISON,
        _ => 0,
    }
}

/// How loosely the next token binds as an operator between operands, or 0 where it is none.
#[tactic(auto, unfolding(crate::specs::private::Reading::next_level, crate::specs::private::Reading::level_of))]
pub(crate) fn next_level(tokens: &[Token]) -> u8
    ensures { result ≡ spec.next_level (lexemes tokens.now) }
{
    match tokens {
        [Token::Name(word), ..] => word_level(word.as_str()),
        [Token::Sym(symbol), ..] => symbol_level(*symbol),
        _ => 0,
    }
}
