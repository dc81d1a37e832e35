//! How deep tokens nest.
ghost use Rattle.std.specs.Prelude.{◌≡◌, ℕ, min};
ghost use Rattle.xq_lexer.specs.Lexeme.{lexemes};
ghost use Rattle.xq_lexer.specs.Nesting as spec;
ghost use Rattle.xq_lexer.specs.private.Changes.{first_change as first_change_lem};

use crate::tokens::{Symbol, Token};

/// The deepest nesting of a query.
pub const MAX_NESTING: u8 = 128;

/// What a token does to the running number of nested constructs.
#[derive(Clone, Copy)]
enum Change {
    Opens,
    Closes,
    Deepens,
    Keeps,
}

/// How deep the tokens nest: the greatest value of a running number that brackets and the words
/// that bind variables raise, or 129 where it is over 128. Takes no memory.
pub fn nesting(tokens: &[Token]) -> u32
    ensures { result ≡ min 129 (spec.nesting (lexemes tokens.now)) }
{
    // A saved number is greater than the one saved before it, so at most 128 are saved at once.
    let mut saved = [0u8; 128];
    let mut open = 0;
    let mut now = 0;
    let mut greatest = 0;
    for index in 0..tokens.len() {
        match first_change(&tokens[index..]) {
            Change::Opens => {
                if now == MAX_NESTING {
                    return 129;
                }
                saved[open] = now;
                open += 1;
                now += 1;
            }
            Change::Closes => {
                if open > 0 {
                    open -= 1;
                    now = saved[open];
                }
            }
            Change::Deepens => {
                if now == MAX_NESTING {
                    return 129;
                }
                now += 1;
            }
            Change::Keeps => {}
        }
        greatest = greatest.max(now);
    }
    u32::from(greatest)
}

/// What the first of the tokens does to the running number.
fn first_change(tokens: &[Token]) -> Change
    ensures { result ≡ first_change_lem (lexemes tokens.now) }
{
    match tokens {
        [Token::Name(name), rest @ ..] => name_change(name.as_str(), rest),
        [Token::Sym(symbol), ..] => symbol_change(*symbol),
        _ => Change::Keeps,
    }
}

/// What a symbol does to the running number.
fn symbol_change(symbol: Symbol) -> Change
    ensures { result ≡ spec.symbol_change symbol }
{
    match symbol {
        Symbol::OpenParenthesis | Symbol::OpenBracket | Symbol::OpenBrace => Change::Opens,
        Symbol::CloseParenthesis | Symbol::CloseBracket | Symbol::CloseBrace => Change::Closes,
        _ => Change::Keeps,
    }
}

/// What a name does to the running number, before the tokens that follow it.
fn name_change(name: &str, rest: &[Token]) -> Change
    ensures { result ≡ spec.name_change name.now (lexemes rest.now) }
{
    match rest {
        [Token::Sym(Symbol::Dollar), ..] if is_binder(name) => Change::Deepens,
        [Token::Sym(Symbol::OpenParenthesis), ..] if name == "if" => Change::Deepens,
        _ => Change::Keeps,
    }
}

/// Whether the word binds variables.
fn is_binder(name: &str) -> bool
    ensures { result ≡ spec.is_binder name.now }
{
    name == "for" || name == "let" || name == "some" || name == "every"
}
