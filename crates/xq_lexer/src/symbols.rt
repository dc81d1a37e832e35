//! Symbols.
ghost use Rattle.std.specs.Prelude.{◌≡◌};
ghost use Rattle.xq_lexer.specs.Reading as spec;

use crate::tokens::Symbol;

/// The symbol that the two characters spell.
pub fn double_symbol(first: char, second: char) -> Option<Symbol>
    ensures { result ≡ spec.double_symbol first second }
{
    match (first, second) {
        (':', '=') => Some(Symbol::Assign),
        (':', ':') => Some(Symbol::DoubleColon),
        ('/', '/') => Some(Symbol::DoubleSlash),
        ('.', '.') => Some(Symbol::DoubleDot),
        ('!', '=') => Some(Symbol::NotEqual),
        ('<', '=') => Some(Symbol::LessEqual),
        ('>', '=') => Some(Symbol::GreaterEqual),
        ('<', '<') => Some(Symbol::Precedes),
        ('>', '>') => Some(Symbol::Follows),
        ('|', '|') => Some(Symbol::DoubleBar),
        ('=', '>') => Some(Symbol::Arrow),
        _ => None,
    }
}

/// The symbol that the character alone spells.
pub fn single_symbol(c: char) -> Option<Symbol>
    ensures { result ≡ spec.single_symbol c }
{
    match c {
        '(' => Some(Symbol::OpenParenthesis),
        ')' => Some(Symbol::CloseParenthesis),
        '[' => Some(Symbol::OpenBracket),
        ']' => Some(Symbol::CloseBracket),
        '{' => Some(Symbol::OpenBrace),
        '}' => Some(Symbol::CloseBrace),
        ',' => Some(Symbol::Comma),
        '$' => Some(Symbol::Dollar),
        '/' => Some(Symbol::Slash),
        '.' => Some(Symbol::Dot),
        '@' => Some(Symbol::At),
        '*' => Some(Symbol::Star),
        '+' => Some(Symbol::Plus),
        '-' => Some(Symbol::Minus),
        '=' => Some(Symbol::Equal),
        '<' => Some(Symbol::Less),
        '>' => Some(Symbol::Greater),
        '|' => Some(Symbol::Bar),
        '!' => Some(Symbol::Bang),
        _ => None,
    }
}
