//! Tokens.

use xq_atoms::Decimal;

/// What a token is (XQuery 3.1, appendix A.2, in this profile).
#[derive(Debug, Drop)]
pub enum Token {
    /// A name without a colon.
    Name(String),
    /// Two names with a colon between them.
    Prefixed { prefix: String, local: String },
    Int(i64),
    Dec(Decimal),
    /// The characters that a string literal stands for.
    Str(String),
    Sym(Symbol),
}

/// A token that is spelled in one way.
#[derive(Clone, Copy, Debug, PartialEq, Eq)]
pub enum Symbol {
    OpenParenthesis,
    CloseParenthesis,
    OpenBracket,
    CloseBracket,
    OpenBrace,
    CloseBrace,
    Comma,
    Dollar,
    /// `:=`
    Assign,
    /// `::`
    DoubleColon,
    Slash,
    DoubleSlash,
    Dot,
    DoubleDot,
    At,
    Star,
    Plus,
    Minus,
    Equal,
    NotEqual,
    Less,
    LessEqual,
    Greater,
    GreaterEqual,
    /// `<<`
    Precedes,
    /// `>>`
    Follows,
    Bar,
    DoubleBar,
    /// `=>`
    Arrow,
    /// `!`
    Bang,
}
