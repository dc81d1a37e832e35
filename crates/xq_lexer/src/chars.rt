//! Classes of characters that tokens are told by.
ghost use Rattle.std.specs.Prelude.{◌≡◌};
ghost use Rattle.xq_lexer.specs.Chars as spec;

/// Whether the character is a hexadecimal digit.
pub fn is_hex(c: char) -> bool
    ensures { result ≡ spec.is_hex c }
{
    matches!(c, '0'..='9' | 'A'..='F' | 'a'..='f')
}

/// Whether the character is `"` or `'`.
pub fn is_quote(c: char) -> bool
    ensures { result ≡ spec.is_quote c }
{
    c == '"' || c == '\''
}
