//! White space and comments.
ghost use Rattle.std.specs.Prelude.{◌≡◌, ◌+◌, ◌<◌, ◌^◌, length, option_map};
ghost use Rattle.xq_lexer.specs.private.Lexes.{Skips};
ghost use Rattle.xq_lexer.specs.Reading as spec;
ghost use Rattle.xq_lexer.specs.Separators as sep;

use xq_atoms::{Code, is_char, is_space};

/// What is left behind the white space and the comments at the front. XPST0003 where a comment
/// stays open, or holds what is no character.
pub fn skip(chars: &[char]) -> Result<&[char], Code>
    ensures { Skips result (sep.skip 0 chars.now) }
{
    let mut depth = 0;
    let mut rest = chars;
    while let Some((deeper, after)) = step(depth, rest) {
        depth = deeper;
        rest = after;
    }
    if depth == 0 {
        Ok(rest)
    } else {
        Err(Code::XPST0003)
    }
}

/// What is left behind one character of the separators, or one mark of a comment, and how many
/// comments are open then.
fn step(depth: usize, chars: &[char]) -> Option<(usize, &[char])>
    requires { depth + length chars.now < 2 ^ 64 }
    ensures { option_map (λ x. (x.0, x.1.now)) result ≡ spec.skip_step depth chars.now }
{
    match chars {
        [a, b, rest @ ..] if opens(*a, *b) => Some((depth + 1, rest)),
        [a, b, rest @ ..] if depth > 0 && closes(*a, *b) => Some((depth - 1, rest)),
        [a, rest @ ..] if passes(depth, *a) => Some((depth, rest)),
        _ => None,
    }
}

fn opens(a: char, b: char) -> bool
    ensures { result ≡ sep.opens a b }
{
    a == '(' && b == ':'
}

fn closes(a: char, b: char) -> bool
    ensures { result ≡ sep.closes a b }
{
    a == ':' && b == ')'
}

/// Whether the character is passed over with so many comments open.
fn passes(depth: usize, c: char) -> bool
    ensures { result ≡ spec.passes depth c }
{
    if depth == 0 { is_space(c) } else { is_char(c) }
}
