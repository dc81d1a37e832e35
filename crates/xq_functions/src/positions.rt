//! Characters by their positions, from 1.
ghost use Rattle.std.specs.Prelude.{◌≡◌, ℕ, ◌+◌, ◌^◌, ◌<◌, ◌≤◌, length, pos, ◌≤ℤ◌, int_lt, nat_lt, take, drop, encode_utf8_all};
ghost use Rattle.std.specs.Str.{chars};
ghost use Rattle.xq_meaning.specs.Texts as Texts;

/// How many characters the text has (fn:string-length, F&O 3.1, section 5.4.4).
pub fn character_count(text: &str) -> usize
    ensures count { result ≡ Texts.character_count text.now }
    ensures at_most { result ≤ length text.now }
{
    text.chars().count()
}

/// The characters from position `first` on (fn:substring, F&O 3.1, section 5.4.3); all of them
/// where it is below 1.
pub fn from_position(text: &str, first: i64) -> &str
    ensures { result.now ≡ Texts.from_position first text.now }
{
    after_characters(text, positions_below(i128::from(first)))
}

/// The characters at the positions from `first` on and before `first + length` (fn:substring,
/// F&O 3.1, section 5.4.3).
pub fn between_positions(text: &str, first: i64, length: i64) -> &str
    ensures { result.now ≡ Texts.between_positions first length text.now }
{
    let start = positions_below(i128::from(first));
    let end = positions_below(i128::from(first) + i128::from(length));
    before_characters(after_characters(text, start), end.saturating_sub(start))
}

/// How many positions, from 1, are below the bound.
fn positions_below(bound: i128) -> usize
    requires { bound ≤ℤ pos (2 ^ 64) }
    ensures { (index : ℕ) → int_lt (pos (index + 1)) bound ≡ nat_lt index result }
{
    if bound > 1 { (bound - 1) as usize } else { 0 }
}

/// The text after so many characters.
fn after_characters(text: &str, count: usize) -> &str
    ensures { result.now ≡ encode_utf8_all (drop count (chars text.now)) }
{
    let mut characters = text.chars();
    for _ in 0..count {
        if characters.next().is_none() {
            break;
        }
    }
    characters.as_str()
}

/// So many characters of the text, from its front.
fn before_characters(text: &str, count: usize) -> &str
    ensures { result.now ≡ encode_utf8_all (take count (chars text.now)) }
{
    let rest = after_characters(text, count);
    &text[..text.len() - rest.len()]
}
