//! Characters and names of XML 1.0 (sections 2.2 and 2.3): queries and documents consist of them.

ghost use Rattle.std.specs.Prelude.{◌≡◌, slice_get};
ghost use Rattle.std.specs.List.{list_all};
ghost use Rattle.std.specs.Str.{chars};
ghost use Rattle.xq_atoms.specs.Characters as spec;

/// Whether the character may stand in a document, and in a query (section 2.2, Char).
#[tactic(auto, unfolding(crate::specs::Characters::is_char))]
pub fn is_char(c: char) -> bool
    ensures { result ≡ spec.is_char c }
{
    matches!(
        c,
        '\t' | '\n' | '\r'
            | ' '..='\u{D7FF}'
            | '\u{E000}'..='\u{FFFD}'
            | '\u{10000}'..='\u{10FFFF}'
    )
}

/// Whether the character is white space (section 2.3, S).
pub fn is_space(c: char) -> bool
    ensures { result ≡ spec.is_space c }
{
    matches!(c, ' ' | '\t' | '\r' | '\n')
}

/// Whether the character is a decimal digit.
pub fn is_digit(c: char) -> bool
    ensures { result ≡ spec.is_digit c }
{
    matches!(c, '0'..='9')
}

/// Whether a name may begin with the character (section 2.3, NameStartChar, without the colon).
#[tactic(auto, unfolding(crate::specs::Characters::is_name_start))]
pub fn is_name_start(c: char) -> bool
    ensures { result ≡ spec.is_name_start c }
{
    matches!(
        c,
        'A'..='Z' | '_' | 'a'..='z'
            | '\u{C0}'..='\u{D6}'
            | '\u{D8}'..='\u{F6}'
            | '\u{F8}'..='\u{2FF}'
            | '\u{370}'..='\u{37D}'
            | '\u{37F}'..='\u{1FFF}'
            | '\u{200C}'..='\u{200D}'
            | '\u{2070}'..='\u{218F}'
            | '\u{2C00}'..='\u{2FEF}'
            | '\u{3001}'..='\u{D7FF}'
            | '\u{F900}'..='\u{FDCF}'
            | '\u{FDF0}'..='\u{FFFD}'
            | '\u{10000}'..='\u{EFFFF}'
    )
}

/// Whether the character may stand in a name behind its first (section 2.3, NameChar, without the
/// colon).
#[tactic(auto, unfolding(crate::specs::Characters::is_name_char))]
pub fn is_name_char(c: char) -> bool
    ensures { result ≡ spec.is_name_char c }
{
    is_name_start(c)
        || matches!(
            c,
            '-' | '.' | '0'..='9' | '\u{B7}' | '\u{300}'..='\u{36F}' | '\u{203F}'..='\u{2040}'
        )
}

/// Whether all characters may stand in a name.
fn are_name_chars(text: &str) -> bool
    ensures { result ≡ list_all spec.is_name_char (chars text.now) }
{
    text.chars().all(|c| is_name_char(c))
}

/// The first character.
fn first_char(text: &str) -> Option<char>
    ensures { result ≡ slice_get (chars text.now) 0 }
{
    text.chars().next()
}

/// Whether the text is a name without a colon (Namespaces in XML 1.0, section 3, NCName).
pub fn is_name(text: &str) -> bool
    ensures { result ≡ spec.is_name (chars text.now) }
{
    match first_char(text) {
        None => false,
        Some(c) => is_name_start(c) && are_name_chars(text),
    }
}
