//! White space at the ends of texts (XML 1.0, section 2.3, S), by bytes: each of it is one byte.
ghost use Rattle.std.specs.Prelude.{◌≡◌};
ghost use Rattle.xq_atoms.specs.Characters.{is_space as is_space_lem};
ghost use Rattle.xq_atoms.specs.Spaces as spec;

/// Whether the byte is white space.
fn is_space_byte(byte: u8) -> bool
    ensures { result ≡ is_space_lem byte }
{
    matches!(byte, b' ' | b'\t' | b'\r' | b'\n')
}

/// The text from the first byte on that is no white space.
pub fn after_spaces(text: &[u8]) -> &[u8]
    ensures { result.now ≡ spec.after_leading is_space_lem text.now }
{
    let mut rest = text;
    while let Some((first, others)) = rest.split_first() {
        if !is_space_byte(*first) {
            break;
        }
        rest = others;
    }
    rest
}

/// What comes before the white space at the end.
fn before_spaces(text: &[u8]) -> &[u8]
    ensures { result.now ≡ spec.before_trailing is_space_lem text.now }
{
    let mut rest = text;
    while let Some((last, others)) = rest.split_last() {
        if !is_space_byte(*last) {
            break;
        }
        rest = others;
    }
    rest
}

/// The text without the white space at its ends.
pub fn trimmed(text: &[u8]) -> &[u8]
    ensures { result.now ≡ spec.trimmed text.now }
{
    before_spaces(after_spaces(text))
}
