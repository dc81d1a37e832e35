//! What texts of numbers are made of, by bytes.
ghost use Rattle.std.specs.Prelude.{◌≡◌, ◌^◌, ◌<◌, IsTrue, SomeIff, position};
ghost use Rattle.xq_atoms.specs.Text as Text;
ghost use Rattle.xq_atoms.specs.Literal as Literal;

/// The digits without the zeros at their end.
pub fn without_trailing_zeros(digits: &[u8]) -> &[u8]
    ensures { result.now ≡ Literal.without_trailing_zeros digits.now }
{
    let mut rest = digits;
    while let Some((last, others)) = rest.split_last() {
        if *last != b'0' {
            break;
        }
        rest = others;
    }
    rest
}

/// Whether each byte is a digit.
pub fn are_digits(text: &[u8]) -> bool
    ensures { result ≡ Text.are_digits text.now }
{
    text.iter().all(|byte| byte.is_ascii_digit())
}

/// The number that digits write, or None where it does not fit 64 bits.
pub fn value(digits: &[u8]) -> Option<u64>
    requires { IsTrue (Text.are_digits digits.now) }
    ensures { SomeIff result (Text.value digits.now < 2 ^ 64) (Text.value digits.now) }
{
    let mut value: u64 = 0;
    for digit in digits {
        value = value
            .checked_mul(10)?
            .checked_add(u64::from(*digit - b'0'))?;
    }
    Some(value)
}

/// The digits before the point and those after it, or all and none where there is no point.
pub fn split_at_point(text: &[u8]) -> (&[u8], &[u8])
    ensures whole { result.0.now ≡ Literal.whole_part text.now }
    ensures decimals { result.1.now ≡ Literal.after_point text.now }
{
    match point_of(text) {
        Some(point) => (&text[..point], &text[point + 1..]),
        None => (text, &[]),
    }
}

/// Where the first point stands.
fn point_of(text: &[u8]) -> Option<usize>
    ensures { result ≡ position Literal.is_point text.now }
{
    text.iter().position(|byte| *byte == b'.')
}
