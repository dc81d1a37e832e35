//! Numeric literals.
ghost use Rattle.std.specs.Prelude.{◌≡◌, ◌+◌, ◌-◌, ◌*◌, ◌^◌, ◌<◌, ◌≤◌, length, IsTrue, SomeIff, pos};
ghost use Rattle.xq_atoms.specs.Text as Text;
ghost use Rattle.xq_atoms.specs.Literal as Literal;

use crate::decimals::Decimal;
use crate::refusals::Code;
use crate::texts;

/// How many digits of a fraction are kept.
pub const FRACTION_DIGITS: usize = 6;

/// The integer that digits write (XQuery 3.1, section 3.1.1), or FOAR0002 where it is out of the
/// range of 64 bits.
pub fn int_literal(text: &str) -> Result<i64, Code>
    requires { IsTrue (Text.is_whole text.now) }
    ensures { result ≡ Literal.integer_literal text.now }
{
    match texts::value(text.as_bytes()) {
        Some(value) => i64::try_from(value).map_err(|_| Code::FOAR0002),
        None => Err(Code::FOAR0002),
    }
}

/// The decimal that digits with a point write (XQuery 3.1, section 3.1.1): prof:DIGITS where more
/// than six digits stand after the point, zeros at the end not counted, else FOAR0002 where it is
/// out of range.
pub fn dec_literal(text: &str) -> Result<Decimal, Code>
    requires { IsTrue (Literal.is_number text.now) }
    ensures { result ≡ Literal.decimal_literal text.now }
{
    let (whole, decimals) = texts::split_at_point(text.as_bytes());
    let fraction = texts::without_trailing_zeros(decimals);
    if fraction.len() > FRACTION_DIGITS {
        return Err(Code::ProfDigits);
    }
    match millionths(whole, fraction) {
        Some(millionths) => Decimal::from_millionths(millionths).ok_or(Code::FOAR0002),
        None => Err(Code::FOAR0002),
    }
}

/// The millionths that digits before and after a point write, or None where the whole part does
/// not fit 64 bits.
pub fn millionths(whole: &[u8], fraction: &[u8]) -> Option<i128>
    requires whole { IsTrue (Text.are_digits whole.now) }
    requires fraction { IsTrue (Text.are_digits fraction.now) }
    requires short { length fraction.now ≤ 6 }
    ensures { SomeIff result (Text.value whole.now < 2 ^ 64)
        (pos (Literal.millionths_of whole.now fraction.now)) }
{
    let missing = FRACTION_DIGITS - fraction.len();
    let below = texts::value(fraction)? * 10u64.pow(missing as u32);
    Some(i128::from(texts::value(whole)?) * 1_000_000 + i128::from(below))
}
