//! Casts between the types of atoms.
ghost use Rattle.std.specs.Prelude.{◌≡◌, ◌≤ℤ◌, pos, neg_ℤ, if◌then◌else◌};
ghost use Rattle.xq_atoms.specs.Judged.{only_if};
ghost use Rattle.xq_atoms.specs.Decimal.{is_decimal};
ghost use Rattle.xq_atoms.specs.Atom.{atomic_of, judged_of, is_integer, Integer, Decimal as ADecimal};
ghost use Rattle.xq_atoms.specs.Literal as Literal;
ghost use Rattle.xq_atoms.specs.Cast as Cast;
ghost use Rattle.xq_atoms.specs.private.Casting.{boolean_judged};

use crate::atoms::Atom;
use crate::decimals::Decimal;
use crate::literals::{FRACTION_DIGITS, millionths};
use crate::refusals::{Code, Want};
use crate::spaces::trimmed;
use crate::texts;
use std::alloc::Global;

/// The atom as an integer (F&O 3.1, section 19): a decimal is truncated towards zero, a boolean is
/// 1 or 0, and a text is `[+-]?d+` between white space. FORG0001 for another text, FOCA0003 out of
/// the range of 64 bits.
pub fn cast_int(atom: &Atom) -> Result<Atom, Code>
    ensures { judged_of result ≡ Cast.cast_integer (atomic_of atom.now) }
{
    match atom {
        Atom::Int(value) => Ok(Atom::Int(*value)),
        Atom::Dec(value) => integer_or_too_large(value.millionths() / 1_000_000),
        Atom::Bool(truth) => Ok(Atom::Int(i64::from(*truth))),
        Atom::Str(text) | Atom::Untyped(text) => integer_of_text(trimmed(text.as_bytes())),
    }
}

/// The atom as a decimal: a boolean is 1 or 0, and a text is `[+-]?(d+(.d*)?|.d+)` between white
/// space. FORG0001 for another text, FOCA0006 with more than six digits after the point, zeros at
/// the end not counted, else FOCA0001 out of range.
pub fn cast_dec(atom: &Atom) -> Result<Atom, Code>
    ensures { judged_of result ≡ Cast.cast_decimal (atomic_of atom.now) }
{
    match atom {
        Atom::Int(value) => Ok(Atom::Dec(Decimal::from_int(*value))),
        Atom::Dec(value) => Ok(Atom::Dec(*value)),
        Atom::Bool(truth) => Ok(Atom::Dec(Decimal::from_int(i64::from(*truth)))),
        Atom::Str(text) | Atom::Untyped(text) => decimal_of_text(trimmed(text.as_bytes())),
    }
}

/// The atom as a boolean: a number is true unless it is zero, and a text is `true`, `1`, `false` or
/// `0` between white space, else FORG0001.
pub fn cast_bool(atom: &Atom) -> Result<Atom, Code>
    ensures { judged_of result ≡ Cast.cast_boolean (atomic_of atom.now) }
{
    Ok(Atom::Bool(boolean(atom)?))
}

/// What `cast_bool` gives, as a `bool`.
pub fn boolean(atom: &Atom) -> Result<bool, Code>
    ensures { boolean_judged result ≡ Cast.cast_boolean (atomic_of atom.now) }
{
    match atom {
        Atom::Int(value) => Ok(*value != 0),
        Atom::Dec(value) => Ok(value.millionths() != 0),
        Atom::Bool(truth) => Ok(*truth),
        Atom::Str(text) | Atom::Untyped(text) => boolean_of_text(trimmed(text.as_bytes())),
    }
}

/// The integer that a text writes, as `[+-]?d+`.
fn integer_of_text(text: &[u8]) -> Result<Atom, Code>
    ensures { judged_of result ≡ Cast.integer_of_text text.now }
{
    let digits = after_sign(text);
    if digits.is_empty() || !texts::are_digits(digits) {
        return Err(Code::FORG0001);
    }
    match texts::value(digits) {
        Some(value) => integer_or_too_large(signed(text, i128::from(value))),
        None => Err(Code::FOCA0003),
    }
}

/// The decimal that a text writes, as `[+-]?(d+(.d*)?|.d+)`.
fn decimal_of_text(text: &[u8]) -> Result<Atom, Code>
    ensures { judged_of result ≡ Cast.decimal_of_text text.now }
{
    let number = after_sign(text);
    if !is_number(number) {
        return Err(Code::FORG0001);
    }
    let (whole, decimals) = texts::split_at_point(number);
    let fraction = texts::without_trailing_zeros(decimals);
    if fraction.len() > FRACTION_DIGITS {
        return Err(Code::FOCA0006);
    }
    match millionths(whole, fraction) {
        Some(millionths) => decimal_or_too_large(signed(text, millionths)),
        None => Err(Code::FOCA0001),
    }
}

/// The boolean that a text writes.
fn boolean_of_text(text: &[u8]) -> Result<bool, Code>
    ensures { boolean_judged result ≡ Cast.boolean_of_text text.now }
{
    if text == b"true".as_slice() || text == b"1".as_slice() {
        Ok(true)
    } else if text == b"false".as_slice() || text == b"0".as_slice() {
        Ok(false)
    } else {
        Err(Code::FORG0001)
    }
}

/// Whether a text is a number without a sign.
fn is_number(text: &[u8]) -> bool
    ensures { result ≡ Literal.is_number text.now }
{
    let (whole, decimals) = texts::split_at_point(text);
    !(whole.is_empty() && decimals.is_empty())
        && texts::are_digits(whole)
        && texts::are_digits(decimals)
}

/// The text after a sign at its front, if there is one.
fn after_sign(text: &[u8]) -> &[u8]
    ensures { result.now ≡ Cast.after_sign text.now }
{
    match text {
        [b'+' | b'-', rest @ ..] => rest,
        _ => text,
    }
}

/// The number with the sign that the text begins with.
fn signed(text: &[u8], magnitude: i128) -> i128
    requires { pos 0 ≤ℤ magnitude }
    ensures { result ≡ (if Cast.is_negated text.now then neg_ℤ magnitude else magnitude) }
{
    if text.first() == Some(&b'-') {
        -magnitude
    } else {
        magnitude
    }
}

/// An integer, or FOCA0003 out of the range of 64 bits.
fn integer_or_too_large(value: i128) -> Result<Atom, Code>
    ensures { judged_of result ≡ only_if (is_integer value) Code.FOCA0003 (Integer value) }
{
    match i64::try_from(value) {
        Ok(value) => Ok(Atom::Int(value)),
        Err(_) => Err(Code::FOCA0003),
    }
}

/// A decimal, or FOCA0001 out of range.
fn decimal_or_too_large(millionths: i128) -> Result<Atom, Code>
    ensures { judged_of result
        ≡ only_if (is_decimal millionths) Code.FOCA0001 (ADecimal millionths) }
{
    match Decimal::from_millionths(millionths) {
        Some(value) => Ok(Atom::Dec(value)),
        None => Err(Code::FOCA0001),
    }
}
