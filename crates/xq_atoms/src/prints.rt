//! Atoms as texts.
ghost use Rattle.std.specs.Prelude.{◌≡◌, ◌%◌, ◌<◌, ◌++◌, take, length, flat_map, encode_utf8, All, OnOk, OnErr, IfOk, IfErr, string_bytes, nat_abs, decimal as decimal_digits};
ghost use Rattle.xq_atoms.specs.Atom.{atomic_of};
ghost use Rattle.xq_atoms.specs.Cast as Cast;
ghost use Rattle.xq_atoms.specs.Print as Print;

use crate::atoms::Atom;
use crate::decimals::Decimal;
use crate::refusals::Want;
use crate::texts;
use itoa::Buffer;
use std::alloc::Global;

/// Appends an expression that gives the atom: digits, with a point for a decimal, `true()` or
/// `false()`, a string in quotes, `xs:untypedAtomic("..")`. A refusal leaves the text as it was.
pub fn print(atom: &Atom, out: &mut String) -> Result<(), Want>
    ensures ok { OnOk result
        (string_bytes out.new ≡ string_bytes out.old ++ Print.print_atomic (atomic_of atom.now)) }
    ensures err { OnErr result (string_bytes out.new ≡ string_bytes out.old) }
    ensures want { IfErr result (λ want. want ≡ Want.Memory) }
{
    let length = out.as_str().len();
    let outcome = append_atom(atom, out);
    if outcome.is_err() {
        out.truncate(length);
    }
    outcome
}

/// The text of an atom (F&O 3.1, section 19.1): a whole decimal as an integer, another without
/// needless zeros.
pub fn cast_str(alloc: Global, atom: &Atom) -> Result<String, Want>
    ensures ok { IfOk result (λ text. string_bytes text ≡ Cast.text_of (atomic_of atom.now)) }
    ensures want { IfErr result (λ want. want ≡ Want.Memory) }
{
    match atom {
        Atom::Int(value) => {
            let mut buffer = Buffer::new();
            Ok(String::from_str(alloc, buffer.format(*value))?)
        }
        Atom::Dec(value) => decimal_text(alloc, *value),
        Atom::Bool(true) => Ok(String::from_str(alloc, "true")?),
        Atom::Bool(false) => Ok(String::from_str(alloc, "false")?),
        Atom::Str(text) | Atom::Untyped(text) => Ok(String::from_str(alloc, text.as_str())?),
    }
}

/// The text of a decimal, without a point where it is whole.
fn decimal_text(alloc: Global, value: Decimal) -> Result<String, Want>
    ensures ok { IfOk result (λ text. string_bytes text ≡ Cast.decimal_text value) }
    ensures want { IfErr result (λ want. want ≡ Want.Memory) }
{
    let mut out = String::new(alloc);
    append_whole(value, &mut out)?;
    let digits = six_digits(fraction_of(value));
    let fraction = texts::without_trailing_zeros(&digits);
    if !fraction.is_empty() {
        out.push('.')?;
        append_digits(fraction, &mut out)?;
    }
    Ok(out)
}

/// Appends the printed atom, or a part of it where there was no room for all.
fn append_atom(atom: &Atom, out: &mut String) -> Result<(), Want>
    ensures ok { OnOk result
        (string_bytes out.new ≡ string_bytes out.old ++ Print.print_atomic (atomic_of atom.now)) }
    ensures kept { take (length (string_bytes out.old)) (string_bytes out.new)
        ≡ string_bytes out.old }
    ensures want { IfErr result (λ want. want ≡ Want.Memory) }
{
    match atom {
        Atom::Int(i64::MIN) => out.push_str("xs:integer(\"-9223372036854775808\")")?,
        Atom::Int(value) => {
            let mut buffer = Buffer::new();
            out.push_str(buffer.format(*value))?;
        }
        Atom::Dec(value) => append_decimal(*value, out)?,
        Atom::Str(text) => append_quoted(text.as_str(), out)?,
        Atom::Bool(true) => out.push_str("true()")?,
        Atom::Bool(false) => out.push_str("false()")?,
        Atom::Untyped(text) => {
            out.push_str("xs:untypedAtomic(")?;
            append_quoted(text.as_str(), out)?;
            out.push(')')?;
        }
    }
    Ok(())
}

/// Appends a decimal, with at least one digit after its point.
fn append_decimal(value: Decimal, out: &mut String) -> Result<(), Want>
    ensures ok { OnOk result
        (string_bytes out.new ≡ string_bytes out.old ++ Print.print_decimal value) }
    ensures kept { take (length (string_bytes out.old)) (string_bytes out.new)
        ≡ string_bytes out.old }
    ensures want { IfErr result (λ want. want ≡ Want.Memory) }
{
    append_whole(value, out)?;
    out.push('.')?;
    let digits = six_digits(fraction_of(value));
    let fraction = texts::without_trailing_zeros(&digits);
    if fraction.is_empty() {
        out.push('0')?;
    } else {
        append_digits(fraction, out)?;
    }
    Ok(())
}

/// Appends the sign of a decimal and its digits before the point.
fn append_whole(value: Decimal, out: &mut String) -> Result<(), Want>
    ensures ok { OnOk result
        (string_bytes out.new ≡ string_bytes out.old ++ Cast.whole_text value) }
    ensures kept { take (length (string_bytes out.old)) (string_bytes out.new)
        ≡ string_bytes out.old }
    ensures want { IfErr result (λ want. want ≡ Want.Memory) }
{
    if value.millionths() < 0 {
        out.push('-')?;
    }
    let mut buffer = Buffer::new();
    out.push_str(buffer.format(value.millionths().unsigned_abs() / 1_000_000))?;
    Ok(())
}

/// The millionths beyond the whole part, without the sign.
fn fraction_of(value: Decimal) -> u64
    ensures value { result ≡ nat_abs value % 1000000 }
    ensures below { result < 1000000 }
{
    (value.millionths().unsigned_abs() % 1_000_000) as u64
}

/// The number in six digits.
fn six_digits(number: u64) -> [u8; 6]
    requires { number < 1000000 }
    ensures { result ≡ Cast.six_digits number }
{
    let mut digits = [b'0'; 6];
    itoa::write_digits(number, &mut digits, 6);
    digits
}

/// Appends ASCII bytes.
fn append_digits(digits: &[u8], out: &mut String) -> Result<(), Want>
    requires { All (λ digit. digit < 128) digits.now }
    ensures ok { OnOk result
        (string_bytes out.new ≡ string_bytes out.old ++ digits.now) }
    ensures kept { take (length (string_bytes out.old)) (string_bytes out.new)
        ≡ string_bytes out.old }
    ensures want { IfErr result (λ want. want ≡ Want.Memory) }
{
    for digit in digits {
        out.push(char::from(*digit))?;
    }
    Ok(())
}

/// Appends the string literal that gives the text (XQuery 3.1, section 3.1.1). After a refusal a
/// front of it may stand behind the text that was there.
pub fn append_quoted(text: &str, out: &mut String) -> Result<(), Want>
    ensures ok { OnOk result
        (string_bytes out.new ≡ string_bytes out.old ++ Print.quoted text.now) }
    ensures kept { take (length (string_bytes out.old)) (string_bytes out.new)
        ≡ string_bytes out.old }
    ensures want { IfErr result (λ want. want ≡ Want.Memory) }
{
    out.push('"')?;
    for character in text.chars() {
        append_character(character, out)?;
    }
    out.push('"')?;
    Ok(())
}

/// Appends a character of a string literal.
fn append_character(character: char, out: &mut String) -> Result<(), Want>
    ensures ok { OnOk result
        (string_bytes out.new ≡ string_bytes out.old
        ++ flat_map Print.quoted_character (encode_utf8 character)) }
    ensures kept { take (length (string_bytes out.old)) (string_bytes out.new)
        ≡ string_bytes out.old }
    ensures want { IfErr result (λ want. want ≡ Want.Memory) }
{
    if character == '"' {
        out.push_str("\"\"")?;
    } else if character == '&' {
        out.push_str("&amp;")?;
    } else if character == '\r' {
        out.push_str("&#xD;")?;
    } else {
        out.push(character)?;
    }
    Ok(())
}
