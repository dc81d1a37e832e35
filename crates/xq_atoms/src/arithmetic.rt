//! Arithmetic on atoms.
ghost use Rattle.std.specs.Prelude.{◌≡◌, ◌^◌, pos, neg_ℤ, ◌≤ℤ◌, ◌*ℤ◌, int_div, int_rem};
ghost use Rattle.xq_atoms.specs.Decimal.{IsDecimal, one, in_millionths, floored as floor_of, raised as ceiling_of};
ghost use Rattle.xq_atoms.specs.Atom as Atomic;
ghost use Rattle.xq_atoms.specs.Atom.{atomic_of, judged_of};
ghost use Rattle.xq_atoms.specs.Arithmetic as Arithmetic;
ghost use Rattle.xq_atoms.specs.private.Numbers.{number_of, operands_of};

use crate::atoms::Atom;
use crate::decimals::Decimal;
use crate::refusals::Code;

/// As many millionths make one.
const ONE: i128 = 1_000_000;

/// An atom that is a number.
#[derive(Clone, Copy)]
enum Number {
    Integer(i64),
    Decimal(Decimal),
}

/// Two numbers: as integers, or both as decimals where one is a decimal.
#[derive(Clone, Copy)]
enum Operands {
    Integers(i64, i64),
    Decimals(Decimal, Decimal),
}

/// The sum of two numbers (op:numeric-add). As for every operation here, a string or a boolean
/// is XPTY0004 and an untyped value prof:DOUBLE, the left operand judged first; a result out of
/// range is FOAR0002.
pub fn add(left: &Atom, right: &Atom) -> Result<Atom, Code>
    ensures { judged_of result ≡ Arithmetic.add (atomic_of left.now) (atomic_of right.now) }
{
    match numeric_operands(left, right)? {
        Operands::Integers(left, right) => integer(i128::from(left) + i128::from(right)),
        Operands::Decimals(left, right) => decimal(left.millionths() + right.millionths()),
    }
}

/// The difference of two numbers (op:numeric-subtract).
pub fn sub(left: &Atom, right: &Atom) -> Result<Atom, Code>
    ensures { judged_of result ≡ Arithmetic.sub (atomic_of left.now) (atomic_of right.now) }
{
    match numeric_operands(left, right)? {
        Operands::Integers(left, right) => integer(i128::from(left) - i128::from(right)),
        Operands::Decimals(left, right) => decimal(left.millionths() - right.millionths()),
    }
}

/// The product of two numbers (op:numeric-multiply), that of decimals truncated towards zero.
pub fn mul(left: &Atom, right: &Atom) -> Result<Atom, Code>
    ensures { judged_of result ≡ Arithmetic.mul (atomic_of left.now) (atomic_of right.now) }
{
    match numeric_operands(left, right)? {
        Operands::Integers(left, right) => integer_product(left, right),
        Operands::Decimals(left, right) => decimal_product(left, right),
    }
}

/// The quotient of two numbers (op:numeric-divide), a decimal truncated towards zero.
/// A zero divisor is FOAR0001.
pub fn div(left: &Atom, right: &Atom) -> Result<Atom, Code>
    ensures { judged_of result ≡ Arithmetic.div (atomic_of left.now) (atomic_of right.now) }
{
    match numeric_operands(left, right)? {
        Operands::Integers(left, right) => quotient(i128::from(left), i128::from(right)),
        Operands::Decimals(left, right) => quotient(left.millionths(), right.millionths()),
    }
}

/// The whole quotient of two numbers (op:numeric-integer-divide), an integer truncated towards
/// zero. A zero divisor is FOAR0001.
pub fn idiv(left: &Atom, right: &Atom) -> Result<Atom, Code>
    ensures { judged_of result ≡ Arithmetic.idiv (atomic_of left.now) (atomic_of right.now) }
{
    match numeric_operands(left, right)? {
        Operands::Integers(left, right) => whole_quotient(i128::from(left), i128::from(right)),
        Operands::Decimals(left, right) => whole_quotient(left.millionths(), right.millionths()),
    }
}

/// The remainder of two numbers (op:numeric-mod), with the dividend's sign.
/// A zero divisor is FOAR0001.
pub fn mod_(left: &Atom, right: &Atom) -> Result<Atom, Code>
    ensures { judged_of result ≡ Arithmetic.modulo (atomic_of left.now) (atomic_of right.now) }
{
    match numeric_operands(left, right)? {
        Operands::Integers(left, right) => integer_remainder(left, right),
        Operands::Decimals(left, right) => decimal_remainder(left, right),
    }
}

/// The number with the other sign (op:numeric-unary-minus).
pub fn neg(atom: &Atom) -> Result<Atom, Code>
    ensures { judged_of result ≡ Arithmetic.neg (atomic_of atom.now) }
{
    match numeric(atom)? {
        Number::Integer(value) => integer(-i128::from(value)),
        Number::Decimal(value) => decimal(-value.millionths()),
    }
}

/// The magnitude of a number (fn:abs).
pub fn abs(atom: &Atom) -> Result<Atom, Code>
    ensures { judged_of result ≡ Arithmetic.abs (atomic_of atom.now) }
{
    match numeric(atom)? {
        Number::Integer(value) => integer(i128::from(value).abs()),
        Number::Decimal(value) => decimal(value.millionths().abs()),
    }
}

/// The greatest whole number that is not greater (fn:floor).
pub fn floor(atom: &Atom) -> Result<Atom, Code>
    ensures { judged_of result ≡ Arithmetic.floor (atomic_of atom.now) }
{
    match numeric(atom)? {
        Number::Integer(value) => Ok(Atom::Int(value)),
        Number::Decimal(value) => decimal(floored(value.millionths())),
    }
}

/// The least whole number that is not less (fn:ceiling).
pub fn ceiling(atom: &Atom) -> Result<Atom, Code>
    ensures { judged_of result ≡ Arithmetic.ceiling (atomic_of atom.now) }
{
    match numeric(atom)? {
        Number::Integer(value) => Ok(Atom::Int(value)),
        Number::Decimal(value) => decimal(raised(value.millionths())),
    }
}

/// The nearest whole number, of two the greater (fn:round).
pub fn round(atom: &Atom) -> Result<Atom, Code>
    ensures { judged_of result ≡ Arithmetic.round (atomic_of atom.now) }
{
    match numeric(atom)? {
        Number::Integer(value) => Ok(Atom::Int(value)),
        Number::Decimal(value) => decimal(floored(value.millionths() + ONE / 2)),
    }
}

/// The number that an atom is; XPTY0004 for a string or a boolean, prof:DOUBLE for an untyped
/// value.
fn numeric(atom: &Atom) -> Result<Number, Code>
    ensures { number_of result ≡ Atomic.numeric (atomic_of atom.now) }
{
    match atom {
        Atom::Int(value) => Ok(Number::Integer(*value)),
        Atom::Dec(value) => Ok(Number::Decimal(*value)),
        Atom::Untyped(_) => Err(Code::ProfDouble),
        Atom::Str(_) | Atom::Bool(_) => Err(Code::XPTY0004),
    }
}

/// The operands of an operation, the left one judged first.
fn numeric_operands(left: &Atom, right: &Atom) -> Result<Operands, Code>
    ensures { operands_of result
        ≡ Arithmetic.operands (atomic_of left.now) (atomic_of right.now) }
{
    let left = numeric(left)?;
    let right = numeric(right)?;
    Ok(match left {
        Number::Integer(left) => match right {
            Number::Integer(right) => Operands::Integers(left, right),
            Number::Decimal(right) => Operands::Decimals(Decimal::from_int(left), right),
        },
        Number::Decimal(left) => match right {
            Number::Integer(right) => Operands::Decimals(left, Decimal::from_int(right)),
            Number::Decimal(right) => Operands::Decimals(left, right),
        },
    })
}

/// An integer, or FOAR0002 out of the range of 64 bits.
fn integer(value: i128) -> Result<Atom, Code>
    ensures { judged_of result ≡ Atomic.integer value }
{
    match i64::try_from(value) {
        Ok(value) => Ok(Atom::Int(value)),
        Err(_) => Err(Code::FOAR0002),
    }
}

/// A decimal, or FOAR0002 out of range.
fn decimal(millionths: i128) -> Result<Atom, Code>
    ensures { judged_of result ≡ Atomic.decimal millionths }
{
    match Decimal::from_millionths(millionths) {
        Some(value) => Ok(Atom::Dec(value)),
        None => Err(Code::FOAR0002),
    }
}

/// The product of two integers.
fn integer_product(left: i64, right: i64) -> Result<Atom, Code>
    ensures { judged_of result ≡ Atomic.integer (left *ℤ right) }
{
    match left.checked_mul(right) {
        Some(product) => Ok(Atom::Int(product)),
        None => Err(Code::FOAR0002),
    }
}

/// The product of two decimals. One that does not fit 128 bits is out of range.
fn decimal_product(left: Decimal, right: Decimal) -> Result<Atom, Code>
    ensures { judged_of result ≡ Atomic.decimal (int_div (left *ℤ right) one) }
{
    match left.millionths().checked_mul(right.millionths()) {
        Some(product) => decimal(product / ONE),
        None => Err(Code::FOAR0002),
    }
}

/// The quotient as a decimal, of two integers or of two numbers of millionths.
fn quotient(dividend: i128, divisor: i128) -> Result<Atom, Code>
    requires { IsDecimal dividend }
    ensures { judged_of result ≡ Arithmetic.quotient dividend divisor }
{
    truncated_quotient(scaled(dividend), divisor)
}

/// The quotient of a number of millionths, truncated to whole millionths.
fn truncated_quotient(dividend: i128, divisor: i128) -> Result<Atom, Code>
    requires { neg_ℤ (pos (2 ^ 120)) ≤ℤ dividend }
    ensures { judged_of result
        ≡ Arithmetic.unless_zero divisor (Atomic.decimal (int_div dividend divisor)) }
{
    if divisor == 0 {
        return Err(Code::FOAR0001);
    }
    decimal(dividend / divisor)
}

/// A million times a number.
fn scaled(value: i128) -> i128
    requires { IsDecimal value }
    ensures { result ≡ in_millionths value }
{
    value * ONE
}

/// The quotient as an integer, of two integers or of two numbers of millionths.
fn whole_quotient(dividend: i128, divisor: i128) -> Result<Atom, Code>
    requires { IsDecimal dividend }
    ensures { judged_of result ≡ Arithmetic.whole_quotient dividend divisor }
{
    if divisor == 0 {
        return Err(Code::FOAR0001);
    }
    integer(dividend / divisor)
}

/// The remainder of two integers, with the dividend's sign.
fn integer_remainder(dividend: i64, divisor: i64) -> Result<Atom, Code>
    ensures { judged_of result
        ≡ Arithmetic.unless_zero divisor (Atomic.integer (int_rem dividend divisor)) }
{
    if divisor == 0 {
        return Err(Code::FOAR0001);
    }
    Ok(Atom::Int(dividend.wrapping_rem(divisor)))
}

/// The remainder of two decimals, with the dividend's sign.
fn decimal_remainder(dividend: Decimal, divisor: Decimal) -> Result<Atom, Code>
    ensures { judged_of result
        ≡ Arithmetic.unless_zero divisor (Atomic.decimal (int_rem dividend divisor)) }
{
    if divisor.millionths() == 0 {
        return Err(Code::FOAR0001);
    }
    decimal(dividend.millionths() % divisor.millionths())
}

/// The greatest whole number that is not greater, in millionths.
fn floored(millionths: i128) -> i128
    requires { neg_ℤ (pos (2 ^ 100)) ≤ℤ millionths }
    ensures { result ≡ floor_of millionths }
{
    millionths - millionths.rem_euclid(ONE)
}

/// The least whole number that is not less, in millionths.
fn raised(millionths: i128) -> i128
    requires { IsDecimal millionths }
    ensures { result ≡ ceiling_of millionths }
{
    -floored(-millionths)
}
