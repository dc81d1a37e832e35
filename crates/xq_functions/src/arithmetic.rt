//! Arithmetic, signs and ranges (XQuery 3.1, sections 3.4.1 and 3.5), on operands that are there.
ghost use Rattle.std.specs.Prelude.{◌≡◌, ℕ, ◌<◌, pos, ◌+ℤ◌, ◌≤ℤ◌};
ghost use Rattle.xq_atoms.specs.Atom as Atomics;
ghost use Rattle.xq_atoms.specs.Atom.{atomic_of, judged_of};
ghost use Rattle.xq_meaning.specs.Arguments as Arguments;
ghost use Rattle.xq_meaning.specs.Operators as Operators;
ghost use Rattle.xq_functions.specs.Answers.{GivesItems, atomics};
ghost use Rattle.xq_functions.specs.Judgements.{judged_as};
ghost use Rattle.xq_functions.specs.private.Calls as Calls;

use crate::arguments::single;
use crate::results::one;
use std::alloc::Global;
use xq_atoms::{Atom, Code, Fault, add, cast_int, div, idiv, mod_, mul, neg, sub};
use xq_expressions::{ProductOperator, Sign};
use xq_trees::{Item, Items};

/// The most items that a range may have.
const MAX_RANGE: u128 = 1_000_000;

/// One number. XPTY0004 for more than one atom, and for a string or a boolean; prof:DOUBLE for an
/// untyped value.
fn number_operand(atoms: &[Atom]) -> Result<&Atom, Code>
    ensures { judged_as (λ atom. atomic_of atom.now) result
        ≡ Operators.number_operand (atomics atoms.now) }
{
    let atom = single(atoms)?;
    match atom {
        Atom::Int(_) | Atom::Dec(_) => Ok(atom),
        Atom::Untyped(_) => Err(Code::ProfDouble),
        Atom::Str(_) | Atom::Bool(_) => Err(Code::XPTY0004),
    }
}

/// The sum or the difference of two numbers.
fn sum_of(sign: Sign, left: &Atom, right: &Atom) -> Result<Atom, Code>
    ensures { judged_of result
        ≡ Operators.sum_of sign (atomic_of left.now) (atomic_of right.now) }
{
    match sign {
        Sign::Plus => add(left, right),
        Sign::Minus => sub(left, right),
    }
}

/// The product, a quotient or the remainder of two numbers.
fn product_of(operator: ProductOperator, left: &Atom, right: &Atom) -> Result<Atom, Code>
    ensures { judged_of result
        ≡ Operators.product_of operator (atomic_of left.now) (atomic_of right.now) }
{
    match operator {
        ProductOperator::Times => mul(left, right),
        ProductOperator::Div => div(left, right),
        ProductOperator::Idiv => idiv(left, right),
        ProductOperator::Mod => mod_(left, right),
    }
}

/// `+` and `-` of operands, the left one judged first.
pub fn sums(alloc: Global, sign: Sign, left: &[Atom], right: &[Atom]) -> Result<Items, Fault>
    ensures { GivesItems (Calls.on_numbers (Operators.sum_of sign)
        (atomics left.now) (atomics right.now)) result }
{
    let left = number_operand(left)?;
    let right = number_operand(right)?;
    Ok(one(alloc, sum_of(sign, left, right)?)?)
}

/// `*`, `div`, `idiv` and `mod` of operands, the left one judged first.
pub fn products(
    alloc: Global,
    operator: ProductOperator,
    left: &[Atom],
    right: &[Atom],
) -> Result<Items, Fault>
    ensures { GivesItems (Calls.on_numbers (Operators.product_of operator)
        (atomics left.now) (atomics right.now)) result }
{
    let left = number_operand(left)?;
    let right = number_operand(right)?;
    Ok(one(alloc, product_of(operator, left, right)?)?)
}

/// A sign before a number.
fn sign_of(sign: Sign, number: Atom) -> Result<Atom, Code>
    ensures { judged_of result ≡ Operators.sign_of sign (atomic_of number) }
{
    match sign {
        Sign::Plus => numeric(number),
        Sign::Minus => neg(&number),
    }
}

/// A number as it is. XPTY0004 for a string or a boolean, prof:DOUBLE for an untyped value.
fn numeric(atom: Atom) -> Result<Atom, Code>
    ensures { judged_of result ≡ Atomics.numeric (atomic_of atom) }
{
    match atom {
        Atom::Int(_) | Atom::Dec(_) => Ok(atom),
        Atom::Untyped(_) => Err(Code::ProfDouble),
        Atom::Str(_) | Atom::Bool(_) => Err(Code::XPTY0004),
    }
}

/// The signs before a number, from the last to the first.
fn with_signs(signs: &[Sign], number: Atom) -> Result<Atom, Code>
    ensures { judged_of result ≡ Operators.with_signs signs.now (atomic_of number) }
{
    let mut value = number;
    let mut rest = signs;
    while let Some((sign, before)) = rest.split_last() {
        value = sign_of(*sign, value)?;
        rest = before;
    }
    numeric(value)
}

/// The signs before an operand (XQuery 3.1, section 3.5), from the last to the first; nothing
/// before nothing.
pub fn signed(alloc: Global, signs: &[Sign], atoms: &[Atom]) -> Result<Items, Fault>
    ensures { GivesItems (Operators.signed signs.now (atomics atoms.now)) result }
{
    if atoms.is_empty() {
        return Ok(Vec::new(alloc));
    }
    let number = number_operand(atoms)?.try_clone(alloc)?;
    Ok(one(alloc, with_signs(signs, number)?)?)
}

/// A bound of a range: one integer, to which an untyped value is cast.
fn bound(atoms: &[Atom]) -> Result<i64, Code>
    ensures { result ≡ Operators.one_bound (atomics atoms.now) }
{
    let atom = single(atoms)?;
    match atom {
        Atom::Untyped(_) => whole_number(&cast_int(atom)?),
        Atom::Int(_) | Atom::Dec(_) | Atom::Str(_) | Atom::Bool(_) => whole_number(atom),
    }
}

/// The integer that the atom is; XPTY0004 for another type.
fn whole_number(atom: &Atom) -> Result<i64, Code>
    ensures { result ≡ Operators.whole_number (atomic_of atom.now) }
{
    match atom {
        Atom::Int(number) => Ok(*number),
        Atom::Dec(_) | Atom::Str(_) | Atom::Bool(_) | Atom::Untyped(_) => Err(Code::XPTY0004),
    }
}

/// The integers from one bound to another (XQuery 3.1, section 3.4.1), the left one judged first.
/// prof:RANGE for more than a million.
pub fn range(alloc: Global, left: &[Atom], right: &[Atom]) -> Result<Items, Fault>
    ensures { GivesItems (Calls.on_both Operators.one_bound Operators.integers
        (atomics left.now) (atomics right.now)) result }
{
    let first = bound(left)?;
    let last = bound(right)?;
    integers(alloc, first, last)
}

/// The integers from the first to the last, none where the first is greater.
fn integers(alloc: Global, first: i64, last: i64) -> Result<Items, Fault>
    ensures { GivesItems (Operators.integers first last) result }
{
    let count = how_many(first, last);
    if count > MAX_RANGE {
        return Err(Fault::Code(Code::ProfRange));
    }
    let mut items = Vec::new(alloc);
    for index in 0..count as usize {
        items.push(Item::Atom(Atom::Int(first + index as i64)))?;
    }
    Ok(items)
}

/// How many integers there are from the first to the last.
fn how_many(first: i64, last: i64) -> u128
    ensures count { result ≡ Operators.how_many first last }
    ensures last { (index : ℕ) → index < result → (first +ℤ pos index) ≤ℤ last }
{
    if last < first {
        0
    } else {
        (i128::from(last) - i128::from(first)).unsigned_abs() + 1
    }
}
