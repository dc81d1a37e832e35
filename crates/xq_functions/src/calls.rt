//! Calls of functions, and operators between operands.
ghost use Rattle.std.specs.Prelude.{◌≡◌, ◌≤◌, ◌∷◌, [], List, Option, map, length, true};
ghost use Rattle.xq_atoms.specs.Text.{Text};
ghost use Rattle.xq_atoms.specs.Atom.{atomic_of};
ghost use Rattle.xq_trees.specs.Tree.{Tree};
ghost use Rattle.xq_meaning.specs.Items.{Item as ItemSeen, atomized};
ghost use Rattle.xq_meaning.specs.Functions as Functions;
ghost use Rattle.xq_meaning.specs.Operators as Operators;
ghost use Rattle.xq_functions.specs.Answers.{GivesItems, TellsAtom, atomics, items_of};
ghost use Rattle.xq_atoms.specs.Answers.{Gives};
ghost use Rattle.xq_functions.specs.Kinds as Kinds;
ghost use Rattle.xq_functions.specs.private.Calls as Calls;

use crate::aggregates::{max, min, sum};
use crate::arguments::{optional, text_argument};
use crate::arithmetic::{products, range, sums};
use crate::comparisons::{compare_pairs, compare_values, concatenated};
use crate::distinct::distinct_values;
use crate::kinds::{Argument, argument_of};
use crate::positions::character_count;
use crate::results::one;
use crate::sequences::{exactly_one, head, one_or_more, reversed, tail, zero_or_one};
use crate::texts;
use crate::truths::effective;
use crate::words::normalized;
use std::alloc::Global;
use xq_atoms::{
    Atom, Code, Fault, abs, cast_bool, cast_dec, cast_int, cast_str, ceiling, floor, round,
};
use xq_expressions::{ComparisonOperator, Function, Relation};
use xq_meaning::Operator;
use xq_trees::Items;

/// A call with one argument of a function that looks at items whatever they are.
pub fn call_on_items(alloc: Global, function: Function, items: Items) -> Result<Items, Fault>
    ensures { Kinds.argument_of function ≡ Argument.Items →
        (trees : List Tree) (addresses : List Text) → Gives (items_of trees)
        (Functions.of_one function trees addresses (items_of trees items)) result }
{
    match function {
        Function::Count => Ok(one(alloc, Atom::Int(items.len() as i64))?),
        Function::Empty => Ok(one(alloc, Atom::Bool(items.is_empty()))?),
        Function::Exists => Ok(one(alloc, Atom::Bool(!items.is_empty()))?),
        Function::Head => Ok(head(items)),
        Function::Tail => Ok(tail(items)),
        Function::Reverse => Ok(reversed(items)),
        Function::ZeroOrOne => Ok(zero_or_one(items)?),
        Function::OneOrMore => Ok(one_or_more(items)?),
        Function::ExactlyOne => Ok(exactly_one(items)?),
        Function::Not => Ok(one(alloc, Atom::Bool(!effective(&items)?))?),
        Function::Boolean => Ok(one(alloc, Atom::Bool(effective(&items)?))?),
        _ => Err(Fault::Code(Code::XPST0017)),
    }
}

/// A call with one argument, from its atoms, of a function that looks at these alone. XPST0017
/// where the function has no form of one argument.
pub fn call_on_atoms(alloc: Global, function: Function, atoms: &[Atom]) -> Result<Items, Fault>
    ensures atoms { Kinds.argument_of function ≡ Argument.Atoms →
        (trees : List Tree) (addresses : List Text) (items : List ItemSeen) →
        atomized trees items ≡ atomics atoms.now → Gives (items_of trees)
        (Functions.of_one function trees addresses items) result }
    ensures missing { Kinds.argument_of function ≡ Argument.Missing →
        (trees : List Tree) (addresses : List Text) (items : List ItemSeen) →
        Gives (items_of trees) (Functions.of_one function trees addresses items) result }
{
    if argument_of(function) == Argument::Missing {
        return Err(Fault::Code(Code::XPST0017));
    }
    of_atoms(alloc, function, atoms)
}

/// What a function of one argument gives from its atoms.
fn of_atoms(alloc: Global, function: Function, atoms: &[Atom]) -> Result<Items, Fault>
    ensures { GivesItems (Calls.of_atoms function (atomics atoms.now)) result }
{
    match function {
        Function::StringLength => texts::string_length(alloc, atoms),
        Function::NormalizeSpace => texts::normalize_space(alloc, atoms),
        Function::StringJoin => texts::string_join(alloc, atoms),
        Function::DistinctValues => Ok(distinct_values(alloc, atoms)?),
        Function::Sum => sum(alloc, atoms),
        Function::Min => min(alloc, atoms),
        Function::Max => max(alloc, atoms),
        _ => of_optional(alloc, function, atoms),
    }
}

/// What a function of at most one atom gives; nothing for nothing.
fn of_optional(alloc: Global, function: Function, atoms: &[Atom]) -> Result<Items, Fault>
    ensures { GivesItems (Calls.of_optional function (atomics atoms.now)) result }
{
    match optional(atoms)? {
        Some(atom) => of_atom(alloc, function, atom),
        None => Ok(Vec::new(alloc)),
    }
}

/// What a function makes of one atom.
fn of_atom(alloc: Global, function: Function, atom: &Atom) -> Result<Items, Fault>
    ensures { GivesItems (Calls.of_atom function (atomic_of atom.now)) result }
{
    match function {
        Function::Abs => Ok(one(alloc, abs(atom)?)?),
        Function::Floor => Ok(one(alloc, floor(atom)?)?),
        Function::Ceiling => Ok(one(alloc, ceiling(atom)?)?),
        Function::Round => Ok(one(alloc, round(atom)?)?),
        Function::ToInteger => Ok(one(alloc, cast_int(atom)?)?),
        Function::ToDecimal => Ok(one(alloc, cast_dec(atom)?)?),
        Function::ToBoolean => Ok(one(alloc, cast_bool(atom)?)?),
        Function::ToString => Ok(one(alloc, Atom::Str(cast_str(alloc, atom)?))?),
        Function::ToUntyped => Ok(one(alloc, Atom::Untyped(cast_str(alloc, atom)?))?),
        _ => Err(Fault::Code(Code::XPST0017)),
    }
}

/// The atom that a function of one argument makes of the only atom that its argument is atomized
/// to; None of a function that is not told so.
pub fn call_on_atom(alloc: Global, function: Function, atom: &Atom) -> Result<Option<Atom>, Fault>
    ensures { Kinds.argument_of function ≡ Argument.Atoms →
        (trees : List Tree) (addresses : List Text) (items : List ItemSeen) →
        atomized trees items ≡ atomic_of atom.now ∷ [] →
        TellsAtom (Functions.of_one function trees addresses items) result }
{
    converted(alloc, function, atom)
}

/// What a function that converts one atom makes of it; None of another function.
fn converted(alloc: Global, function: Function, atom: &Atom) -> Result<Option<Atom>, Fault>
    ensures { TellsAtom (Calls.of_atoms function (atomic_of atom.now ∷ [])) result }
{
    match function {
        Function::ToInteger => Ok(Some(cast_int(atom)?)),
        Function::ToDecimal => Ok(Some(cast_dec(atom)?)),
        Function::ToBoolean => Ok(Some(cast_bool(atom)?)),
        Function::ToString => Ok(Some(Atom::Str(cast_str(alloc, atom)?))),
        Function::ToUntyped => Ok(Some(Atom::Untyped(cast_str(alloc, atom)?))),
        Function::StringLength => {
            let count = character_count(text_argument(atom)?) as i64;
            Ok(Some(Atom::Int(count)))
        }
        Function::NormalizeSpace => {
            let words = normalized(alloc, text_argument(atom)?)?;
            Ok(Some(Atom::Str(words)))
        }
        _ => Ok(None),
    }
}

/// A call with two arguments or more, from the atoms of each.
pub fn call_on_lists(alloc: Global, function: Function, lists: &[Vec<Atom>]) -> Result<Items, Fault>
    ensures { (trees : List Tree) (addresses : List Text) (focus : Option Functions.Focus)
        (values : List (List ItemSeen)) → 2 ≤ length values →
        map (atomized trees) values ≡ map (λ list. atomics list.items) lists.now →
        Gives (items_of trees) (Functions.called function trees addresses focus values) result }
{
    of_lists(alloc, function, lists)
}

/// What a function gives from the atoms of two arguments or more.
fn of_lists(alloc: Global, function: Function, lists: &[Vec<Atom>]) -> Result<Items, Fault>
    ensures { GivesItems
        (Calls.of_lists function (map (λ list. atomics list.items) lists.now)) result }
{
    if lists.len() == 2 {
        return of_two(alloc, function, &lists[0], &lists[1]);
    }
    if lists.len() == 3 {
        return of_three(alloc, function, &lists[0], &lists[1], &lists[2]);
    }
    of_many(alloc, function, lists)
}

/// What a function gives from the atoms of two arguments.
fn of_two(
    alloc: Global,
    function: Function,
    first: &[Atom],
    second: &[Atom],
) -> Result<Items, Fault>
    ensures { GivesItems
        (Functions.of_two function (atomics first.now) (atomics second.now)) result }
{
    match function {
        Function::Concat => concatenated(alloc, first, second),
        Function::StringJoin => texts::string_join_by(alloc, first, second),
        Function::Contains => texts::contains(alloc, first, second),
        Function::StartsWith => texts::starts_with(alloc, first, second),
        Function::EndsWith => texts::ends_with(alloc, first, second),
        Function::SubstringBefore => texts::substring_before(alloc, first, second),
        Function::SubstringAfter => texts::substring_after(alloc, first, second),
        Function::Substring => texts::substring_from(alloc, first, second),
        _ => Err(Fault::Code(Code::XPST0017)),
    }
}

/// What a function gives from the atoms of three arguments.
fn of_three(
    alloc: Global,
    function: Function,
    first: &[Atom],
    second: &[Atom],
    third: &[Atom],
) -> Result<Items, Fault>
    ensures { GivesItems (Functions.of_three function
        (atomics first.now) (atomics second.now) (atomics third.now)) result }
{
    match function {
        Function::Concat => texts::concat_three(alloc, first, second, third),
        Function::Substring => texts::substring(alloc, first, second, third),
        _ => Err(Fault::Code(Code::XPST0017)),
    }
}

/// What a function gives from the atoms of as many arguments as there are.
fn of_many(alloc: Global, function: Function, lists: &[Vec<Atom>]) -> Result<Items, Fault>
    ensures { GivesItems
        (Functions.of_many function (map (λ list. atomics list.items) lists.now)) result }
{
    match function {
        Function::Concat => texts::concat(alloc, lists),
        _ => Err(Fault::Code(Code::XPST0017)),
    }
}

/// An operator that atomizes its operands, from the atoms of both.
pub fn operate_on_atoms(
    alloc: Global,
    operator: Operator,
    left: &[Atom],
    right: &[Atom],
) -> Result<Items, Fault>
    ensures { Kinds.is_on_atoms operator ≡ true →
        (trees : List Tree) (xs ys : List ItemSeen) → atomized trees xs ≡ atomics left.now →
        atomized trees ys ≡ atomics right.now →
        Gives (items_of trees) (Operators.operated operator trees xs ys) result }
{
    of_operands(alloc, operator, left, right)
}

/// What an operator gives from the atoms of its operands.
fn of_operands(
    alloc: Global,
    operator: Operator,
    left: &[Atom],
    right: &[Atom],
) -> Result<Items, Fault>
    ensures { GivesItems
        (Calls.atoms_operated operator (atomics left.now) (atomics right.now)) result }
{
    match operator {
        Operator::Concat => concatenated(alloc, left, right),
        Operator::Comparison(comparison) => compare(alloc, comparison, left, right),
        _ => unless_empty(alloc, operator, left, right),
    }
}

/// What an operator gives, nothing where an operand is nothing.
fn unless_empty(
    alloc: Global,
    operator: Operator,
    left: &[Atom],
    right: &[Atom],
) -> Result<Items, Fault>
    ensures { GivesItems (Calls.unless_empty (atomics left.now) (atomics right.now)
        (Calls.both_operated operator (atomics left.now) (atomics right.now))) result }
{
    if left.is_empty() || right.is_empty() {
        return Ok(Vec::new(alloc));
    }
    of_both(alloc, operator, left, right)
}

/// What an operator gives from operands that are both there.
fn of_both(alloc: Global, operator: Operator, left: &[Atom], right: &[Atom]) -> Result<Items, Fault>
    ensures { GivesItems
        (Calls.both_operated operator (atomics left.now) (atomics right.now)) result }
{
    match operator {
        Operator::Sum(sign) => sums(alloc, sign, left, right),
        Operator::Product(operator) => products(alloc, operator, left, right),
        Operator::Range => range(alloc, left, right),
        _ => Err(Fault::Code(Code::XPTY0004)),
    }
}

/// What a comparison of atoms gives.
fn compare(
    alloc: Global,
    comparison: ComparisonOperator,
    left: &[Atom],
    right: &[Atom],
) -> Result<Items, Fault>
    ensures { GivesItems (Calls.atoms_operated (Operator.Comparison comparison)
        (atomics left.now) (atomics right.now)) result }
{
    match comparison {
        ComparisonOperator::Value(relation) => compare_there(alloc, relation, left, right),
        ComparisonOperator::General(relation) => compare_pairs(alloc, relation, left, right),
        ComparisonOperator::Node(_) => Err(Fault::Code(Code::XPTY0004)),
    }
}

/// What a value comparison gives, nothing where an operand is nothing.
fn compare_there(
    alloc: Global,
    relation: Relation,
    left: &[Atom],
    right: &[Atom],
) -> Result<Items, Fault>
    ensures { GivesItems (Calls.unless_empty (atomics left.now) (atomics right.now)
        (Calls.values_compared (Operators.related_by relation)
        (atomics left.now) (atomics right.now))) result }
{
    if left.is_empty() || right.is_empty() {
        return Ok(Vec::new(alloc));
    }
    compare_values(alloc, relation, left, right)
}
