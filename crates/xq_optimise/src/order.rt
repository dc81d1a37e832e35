//! The order of clauses that can't be refused: an equality stands as near as it may to the `for`
//! before it, where the two are a join (XQuery 3.1, section 3.12).
ghost use Rattle.std.specs.Prelude.{◌≡◌, ◌≤◌, ◌++◌, ◌∷◌, [], ℕ, length, reverse, true, IfOk, OnOk};
ghost use Rattle.std.specs.List.{AllByRecursion};
ghost use Rattle.xq_optimise.specs.private.Order.{
  IsEach,
  IsOver,
  IsPassed,
  Rises,
  SameRest,
  SameTurns,
  TakesBack,
};
ghost use Rattle.xq_optimise.specs.private.Parts as parts;

use crate::held::Held;
use crate::kinds::{held_by, of_each};
use crate::lists::reversed;
use crate::narrow::{drops_empty, narrowed};
use crate::positions::compared;
use crate::scopes::{bind, forget};
use crate::sure::{is_equality, is_nodes, is_test};
use crate::written::written;
use sqlite_items::{Boxed, Items};
use std::alloc::{AllocError, Global};
use xq_expressions::AllowingEmpty;
use xq_meaning::{Plan, PlanClause};

/// How many clauses a test goes over at most, so that the time for a list is in proportion to it.
const MOST: usize = 16;

/// Whether the clause is an equality that can't be refused and reads slots that are known.
fn is_rising(known: &[Held], clause: &PlanClause) -> bool
    ensures { result ≡ true → Rises known.now clause.now }
{
    let PlanClause::Where(test) = clause else {
        return false;
    };
    is_equality(test) && is_test(known, test)
}

/// Whether a test may as well come before the clause: another test, or nodes for a variable.
fn is_passed(known: &[Held], clause: &PlanClause) -> bool
    ensures { result ≡ true → IsPassed known.now clause.now }
{
    match clause {
        PlanClause::Where(test) => is_test(known, test),
        PlanClause::Let(value) => is_nodes(known, value),
        _ => false,
    }
}

/// Whether the clause is a `for` over nodes, which a test may as well come before.
fn is_each(known: &[Held], clause: &PlanClause) -> bool
    ensures { result ≡ true → IsEach known.now clause.now }
{
    let PlanClause::For(empties, at, range) = clause else {
        return false;
    };
    if *at {
        return false;
    }
    if !drops_empty(*empties) {
        return false;
    }
    is_nodes(known, range)
}

/// The clauses that are left, the last first, after others that come before them.
fn put_back(left: Vec<PlanClause>, others: Vec<PlanClause>) -> Result<Vec<PlanClause>, AllocError>
    ensures { IfOk result (λ after. after.items ≡ left.items ++ reverse others.items) }
{
    let mut after = left;
    let mut others = others;
    while let Some(clause) = others.pop() {
        after.push(clause)?;
    }
    Ok(after)
}

/// The clauses that are left, with the next one before those that it goes over.
fn with_first(
    alloc: Global,
    left: Vec<PlanClause>,
    passed: Vec<PlanClause>,
    next: PlanClause,
) -> Result<Vec<PlanClause>, AllocError>
    ensures { IfOk result (λ after.
        after.items ≡ (left.items ++ reverse passed.items) ++ next ∷ []) }
{
    // (boxed, since one call then drops it where memory is wanting)
    let next = Boxed::new(alloc, next)?;
    let mut after = put_back(left, passed)?;
    after.push(next.into_inner())?;
    Ok(after)
}

/// The clauses that are left, with the next one behind those before it.
fn unmoved(
    left: Vec<PlanClause>,
    passed: Vec<PlanClause>,
    next: PlanClause,
) -> Result<Vec<PlanClause>, AllocError>
    ensures { IfOk result (λ after.
        after.items ≡ (left.items ++ next ∷ []) ++ reverse passed.items) }
{
    let mut left = left;
    left.push(next)?;
    put_back(left, passed)
}

/// The clauses that are left, with the next one before those that it goes over where it may with
/// the values of their variables written out, and else behind them.
fn with_written(
    alloc: Global,
    known: &[Held],
    left: Vec<PlanClause>,
    passed: Vec<PlanClause>,
    next: PlanClause,
) -> Result<Vec<PlanClause>, AllocError>
    requires { AllByRecursion (IsPassed known.now) passed.items }
    ensures { IfOk result (λ after.
        TakesBack known.now left.items passed.items next after.items) }
{
    // (boxed, since one call then drops it where memory is wanting)
    let next = Boxed::new(alloc, next)?;
    match written(alloc, known, passed.as_slice(), next.get())? {
        Some(test) => with_first(alloc, left, passed, PlanClause::Where(test)),
        None => unmoved(left, passed, next.into_inner()),
    }
}

/// Whether a test that goes over so many clauses may go over one more.
fn may_pass(known: &[Held], passed: &[PlanClause], next: &PlanClause) -> bool
    ensures { result ≡ true → IsOver known.now next.now }
{
    if passed.len() >= MOST {
        return false;
    }
    if is_passed(known, next) {
        return true;
    }
    is_each(known, next)
}

/// Whether clauses that were gone over are no `for`, with one more.
fn stays_plain(known: &[Held], plain: bool, next: &PlanClause) -> bool
    ensures { result ≡ true → (plain ≡ true) × IsPassed known.now next.now }
{
    plain && is_passed(known, next)
}

/// The clauses that are left, with one before those that were gone over, or behind them. Where these
/// are no `for`, its variables may be written out.
fn stopped(
    alloc: Global,
    known: &[Held],
    plain: bool,
    left: Vec<PlanClause>,
    passed: Vec<PlanClause>,
    next: PlanClause,
) -> Result<Vec<PlanClause>, AllocError>
    requires { plain ≡ true → AllByRecursion (IsPassed known.now) passed.items }
    ensures { IfOk result (λ after.
        TakesBack known.now left.items passed.items next after.items) }
{
    if plain {
        with_written(alloc, known, left, passed, next)
    } else {
        unmoved(left, passed, next)
    }
}

/// The clauses that are left, the last first: first an equality that may come before those that
/// stand before it.
fn risen(
    alloc: Global,
    known: &[Held],
    left: Vec<PlanClause>,
) -> Result<Vec<PlanClause>, AllocError>
    ensures same { IfOk result (λ after. (start : ℕ)
        → SameRest start known.now left.items after.items) }
    ensures long { IfOk result (λ after. length after.items ≡ length left.items) }
{
    let mut left = left;
    let mut passed = Vec::new(alloc);
    let mut plain = true;
    while let Some(next) = left.pop() {
        if is_rising(known, &next) {
            return with_first(alloc, left, passed, next);
        }
        if !may_pass(known, passed.as_slice(), &next) {
            return stopped(alloc, known, plain, left, passed, next);
        }
        plain = stays_plain(known, plain, &next);
        passed.push(next)?;
    }
    put_back(left, passed)
}

/// Makes known what the slots hold after a clause.
pub fn follow(known: &mut Vec<Held>, outer: usize, next: &PlanClause) -> Result<(), AllocError>
    requires { outer ≤ length known.old.items }
    ensures same { OnOk result
        (parts.SameMany outer known.old.items next.now (next.now ∷ []) known.new.items) }
    ensures outer { OnOk result (parts.Extends outer known.old.items known.new.items) }
{
    match next {
        PlanClause::For(_, at, range) => {
            let held = held_by(known, range);
            bind(known, of_each(held), *at)
        }
        PlanClause::Join(_, _) => bind(known, Held::Item, false),
        PlanClause::GroupJoin(_, _) => bind(known, Held::Anything, false),
        PlanClause::Let(value) => {
            let held = held_by(known, value);
            bind(known, held, false)
        }
        PlanClause::Group(_) => forget(known, outer),
        PlanClause::Count => bind(known, Held::Anything, false),
        PlanClause::Where(_) => Ok(()),
        PlanClause::Order(_) => Ok(()),
        PlanClause::Refused(_) => Ok(()),
    }
}

/// Whether a test that compares may go over a clause before it, or stands behind a `for`, so that it
/// may be a predicate.
fn have_moving_test(list: &[PlanClause]) -> bool {
    let mut may_move = false;
    for clause in list {
        match clause {
            PlanClause::Where(test) => {
                if may_move && compared(test).is_some() {
                    return true;
                }
                may_move = !is_equality(test);
            }
            PlanClause::Let(_) => may_move = true,
            PlanClause::For(AllowingEmpty::No, _, _) => may_move = true,
            _ => may_move = false,
        }
    }
    false
}

/// Clauses that give the same, in the better order.
pub fn arranged(
    alloc: Global,
    known: &mut Vec<Held>,
    list: Items<PlanClause>,
) -> Result<Items<PlanClause>, AllocError>
    ensures same { IfOk result (λ found.
        SameTurns (length known.old.items) known.old.items list found) }
    ensures kept { OnOk result (known.new.items ≡ known.old.items) }
{
    if !have_moving_test(list.as_slice()) {
        return Ok(list);
    }
    let outer = known.len();
    let turned = reversed(alloc, list)?;
    let first = risen(alloc, known, turned)?;
    let mut left = narrowed(alloc, known, first)?;
    let mut found = Items::new(alloc);
    while let Some(next) = left.pop() {
        // (boxed, since one call then drops it where memory is wanting)
        let next = Boxed::new(alloc, next)?;
        follow(known, outer, next.get())?;
        found.push(next.into_inner())?;
        let risen = risen(alloc, known, left)?;
        left = narrowed(alloc, known, risen)?;
    }
    known.truncate(outer);
    Ok(found)
}
