//! A FLWOR that another one returns: its clauses may as well come after those of the other, where
//! each is refused at no tuple or at all of them (XQuery 3.1, section 3.12). They do where the two
//! are a join then: other pairs of tuples and items would all be held at once.
ghost use Rattle.std.specs.Prelude.{◌≡◌, ◌≤◌, length, true, IfOk};
ghost use Rattle.xq_optimise.specs.private.FlworParts.{AreSteady, IsSteady, IsSteadyPart};
ghost use Rattle.xq_optimise.specs.private.Joins.{LeavesTrees};

use crate::held::Held;
use crate::joins::{compares_last, may_give_texts};
use crate::order::follow;
use crate::outside::reads_outside;
use crate::sure::{is_nodes, is_test};
use std::alloc::{AllocError, Global};
use xq_expressions::AllowingEmpty;
use xq_meaning::{Plan, PlanClause};

/// Whether a part gives nodes, or reads nothing of the tuples, where so many slots are outside.
fn is_steady_part(known: &[Held], outer: usize, part: &Plan) -> bool
    ensures { result ≡ true → IsSteadyPart known.now outer part.now }
{
    is_nodes(known, part) || reads_outside(outer, part)
}

/// Whether the clause goes over each tuple by itself, and is refused at none of them or at each.
fn is_steady(known: &[Held], outer: usize, clause: &PlanClause) -> bool
    ensures { result ≡ true → IsSteady known.now outer clause.now }
{
    match clause {
        PlanClause::For(_, _, range) => is_steady_part(known, outer, range),
        PlanClause::Let(value) => is_steady_part(known, outer, value),
        PlanClause::Where(test) => is_test(known, test),
        _ => false,
    }
}

/// A copy of what is known.
fn copied(alloc: Global, known: &[Held]) -> Result<Vec<Held>, AllocError>
    ensures { IfOk result (λ copy. copy.items ≡ known.now) }
{
    known.to_vec(alloc)
}

/// Whether all clauses do, where so many slots are outside, and these are known.
fn are_steady(
    alloc: Global,
    known: &[Held],
    outer: usize,
    list: &[PlanClause],
) -> Result<bool, AllocError>
    requires { outer ≤ length known.now }
    ensures { IfOk result (λ answer. answer ≡ true → AreSteady outer known.now list.now) }
{
    let mut seen = copied(alloc, known)?;
    for clause in list {
        if !is_steady(&seen, outer, clause) {
            return Ok(false);
        }
        follow(&mut seen, outer, clause)?;
    }
    Ok(true)
}

/// Whether the test, or a conjunct of it, compares the last of so many slots with one before it.
fn is_compared(test: &Plan, slots: usize) -> bool {
    let Plan::And(parts) = test else {
        return compares_last(test, slots);
    };
    for part in parts.as_slice() {
        if compares_last(part, slots) {
            return true;
        }
    }
    false
}

/// Whether a conditional with such a test is returned.
fn returns_compared(part: &Plan, slots: usize) -> bool {
    match part {
        Plan::If(test, _, _) => is_compared(test.get(), slots),
        _ => false,
    }
}

/// Whether a `for` over this range may be the first half of a join.
fn may_be_joined(outer: usize, range: &Plan) -> bool {
    may_give_texts(range) && reads_outside(outer, range)
}

/// Whether these clauses begin with a `for` that a test behind it makes a join, so that no pairs are
/// made of tuples and items which the test leaves out. So many slots are outside, and so many are
/// open before these clauses.
fn begin_join(outer: usize, before: usize, list: &[PlanClause], part: &Plan) -> bool {
    let slots = before.saturating_add(1);
    let mut is_first = true;
    for clause in list {
        match clause {
            PlanClause::For(AllowingEmpty::No, false, range) => {
                if !is_first || !may_be_joined(outer, range) {
                    return false;
                }
            }
            PlanClause::Where(test) => {
                if is_first || is_compared(test, slots) {
                    return !is_first;
                }
            }
            PlanClause::Let(_) => {
                if is_first {
                    return false;
                }
            }
            _ => return false,
        }
        is_first = false;
    }
    returns_compared(part, slots)
}

/// Whether a FLWOR that returns one with these clauses and this part may as well go on with them.
pub fn goes_on(
    alloc: Global,
    known: &[Held],
    outer: usize,
    list: &[PlanClause],
    part: &Plan,
) -> Result<bool, AllocError>
    requires { outer ≤ length known.now }
    ensures { IfOk result (λ answer. answer ≡ true
        → AreSteady outer known.now list.now × LeavesTrees part.now) }
{
    if !begin_join(outer, known.len(), list, part) {
        return Ok(false);
    }
    if !reads_outside(usize::MAX, part) {
        return Ok(false);
    }
    are_steady(alloc, known, outer, list)
}
