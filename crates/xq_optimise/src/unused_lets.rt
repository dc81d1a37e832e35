//! A `let` at the end of the clauses that the part which is returned doesn't read: it is left out
//! where it gives nodes, which is never refused (XQuery 3.1, sections 2.3.4 and 3.12.3).
ghost use Rattle.std.specs.Prelude.{◌≡◌, ◌≤◌, ◌++◌, ◌∷◌, [], length, true, IfOk, OnOk};
ghost use Rattle.xq_meaning.specs.declared.plans.Plan.TheVariants as plan_of;
ghost use Rattle.xq_meaning.specs.declared.plans.PlanClause.TheVariants as clause_of;
ghost use Rattle.xq_optimise.specs.Same.{GivesSame};
ghost use Rattle.xq_optimise.specs.Sure.{SurelyNodes};
ghost use Rattle.xq_optimise.specs.private.Joins.{IsOutside};
ghost use Rattle.xq_optimise.specs.private.Parts as parts;

use crate::held::Held;
use crate::lists::reversed;
use crate::order::follow;
use crate::outside::reads_outside;
use crate::sure::is_nodes;
use crate::wheres::pushed;
use sqlite_items::{Boxed, Items};
use std::alloc::{AllocError, Global};
use xq_meaning::{Plan, PlanClause};

/// The clauses as they are. What their slots hold after them is known then.
fn followed(
    alloc: Global,
    known: &mut Vec<Held>,
    outer: usize,
    list: Items<PlanClause>,
) -> Result<Items<PlanClause>, AllocError>
    requires { outer ≤ length known.old.items }
    ensures same { IfOk result (λ found.
        parts.SameClauses outer known.old.items list found known.new.items) }
    ensures outer { OnOk result (parts.Extends outer known.old.items known.new.items) }
{
    let mut left = reversed(alloc, list)?;
    let mut found = Items::new(alloc);
    while let Some(next) = left.pop() {
        // (boxed, since one call then drops it where memory is wanting)
        let next = Boxed::new(alloc, next)?;
        follow(known, outer, next.get())?;
        found.push(next.into_inner())?;
    }
    Ok(found)
}

/// Whether the value is nodes, and the part doesn't read the slot that comes next.
fn is_unused(known: &[Held], value: &Plan, part: &Plan) -> bool
    ensures { result ≡ true → SurelyNodes known.now value.now
        × IsOutside (length known.now) part.now }
{
    is_nodes(known, value) && reads_outside(known.len(), part)
}

/// The clauses and a `let` at their end, or without it where the part that is returned doesn't read
/// its value.
fn with_let(
    alloc: Global,
    known: &mut Vec<Held>,
    before: Items<PlanClause>,
    value: Plan,
    part: &Plan,
) -> Result<Items<PlanClause>, AllocError>
    ensures same { IfOk result (λ found. GivesSame known.old.items
        (plan_of.Flwor (before ++ clause_of.Let value ∷ []) part.now)
        (plan_of.Flwor found part.now)) }
    ensures kept { OnOk result (known.new.items ≡ known.old.items) }
{
    let outer = known.len();
    let value = Boxed::new(alloc, value)?;
    let found = followed(alloc, known, outer, before)?;
    let is_dropped = is_unused(known, value.get(), part);
    known.truncate(outer);
    if is_dropped {
        return Ok(found);
    }
    pushed(found, PlanClause::Let(value.into_inner()))
}

/// The clauses without a `let` at their end that the part which is returned doesn't read.
fn without_last(
    alloc: Global,
    known: &mut Vec<Held>,
    list: Items<PlanClause>,
    part: &Plan,
) -> Result<Items<PlanClause>, AllocError>
    ensures same { IfOk result (λ found. GivesSame known.old.items
        (plan_of.Flwor list part.now) (plan_of.Flwor found part.now)) }
    ensures kept { OnOk result (known.new.items ≡ known.old.items) }
{
    let mut before = list;
    match before.pop() {
        Some(last) => match last {
            PlanClause::Let(value) => with_let(alloc, known, before, value, part),
            last => {
                before.push(last)?;
                Ok(before)
            }
        },
        None => Ok(before),
    }
}

/// The clauses without the last two that are such, each a `let`.
pub fn without_unused(
    alloc: Global,
    known: &mut Vec<Held>,
    list: Items<PlanClause>,
    part: &Plan,
) -> Result<Items<PlanClause>, AllocError>
    ensures same { IfOk result (λ found. GivesSame known.old.items
        (plan_of.Flwor list part.now) (plan_of.Flwor found part.now)) }
    ensures kept { OnOk result (known.new.items ≡ known.old.items) }
{
    let once = without_last(alloc, known, list, part)?;
    without_last(alloc, known, once, part)
}
