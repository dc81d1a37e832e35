//! A query's plan.
ghost use Rattle.std.specs.Prelude.{◌≤◌, [], None, length};
ghost use Rattle.xq_meaning.specs.PlanMeaning.{Frame as Meant, plan_mean};
ghost use Rattle.xq_operators.specs.Views.{Goes, GivesSequence};
ghost use Rattle.xq_eval.specs.Reads.{ReadsItsDocument};

use crate::evaluation::evaluate;
use std::alloc::Global;
use xq_atoms::Fault;
use xq_meaning::Plan;
use xq_operators::EvalContext;
use xq_sources::{Addresses, TreeStore};
use xq_trees::Items;
use xq_tuples::SlotValue;

/// The value of a query's plan, and beside it, in `world`, the trees that it constructed, after
/// those that were there (XQuery 3.1, sections 2.1 and 3). `addresses` are those of the documents,
/// which are the first trees.
///
/// Where the plan is a document by its address and k scans, it reads at most k times as many rows
/// as that document has, by ranges and singly, and none where there is no such document.
///
/// An error is the code of the query's error, `Want::Memory` where a growth was refused, or
/// `Want::Store` where the trees could not be read. What was constructed up to then stays.
pub fn eval<W: TreeStore>(
    alloc: Global,
    plan: &Plan,
    world: &mut W,
    addresses: &Addresses,
) -> Result<Items, Fault>
    ensures goes { Goes (W.forest world.old) (W.forest world.new) (W.is_clean world.old)
        (W.is_clean world.new) }
    ensures gives { W.is_clean world.new
        → length addresses.now ≤ length (W.forest world.old)
        → let frame : Meant = record {
          env = [];
          focus = None;
          addresses = addresses.now;
        } in
        GivesSequence (plan_mean plan.now frame (W.forest world.old)) (W.forest world.new) result }
    ensures reads { W.is_clean world.new
        → length addresses.now ≤ length (W.forest world.old)
        → ReadsItsDocument plan.now addresses.now (W.forest world.old) (W.meter world.old)
        (W.meter world.new) }
{
    let slots: Vec<SlotValue> = Vec::new(alloc);
    evaluate(
        alloc,
        world,
        EvalContext::outermost(&slots, addresses),
        plan,
    )
}
