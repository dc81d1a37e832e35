//! Plans: normal forms with numbered slots in place of names, and with scans in place of steps.
#![tactic(auto)]

ghost use Rattle.std.specs.Prelude.{◌≡◌, [], IfErr, IfOk};
ghost use Rattle.xq_atoms.specs.declared.refusals.Want.TheVariants.{Memory};
ghost use Rattle.xq_meaning.specs.Same.{IsPlan};
ghost use Rattle.xq_plan.specs.Scans.{ScansDocument};

mod copies;
mod walk;

pub use copies::test as copied_test;
use std::alloc::Global;
use xq_atoms::Want;
use xq_expressions::Scope;
use xq_meaning::{Core, Plan};

/// The plan of a normal form: whatever the focus, the addresses and the documents are, it gives the
/// value or the code that the normal form gives where no variable is bound, and leaves the same
/// trees. A variable that is not in scope is the empty sequence (XQuery 3.1, sections 3.1.2, 3.3,
/// 3.12 and 3.16). A path that starts with `doc` of a literal and goes on by steps without
/// predicates is that many scans, one after the other. It refuses only for want of memory.
pub fn plan(alloc: Global, core: &Core) -> Result<Plan, Want>
    ensures same { IfOk result (λ plan. IsPlan [] core.now plan) }
    ensures scans { IfOk result (λ plan. ScansDocument core.now plan) }
    ensures want { IfErr result (λ want. want ≡ Memory) }
{
    Ok(walk::expression(alloc, &mut Scope::new(alloc), core)?)
}
