//! Plans that give the same in a form that is evaluated fast.
#![tactic(auto)]

ghost use Rattle.std.specs.Prelude.{◌≡◌, [], IfErr, IfOk};
ghost use Rattle.xq_atoms.specs.declared.refusals.Want.TheVariants.{Memory};
ghost use Rattle.xq_optimise.specs.Same.{GivesSame};
ghost use Rattle.xq_optimise.specs.Scans.{KeepsScans};

mod at_nodes;
mod comparisons;
mod copies;
mod filters;
mod first_tests;
mod firsts;
mod focus;
mod group_joins;
mod group_returns;
mod held;
mod invariants;
mod joins;
mod kinds;
mod lists;
mod narrow;
mod nested;
mod order;
mod outside;
mod plain_tests;
mod positions;
mod predicates;
mod range_joins;
mod returns;
mod scanned;
mod scopes;
mod some_pairs;
mod step_invariants;
mod sure;
mod unused_lets;
mod walk;
mod wheres;
mod written;

use kinds::is_document_path;
use std::alloc::Global;
use xq_atoms::Want;
use xq_meaning::Plan;

/// A plan that gives what the plan gives where no slot is open: whatever the focus, the addresses
/// and the documents are, the value or the code is the same, and so are the trees then. A path of
/// scans from a document is left as it is. It refuses only for want of memory.
pub fn optimise(alloc: Global, plan: Plan) -> Result<Plan, Want>
    ensures same { IfOk result (λ found. GivesSame [] plan found) }
    ensures scans { IfOk result (λ found. KeepsScans plan found) }
    ensures want { IfErr result (λ want. want ≡ Memory) }
{
    if is_document_path(&plan) {
        return Ok(plan);
    }
    Ok(walk::expression(alloc, &mut Vec::new(alloc), plan)?)
}
