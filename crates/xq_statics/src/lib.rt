//! Static checks (XQuery 3.1, section 2.2.3.1): the first fault in the order of the text, or none.
#![tactic(auto)]

ghost use Rattle.xq_statics.specs.Gives.{Judges};
ghost use Rattle.xq_statics.specs.Statics.{static_fault};

mod names;
mod walk;

use std::alloc::Global;
use xq_atoms::Fault;
use xq_expressions::{Expr, Scope};

/// Whether a query may be evaluated: `Ok` where no name, variable or call of it has a static
/// fault, and else the code of the first that has one, in the order of the text (XQuery 3.1,
/// section 2.3.1): XPST0008, XPST0017, XQST0089, XQST0094, `prof:PREFIX` or `prof:TYPE`. A
/// refused growth is want of memory.
pub fn check(alloc: Global, query: &Expr) -> Result<(), Fault>
    ensures { Judges result (static_fault query.now) }
{
    walk::expression(&mut Scope::new(alloc), query)
}
