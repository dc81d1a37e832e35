//! Texts read as queries.
ghost use Rattle.std.specs.Prelude.{MatchResult};
ghost use Rattle.xq_server.specs.private.Work.{Understands};

use std::alloc::Global;
use xq_atoms::Fault;
use xq_meaning::Plan;
use xq_queries::{faults_come_later, read, reads_at_most_once};

/// A plan of the query that the text is, or the first fault of the text. The documents are not
/// looked at.
fn plan_of(alloc: Global, text: &[u8]) -> Result<Plan, Fault>
    ensures { Understands text.now result }
{
    reads_at_most_once();
    faults_come_later();
    read(alloc, text)
}

/// The plan of a query, to be held.
pub(crate) struct QueryPlan {
    pub(crate) plan: Plan,
}

// It is written out, so that who holds a plan does not go through all of its forms wherever it lets
// one go.
impl Drop for QueryPlan {
    fn drop(self) {
        let QueryPlan { plan: _plan } = self;
    }
}

/// The plan of a query's text, to be held; a refusal is that of [`plan_of`].
pub(crate) fn understand(alloc: Global, text: &[u8]) -> Result<QueryPlan, Fault>
    ensures { MatchResult result (λ held. Understands text.now (Ok held.plan))
        (λ fault. Understands text.now (Err fault)) }
{
    match plan_of(alloc, text) {
        Ok(plan) => Ok(QueryPlan { plan }),
        Err(fault) => Err(fault),
    }
}
