//! Clauses one after another (XQuery 3.1, section 3.12).
ghost use Rattle.std.specs.Prelude.{◌≡◌, [], ◌∷◌, ◌++◌, OnOk, OnErr};
ghost use Rattle.xq_meaning.specs.declared.normal_forms.CoreClause.TheVariants as core_clause;

use sqlite_items::Items;
use std::alloc::AllocError;
use xq_expressions::Text;
use xq_meaning::{Core, CoreClause};

/// Puts a variable with its value at the end, as `let` does, whether or not it is used: the value
/// may be refused.
pub fn push_let(
    clauses: &mut Items<CoreClause>,
    variable: Text,
    value: Core,
) -> Result<(), AllocError>
    ensures ok { OnOk result
        (clauses.new ≡ clauses.old ++ core_clause.Let variable value ∷ []) }
    ensures err { OnErr result (clauses.new ≡ clauses.old) }
{
    clauses.push(CoreClause::Let(variable, value))
}

/// Puts clauses at the end, in their order: a `count` after an `order by` numbers the tuples as
/// they stand then.
pub fn append_clauses(
    clauses: &mut Items<CoreClause>,
    more: Items<CoreClause>,
) -> Result<(), AllocError>
    ensures { OnOk result (clauses.new ≡ clauses.old ++ more) }
{
    clauses.append(more)
}
