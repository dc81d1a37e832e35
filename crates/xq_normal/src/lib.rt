//! Normal forms of expressions: without abbreviations, and with one binding in a clause. Each means
//! what its expression means.
#![tactic(auto)]

ghost use Rattle.std.specs.Prelude.{◌≡◌, IfErr, IfOk};
ghost use Rattle.xq_atoms.specs.declared.refusals.Want.TheVariants.{Memory};
ghost use Rattle.xq_meaning.specs.Same.{IsNormalForm};
ghost use Rattle.xq_normal.specs.DocumentPaths.{StaysDocumentPath};

mod clause_parts;
mod names;
mod normal;
mod path_parts;

use std::alloc::Global;
use xq_atoms::Want;
use xq_expressions::Expr;
use xq_meaning::Core;

/// The normal form of an expression: whatever the environment, the focus, the addresses and the
/// documents are, it gives the value or the code that the expression gives, and leaves the same
/// trees. `//`, `..`, `@`, a leading `/`, axes that are not named and clauses with several bindings
/// are written out (XQuery 3.1, sections 3.3.5 and 3.12). A path that starts with `doc` of a
/// literal and goes on by one step or more along axes, each after one slash and without predicates,
/// stays that call with as many steps (section 3.3). It refuses only for want of memory.
pub fn normalise(alloc: Global, expr: &Expr) -> Result<Core, Want>
    ensures same { IfOk result (λ core. IsNormalForm expr.now core) }
    ensures document_path { IfOk result (λ core. StaysDocumentPath expr.now core) }
    ensures want { IfErr result (λ want. want ≡ Memory) }
{
    Ok(normal::expression(alloc, expr)?)
}
