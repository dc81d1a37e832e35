//! Paths of scans from a document whose nodes are only counted: their places in its tree are enough,
//! and no items are made (XQuery 3.1, section 3.3).
ghost use Rattle.std.specs.Prelude.{◌≡◌, ◌*◌, ◌≤◌, ℕ, ◌∷◌, [], IfSome};
ghost use Rattle.xq_meaning.specs.declared.plans.Plan.TheVariants as plan_of;
ghost use Rattle.xq_meaning.specs.Arguments.{atomic};
ghost use Rattle.xq_meaning.specs.Forms as Forms;
ghost use Rattle.xq_meaning.specs.PlanMeaning.{plan_mean};
ghost use Rattle.xq_operators.specs.Reads.{rows_of, only_counts, HasGrown};
ghost use Rattle.xq_operators.specs.Views.{frame_at, FrameIn};
ghost use Rattle.xq_joins.specs.Atoms.{Tells};
ghost use Rattle.xq_joins.specs.Paths.{steps_of};
ghost use Rattle.xq_joins.specs.private.Paths.{IsDocument, IsDocumentPath};

use std::alloc::Global;
use xq_atoms::{Atom, Fault, address_ok};
use xq_expressions::Function;
use xq_meaning::{Plan, PlanStep, Test};
use xq_operators::{EvalContext, call_on_places, places_after_scans};
use xq_sources::{Addresses, RowLender};
use xq_trees::{Axis, Node};

/// A path from a document.
#[derive(Clone, Copy)]
struct DocumentPath<'a> {
    /// The document node.
    document: Node,
    steps: &'a [PlanStep],
}

/// The address that a literal gives to a call of fn:doc.
fn literal_address(plan: &Plan) -> Option<&str>
    ensures { IfSome result (λ address.
        plan.now ≡ plan_of.Call Function.Doc (plan_of.Str address.now ∷ [])) }
{
    let Plan::Call(Function::Doc, parts) = plan else {
        return None;
    };
    let [Plan::Str(address)] = parts.as_slice() else {
        return None;
    };
    Some(address.as_str())
}

/// The document node at the address, where a document has it.
fn document_at(addresses: &Addresses, address: &str) -> Option<Node>
    ensures { IfSome result (λ node. IsDocument addresses.now address.now node) }
{
    if !address_ok(address.as_bytes()) {
        return None;
    }
    let Ok(tree) = addresses.search(address) else {
        return None;
    };
    Some(Node { tree, pre: 0 })
}

/// The path that the plan is from a document, which a literal names and which is there.
fn document_path<'a>(frame: EvalContext<'_>, plan: &'a Plan) -> Option<DocumentPath<'a>>
    ensures { IfSome result (λ path. IsDocumentPath frame.entry path plan.now) }
{
    let Plan::Path(start, steps) = plan else {
        return None;
    };
    let address = literal_address(start.get())?;
    let document = document_at(frame.addresses, address)?;
    Some(DocumentPath {
        document,
        steps: steps.as_slice(),
    })
}

/// Whether the function asks of nodes only how many there are.
fn counts(function: Function) -> bool
    ensures { result ≡ only_counts function }
{
    matches!(
        function,
        Function::Count | Function::Exists | Function::Empty | Function::Boolean | Function::Not
    )
}

/// Whether [`places_after_scans`] takes all of the steps: scans, with `//` only before a step to
/// children. Of others no place is asked for, so that no step is taken twice.
fn are_taken(steps: &[PlanStep]) -> bool {
    // Whether the step before this one is `//`.
    let mut is_below = false;
    for step in steps {
        let PlanStep::Scan(axis, _) = step else {
            return false;
        };
        if is_below && !matches!(axis, Axis::Child) {
            return false;
        }
        is_below = matches!(step, PlanStep::Scan(Axis::DescendantOrSelf, Test::Any));
    }
    !is_below
}

/// The atom that a function gives which only counts, where its argument is a path of scans from a
/// document that a literal names, as `count(doc("a")/b/c)`. None where it is anything else, or no
/// document has the address: nothing was read or refused then. For each step it looks at each row of
/// the document once at most.
pub fn count_of_path<L: RowLender>(
    alloc: Global,
    source: &mut L,
    frame: EvalContext<'_>,
    function: Function,
    part: &Plan,
) -> Result<Option<Atom>, Fault>
    ensures tells { L.is_clean source.new → FrameIn (L.forest source.old) frame.entry
        → Tells atomic (Forms.call function (plan_mean part.now ∷ [])
        (frame_at (L.forest source.old) frame.entry) (L.forest source.old))
        (L.forest source.old) result }
    ensures reads { L.is_clean source.new → FrameIn (L.forest source.old) frame.entry
        → (most : ℕ) → ((tree : ℕ) → rows_of (L.forest source.old) tree ≤ most)
        → HasGrown (L.meter source.old) (L.meter source.new) (steps_of part.now * most) }
    ensures keeps { L.forest source.new ≡ L.forest source.old }
    ensures was_clean { L.is_clean source.new → L.is_clean source.old }
{
    if !counts(function) {
        return Ok(None);
    }
    let Some(path) = document_path(frame, part) else {
        return Ok(None);
    };
    if !are_taken(path.steps) {
        return Ok(None);
    }
    let after = places_after_scans(alloc, source, path.document, path.steps)?;
    if after.taken < path.steps.len() {
        return Ok(None);
    }
    let tree = path.document.tree;
    call_on_places(alloc, source, function, tree, after.places.as_slice())
}
