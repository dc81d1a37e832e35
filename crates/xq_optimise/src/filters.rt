//! Predicates that compare a key of each item for equality: what they keep is what a join keeps of
//! the items (XQuery 3.1, sections 3.3.3, 3.7 and 3.12.5).
ghost use Rattle.std.specs.Prelude.{◌≡◌, ◌<◌, false, IfOk, IfSome};
ghost use Rattle.xq_trees.specs.declared.Kind.TheVariants.{Document};
ghost use Rattle.xq_atoms.specs.Text.{Text as TextLem};
ghost use Rattle.xq_meaning.specs.Steps.{passes};
ghost use Rattle.xq_optimise.specs.private.Filters.{LeadsTo, IsSide, ComparesItems, IsFilterGroup, IsStepGroup};

use crate::held::Held;
use crate::joins::{as_equal, join_key, may_give_texts, scans_of};
use crate::kinds::gives_nodes;
use crate::outside::{reads_outside, steps_read_outside};
use crate::predicates::is_item_test;
use sqlite_items::Items;
use std::alloc::{AllocError, Global};
use xq_meaning::{Join, JoinKey, KeyForm, Plan, PlanStep, Test};
use xq_plan::copied_test;
use xq_trees::Axis;

/// Whether a document node may pass the test.
pub fn passes_documents(test: &Test) -> bool
    ensures { result ≡ false → (name : TextLem) → passes test.now Document name ≡ false }
{
    match test {
        Test::Any => true,
        Test::Document => true,
        Test::Element(_) => false,
        Test::Attribute(_) => false,
        Test::Text => false,
        Test::Comment => false,
        Test::ProcessingInstruction(_) => false,
    }
}

/// The scans that lead from the item in focus to what a part gives: none, or that of a step.
fn first_scans(alloc: Global, plan: &Plan) -> Result<Option<Items<(Axis, Test)>>, AllocError>
    ensures { IfOk result (λ found. IfSome found (λ scans. LeadsTo scans plan.now)) }
{
    let mut scans = Items::new(alloc);
    match plan {
        Plan::ContextItem => Ok(Some(scans)),
        Plan::Step(axis, test, predicates) => {
            if !predicates.is_empty() || passes_documents(test) {
                return Ok(None);
            }
            scans.push((*axis, copied_test(alloc, test)?))?;
            Ok(Some(scans))
        }
        _ => Ok(None),
    }
}

/// The scans that lead from the item in focus to what a part gives.
pub fn focus_scans(alloc: Global, plan: &Plan) -> Result<Option<Items<(Axis, Test)>>, AllocError>
    ensures { IfOk result (λ found. IfSome found (λ scans. LeadsTo scans plan.now)) }
{
    let Plan::Path(start, steps) = plan else {
        return first_scans(alloc, plan);
    };
    let Some(mut scans) = first_scans(alloc, start.get())? else {
        return Ok(None);
    };
    let Some(more) = scans_of(alloc, steps.as_slice())? else {
        return Ok(None);
    };
    scans.append(more)?;
    Ok(Some(scans))
}

/// Which keys a join may compare.
#[derive(Clone, Copy)]
pub enum Keys {
    /// Any.
    All,
    /// Those that the values of attributes, which are kept, don't serve.
    Unkept,
}

/// Whether the keys are an attribute of the item and a value of the tuple. The values of attributes
/// are kept, so that those with one value are found without a table.
fn are_kept(next: usize, item: &JoinKey, tuple: &JoinKey) -> bool {
    let [(Axis::Attributes, _)] = item.scans.as_slice() else {
        return false;
    };
    item.slot == next && matches!(tuple.form, KeyForm::Value)
}

/// The key of the item in focus that a part is, where the item is in the next slot of so many.
fn focus_key(alloc: Global, next: usize, plan: &Plan) -> Result<Option<JoinKey>, AllocError>
    ensures { IfOk result (λ found. IfSome found (λ key. IsSide next key plan.now)) }
{
    let Some(scans) = focus_scans(alloc, plan)? else {
        return Ok(None);
    };
    Ok(Some(JoinKey {
        slot: next,
        scans,
        form: KeyForm::Value,
    }))
}

/// The key in one of so many slots that a part is.
fn outer_key(alloc: Global, next: usize, plan: &Plan) -> Result<Option<JoinKey>, AllocError>
    ensures { IfOk result (λ found. IfSome found (λ key. IsSide next key plan.now)) }
{
    let Some(key) = join_key(alloc, plan)? else {
        return Ok(None);
    };
    if key.slot < next {
        Ok(Some(key))
    } else {
        Ok(None)
    }
}

/// The keys that a predicate compares, one of the item in focus, and one in a slot.
fn compared_keys(
    alloc: Global,
    next: usize,
    left: &Plan,
    right: &Plan,
) -> Result<Option<(JoinKey, JoinKey)>, AllocError>
    ensures { IfOk result (λ found. IfSome found (λ keys.
        IsSide next keys.0 left.now × IsSide next keys.1 right.now)) }
{
    if let Some(item) = focus_key(alloc, next, left)? {
        let Some(tuple) = outer_key(alloc, next, right)? else {
            return Ok(None);
        };
        return Ok(Some((item, tuple)));
    }
    let Some(tuple) = outer_key(alloc, next, left)? else {
        return Ok(None);
    };
    let Some(item) = focus_key(alloc, next, right)? else {
        return Ok(None);
    };
    Ok(Some((tuple, item)))
}

/// Whether the keys may be compared.
fn may_compare(keys: Keys, next: usize, left: &JoinKey, right: &JoinKey) -> bool {
    match keys {
        Keys::All => true,
        Keys::Unkept => !are_kept(next, left, right) && !are_kept(next, right, left),
    }
}

/// The join that compares what a predicate compares.
fn join_of(alloc: Global, next: usize, test: &Plan, keys: Keys) -> Result<Option<Join>, AllocError>
    ensures { IfOk result (λ found. IfSome found (λ join. ComparesItems next join test.now)) }
{
    let Some(equal) = as_equal(test) else {
        return Ok(None);
    };
    let Some((left, right)) = compared_keys(alloc, next, equal.left, equal.right)? else {
        return Ok(None);
    };
    if !may_compare(keys, next, &left, &right) {
        return Ok(None);
    }
    Ok(Some(Join {
        carried: None,
        equality: equal.equality,
        left,
        right,
    }))
}

/// The keys of a join that keeps of what a part gives the items that the predicates keep, where
/// there is one, and the part reads no slot of the tuples.
pub fn filter_join(
    alloc: Global,
    known: &[Held],
    outer: usize,
    start: &Plan,
    predicates: &[Plan],
    keys: Keys,
) -> Result<Option<Join>, AllocError>
    ensures { IfOk result (λ found. IfSome found (λ join.
        IsFilterGroup outer known.now start.now predicates.now join)) }
{
    let [test] = predicates else {
        return Ok(None);
    };
    if !gives_nodes(known, start) || !may_give_texts(start) || !reads_outside(outer, start) {
        return Ok(None);
    }
    join_of(alloc, known.len(), test, keys)
}

/// The keys of a join that keeps of what a step finds after a path the nodes that its predicates
/// keep, where there is one, the predicates are never refused, and the path reads no slot of the
/// tuples.
pub fn step_join(
    alloc: Global,
    known: &[Held],
    outer: usize,
    start: &Plan,
    steps: &[PlanStep],
    predicates: &[Plan],
) -> Result<Option<Join>, AllocError>
    ensures { IfOk result (λ found. IfSome found (λ join.
        IsStepGroup outer known.now start.now steps.now predicates.now join)) }
{
    let [test] = predicates else {
        return Ok(None);
    };
    if !is_item_test(known, test) {
        return Ok(None);
    }
    if !reads_outside(outer, start) || !steps_read_outside(outer, steps) {
        return Ok(None);
    }
    join_of(alloc, known.len(), test, Keys::Unkept)
}
