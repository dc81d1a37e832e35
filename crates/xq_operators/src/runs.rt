//! Steps that are scans, taken one after another from one node: between them stand places in its
//! tree, and no items (XQuery 3.1, section 3.3).
ghost use Rattle.std.specs.Prelude.{◌≡◌, ◌*◌, ◌≤◌, length, take, true, IfOk, IfSome};
ghost use Rattle.xq_trees.specs.Items.{item_views};
ghost use Rattle.xq_sources.specs.Sources.{HasNode};
ghost use Rattle.xq_meaning.specs.declared.plans.PlanStep.TheVariants as plan_step;
ghost use Rattle.xq_operators.specs.Reads.{rows_of, HasGrown};
ghost use Rattle.xq_operators.specs.Runs.{views_of, ScansGive};

use std::alloc::Global;
use xq_atoms::Want;
use xq_axes::{Places, double_slash_in_tree, step_in_tree};
use xq_meaning::{PlanStep, Test};
use xq_sources::RowLender;
use xq_trees::{Axis, Items, Node};

/// Whether the step is `descendant-or-self::node()`, for which `//` stands (XQuery 3.1, section
/// 3.3.5).
fn is_slashes(step: &PlanStep) -> bool
    ensures { result ≡ true → step.now ≡ plan_step.Scan Axis.DescendantOrSelf Test.Any }
{
    matches!(step, PlanStep::Scan(Axis::DescendantOrSelf, Test::Any))
}

/// The axis and the test of a step that is a scan.
fn scan_of(step: &PlanStep) -> Option<(Axis, &Test)>
    ensures { IfSome result (λ scan. step.now ≡ plan_step.Scan scan.0 scan.1.now) }
{
    match step {
        PlanStep::Scan(axis, test) => Some((*axis, test)),
        PlanStep::Each(_) => None,
    }
}

/// Where steps lead from a node: to nodes of its tree.
#[derive(Drop)]
pub struct PlacesAfter {
    /// Their places, which rise.
    pub places: Places,
    /// How many steps were taken.
    pub taken: usize,
}

/// The nodes to which the first of the steps lead from the node, so many as are scans: `//` and a
/// step to children are taken as one scan of what is below, and `//` before another step is not
/// taken.
///
/// It reads at most as many rows as the tree has for each of these steps, by ranges and singly.
///
/// `Want::Store` where the source refuses to read a row; `Want::Memory` where a growth was
/// refused.
pub fn places_after_scans<L: RowLender>(
    alloc: Global,
    source: &mut L,
    node: Node,
    steps: &[PlanStep],
) -> Result<PlacesAfter, Want>
    ensures gives { L.is_clean source.new → HasNode (L.forest source.old) node.tree node.pre
        → IfOk result (λ after. ScansGive (L.forest source.old) node
        (take after.taken steps.now) (views_of node.tree after.places.items)) }
    ensures taken { IfOk result (λ after. after.taken ≤ length steps.now) }
    ensures reads { L.is_clean source.new → HasNode (L.forest source.old) node.tree node.pre
        → IfOk result (λ after. HasGrown (L.meter source.old) (L.meter source.new)
        (after.taken * rows_of (L.forest source.old) node.tree)) }
    ensures reads_most { L.is_clean source.new
        → HasNode (L.forest source.old) node.tree node.pre
        → HasGrown (L.meter source.old) (L.meter source.new)
        (length steps.now * rows_of (L.forest source.old) node.tree) }
    ensures keeps { L.forest source.new ≡ L.forest source.old }
    ensures was_clean { L.is_clean source.new → L.is_clean source.old }
{
    let mut places = Places::from_array(alloc, [node.pre])?;
    let mut taken = 0;
    // Whether the step before this one is `//`, and not taken yet.
    let mut is_below = false;
    for step in steps {
        if !is_below && is_slashes(step) {
            is_below = true;
            continue;
        }
        let Some((axis, test)) = scan_of(step) else {
            return Ok(PlacesAfter { places, taken });
        };
        if is_below {
            let Axis::Child = axis else {
                return Ok(PlacesAfter { places, taken });
            };
            let found = double_slash_in_tree(alloc, source, node.tree, places.as_slice(), test)?;
            places = found;
            taken += 2;
            is_below = false;
            continue;
        }
        let found = step_in_tree(alloc, source, node.tree, places.as_slice(), axis, test)?;
        places = found;
        taken += 1;
    }
    Ok(PlacesAfter { places, taken })
}

/// The nodes of the tree at the places, as items. `Want::Memory` where a growth was refused.
pub fn items_at_places(alloc: Global, tree: usize, places: &[u32]) -> Result<Items, Want>
    ensures { IfOk result (λ items. item_views items ≡ views_of tree places.now) }
{
    xq_axes::as_items(alloc, tree, places)
}

/// The items to which steps lead from a node.
#[derive(Drop)]
pub struct ItemsAfter {
    pub items: Items,
    /// How many steps were taken.
    pub taken: usize,
}

/// The items to which the first of the steps lead from the node, as [`places_after_scans`] takes
/// them: they are made once, after the last of these steps.
///
/// It reads at most as many rows as the tree has for each of these steps, by ranges and singly.
///
/// `Want::Store` where the source refuses to read a row; `Want::Memory` where a growth was
/// refused.
pub fn items_after_scans<L: RowLender>(
    alloc: Global,
    source: &mut L,
    node: Node,
    steps: &[PlanStep],
) -> Result<ItemsAfter, Want>
    ensures gives { L.is_clean source.new → HasNode (L.forest source.old) node.tree node.pre
        → IfOk result (λ after. ScansGive (L.forest source.old) node
        (take after.taken steps.now) (item_views after.items)) }
    ensures taken { IfOk result (λ after. after.taken ≤ length steps.now) }
    ensures reads { L.is_clean source.new → HasNode (L.forest source.old) node.tree node.pre
        → IfOk result (λ after. HasGrown (L.meter source.old) (L.meter source.new)
        (after.taken * rows_of (L.forest source.old) node.tree)) }
    ensures reads_most { L.is_clean source.new
        → HasNode (L.forest source.old) node.tree node.pre
        → HasGrown (L.meter source.old) (L.meter source.new)
        (length steps.now * rows_of (L.forest source.old) node.tree) }
    ensures keeps { L.forest source.new ≡ L.forest source.old }
    ensures was_clean { L.is_clean source.new → L.is_clean source.old }
{
    let found = places_after_scans(alloc, source, node, steps)?;
    let items = items_at_places(alloc, node.tree, found.places.as_slice())?;
    Ok(ItemsAfter {
        items,
        taken: found.taken,
    })
}
