//! The order along an axis, in which the predicates of a step count (XQuery 3.1, section 3.3.3).
ghost use Rattle.std.specs.Prelude.{◌≡◌};
ghost use Rattle.xq_trees.specs.Items.{item_views};
ghost use Rattle.xq_meaning.specs.Steps.{in_axis_order as in_axis_order_lem, is_reverse as is_reverse_lem};

use xq_trees::{Axis, Items};

/// Whether the axis goes up or to the left.
fn is_reverse(axis: Axis) -> bool
    ensures { result ≡ is_reverse_lem axis }
{
    match axis {
        Axis::Parent
        | Axis::Ancestor
        | Axis::AncestorOrSelf
        | Axis::Preceding
        | Axis::PrecedingSibling => true,
        Axis::Child
        | Axis::Descendant
        | Axis::DescendantOrSelf
        | Axis::SelfNode
        | Axis::Attributes
        | Axis::Following
        | Axis::FollowingSibling => false,
    }
}

/// The items from document order to axis order, or back.
pub fn in_axis_order(axis: Axis, items: Items) -> Items
    ensures { item_views result ≡ in_axis_order_lem axis (item_views items) }
{
    let mut ordered = items;
    if is_reverse(axis) {
        ordered.reverse();
    }
    ordered
}
