//! Steps along the axes, string values and copies of nodes, read from a lender of rows.
#![tactic(auto)]

mod attributes;
mod axis_order;
mod backward;
mod children;
mod climbing;
mod contexts;
mod copies;
mod downward;
mod levels;
mod looks;
mod merges;
mod names;
mod near;
mod onward;
mod owners;
mod parents;
mod passing;
mod picks;
mod selves;
mod slashes;
mod steps;
mod tests;
mod values;
mod walks;

pub use axis_order::in_axis_order;
pub use copies::copy;
pub use merges::merge;
pub use owners::with_value;
pub use picks::Places;
pub use slashes::{double_slash, double_slash_in_tree};
pub use steps::{
    as_items, axis, first_children, items_on_axis, last_child, places_on_axis, step, step_in_tree,
};
pub use values::string_value;
