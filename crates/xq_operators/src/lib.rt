//! What an evaluation does with values: all of it but going down a plan.
#![tactic(auto)]

mod atoms;
mod calls;
mod clauses;
mod constructors;
mod contexts;
mod node_functions;
mod nodes;
mod operands;
mod operators;
mod paths;
mod runs;
mod steps;
mod told;
mod values;

pub use atoms::{atomized, into_atoms};
pub use calls::{call, call_on_one};
pub use clauses::{group, order, order_by_keys};
pub use constructors::{named, node_name, planted_named, planted_unnamed, unnamed};
pub use contexts::{EvalContext, Focus};
pub use nodes::{gather, only_node, only_nodes, root};
pub use operators::{operate, sign};
pub use paths::{ShortPath, bound_node, short_path};
pub use runs::{ItemsAfter, PlacesAfter, items_after_scans, items_at_places, places_after_scans};
pub use steps::{
    axis_items, double_slash, first_children, last_child, parents_below, scan, scan_from,
};
pub use told::{call_on_places, is_told, only_atom};
pub use values::{
    boolean, context_item, copied, deciding, decimal, integer, joined, opened, push_copy, rebind,
    refill, single, slot, string, variable,
};
