//! Where trees are read from: sources, which give copies of rows, and lenders, which lend them; and
//! trees that grow in number, those of a source and after them those that were constructed.
#![tactic(auto)]

mod addresses;
mod attributes;
mod fragments;
mod grafts;
mod growing;
mod guides;
mod lenders;
mod lent;
mod meters;
mod names;
mod planted;
mod rows;
mod sources;
mod trees;
mod values;

pub use addresses::Addresses;
pub use attributes::count_attributes;
pub use fragments::ConstructedTrees;
pub use growing::TreeStore;
pub use guides::{Guide, no_parents, told_parent};
pub use lenders::{Buffered, RowLender};
pub use lent::{LentRow, LentRows};
pub use meters::Meter;
pub use names::{NameIndex, find_named};
pub use sources::{RowSource, TreeSource};
pub use trees::Trees;
pub use values::{Values, find_values};
