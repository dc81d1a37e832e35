//! Constructors of nodes, their content, and the text of a result, over any lender of rows.
#![tactic(auto)]

mod attributes;
mod content;
mod copies;
mod elements;
mod judging;
mod kinds;
mod leaves;
mod names;
mod node_copies;
mod planting;
mod printer;
mod surplus;
mod values;

pub use elements::{document, element};
pub use leaves::{attribute, comment, pi, text};
pub use names::{literal_name, name_of};
pub use planting::{plant_document, plant_element};
pub use printer::print_items;
