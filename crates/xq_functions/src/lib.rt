//! Functions and operators on values (XQuery 3.1, sections 3.4 to 3.7; F&O 3.1): each takes lists
//! of items or atoms that were evaluated before, and answers items or a code. What they do with texts
//! (F&O 3.1, sections 5.4 and 5.5) counts characters, and searches without collations.
#![tactic(auto)]

mod aggregates;
mod arguments;
mod arithmetic;
mod calls;
mod comparisons;
mod distinct;
mod documents;
mod kinds;
mod nodes;
mod parts;
mod positions;
mod results;
mod sequences;
mod sets;
mod texts;
mod truths;
mod words;

pub use arithmetic::signed;
pub use calls::{call_on_atom, call_on_atoms, call_on_items, call_on_lists, operate_on_atoms};
pub use documents::{collection, doc, doc_available, root};
pub use kinds::{Argument, argument_of, is_on_atoms};
pub use nodes::compare_nodes;
pub use parts::joined;
pub use sets::{gather, select_nodes, unite_nodes};
pub use truths::{effective, keeps};
