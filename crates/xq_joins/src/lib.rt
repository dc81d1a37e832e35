//! What is found without the values of its parts. Joins of items with tuples whose keys are equal,
//! by a table from texts to nodes and not pair by pair (XQuery 3.1, sections 3.12.2 and 3.12.5);
//! equalities of a text, or of
//! the texts of a key, and of what one step leads to; and the atom of one step from a node at hand,
//! or of a call on it, or of one that counts what a path from a document leads to: texts are read
//! where they lie, and no lists are made.
#![tactic(auto)]

mod atom_keys;
mod atoms;
mod decisions;
mod equalities;
mod join_keys;
mod keyed;
mod keys;
mod matches;
mod pairs;
mod paths;
mod shapes;
mod text_sets;
mod values;

pub use atoms::{atom_of, atom_of_call};
pub use decisions::decided_by_key;
pub use equalities::{
    NodeTest, TextTest, are_in_trees, keep_by_text, leads_to_text, node_test, text_test, value_test,
};
pub use keyed::{KeyedTest, keep_by_key, keyed_test, only_text_test, value_key_test};
pub use matches::matching;
pub use values::{are_nodes, value};
