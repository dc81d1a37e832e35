//! The tables of a store, their statements, and what a database is that may be adopted.
//!
//! SQL and the words of the database end in this crate, which xq_store alone calls.
#![tactic(auto)]

mod additions;
mod adopt;
mod carries;
mod faults;
mod findings;
mod judgements;
mod labels;
mod memory_files;
mod readings;
mod refusals;
mod replacements;
mod rows;
pub mod schemas;
mod statements;
mod tables;
mod transactions;

pub use adopt::{check_old, check_store};
pub use carries::{check_layout, move_documents, read_old_addresses};
pub use faults::OpenFault;
pub use findings::{FoundDocument, kept_bytes};
pub use memory_files::open_empty;
pub use readings::{check_open, document_of, list_addresses, nodes_above, nodes_between};
pub use refusals::Refusal;
pub use tables::make_tables;
pub use transactions::{drop_rows, put_rows};
