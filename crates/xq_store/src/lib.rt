//! Documents in the tables of a database: a store is a map from address to tree, and a refused
//! call leaves it as it was.
//!
//! The tables and their statements are those of xq_tables. What lies above this crate sees a
//! [`Store`] and its [`View`] alone, and of xq_tables what these are said by.
#![tactic(auto)]

mod adoptions;
mod fronts;
mod laws;
mod lending;
mod listings;
mod room;
mod shelves;
mod stores;
mod views;

pub use laws::{memory_disks_are_clean, memory_is_clean};
pub use stores::{Put, Store};
pub use views::{Origin, View};
