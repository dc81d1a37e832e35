//! What documents lie in: a store in memory, and a store in a file, opened and closed.
//!
//! Their types name what their databases lie on. How such a database is dropped, with all that the
//! engine keeps for it, is proved here, once for the program and for all tests.
#![tactic(auto)]

mod adopting;
mod databases;
mod disk_stores;
mod files;
mod memory_stores;

pub use disk_stores::{close_store, open_store};
pub use memory_stores::MemoryStore;
