//! Stops of the disk, for tests of stores and tests of the server: a store is on two files, and one
//! of them answers so many calls, and fails each one after. What was not synced by then is lost,
//! and the store is opened again. No crate of the program stands on it.
#![tactic(auto)]

mod files;
mod runs;

pub use files::StoppingStore;
pub use runs::{Run, Stop, Task, wrong_run};
