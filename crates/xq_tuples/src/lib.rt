//! Tuple streams: the engine of FLWOR expressions (XQuery 3.1, section 3.12).
#![tactic(auto)]

mod groups;
mod keys;
mod order;
mod rows;
mod slots;
mod streams;
mod values;

pub use rows::{Key, OrderSpec};
pub use slots::SlotValue;
pub use streams::Tuples;
