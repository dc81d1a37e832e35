//! Queries: texts read as plans, and plans asked over trees for the text of a reply or for the
//! document that they make.
#![tactic(auto)]

mod asking;
mod direct;
mod laws;
mod lines;
mod reading;

pub use asking::{ask, make};
pub use laws::{faults_come_later, reads_at_most_once, reads_back, values_are_printable};
pub use reading::read;
