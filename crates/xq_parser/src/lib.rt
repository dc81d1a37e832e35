//! The one expression that tokens derive, or none (XQuery 3.1, appendix A.1).
#![tactic(auto)]

mod flwor;
pub mod laws;
mod levels;
mod lists;
mod lookahead;
mod node_tests;
mod operators;
mod parsing;
mod paths;
mod primaries;
mod values;
mod words;

pub use parsing::parse;
