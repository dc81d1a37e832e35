//! The tokens of a query's text.
#![tactic(auto)]

mod chars;
mod depth;
mod lexing;
mod names;
mod numbers;
mod runs;
mod separators;
mod strings;
mod symbols;
mod tokens;

pub use depth::{MAX_NESTING, nesting};
pub use lexing::lex;
pub use tokens::{Symbol, Token};
