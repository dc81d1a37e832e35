//! The evaluator: the value of a plan, and the trees that it constructs.
#![tactic(auto)]

mod at_hand;
mod bindings;
mod chosen;
mod clauses;
mod concatenation;
mod counting;
mod evaluation;
mod expressions;
mod groups;
mod integers;
mod lent;
mod numbers;
mod pairs;
mod paths;
mod positions;
mod quantified;
mod queries;
mod texts;
mod told;
mod variables;

pub use queries::eval;
