//! Values of the language and what is done with them, and what expressions, their normal forms and
//! plans mean, as definitions. The only code is the types of operators, node tests, normal forms
//! and plans.
#![tactic(auto)]

mod joins;
mod node_tests;
mod normal_forms;
mod operators;
mod plans;

pub use joins::{Equality, Join, JoinKey, KeyForm};
pub use node_tests::Test;
pub use normal_forms::{Core, CoreClause};
pub use operators::Operator;
pub use plans::{Plan, PlanClause, PlanStep};
