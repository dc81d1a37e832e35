//! The leaves of the server: characters and names of XML, codes of refusals, what may be wanting,
//! addresses, and atoms.
#![tactic(auto)]

mod addresses;
mod arithmetic;
mod atoms;
mod casts;
mod characters;
mod comparisons;
mod decimals;
pub mod laws;
mod literals;
mod prints;
mod refusals;
mod spaces;
mod texts;

pub use addresses::{MAX_ADDRESS, address_ok};
pub use arithmetic::{abs, add, ceiling, div, floor, idiv, mod_, mul, neg, round, sub};
pub use atoms::{Atom, GroupKey};
pub use casts::{cast_bool, cast_dec, cast_int};
pub use characters::{is_char, is_digit, is_name, is_name_char, is_name_start, is_space};
pub use comparisons::{CompOp, compare_general, compare_value};
pub use decimals::Decimal;
pub use literals::{dec_literal, int_literal};
pub use prints::{append_quoted, cast_str, print};
pub use refusals::{Code, Fault, Want};
pub use spaces::{after_spaces, trimmed};
