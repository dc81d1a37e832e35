//! What is printed of a result can be read back: each function's contract is a law, and its body
//! does nothing. The laws are about every printable result, and have no limit on length.
#![tactic(auto)]

ghost use Rattle.xq_readback.specs.Readback.{PrintSpells, QuotedGives, TokensDerive};

mod atom_laws;
mod printable;

pub use atom_laws::{
    decimal_reads_back, integer_reads_back, rounds_to_whole_numbers, stands_by_characters,
    string_reads_back,
};
pub use printable::{legible_is_printable, results_are_legible};

/// The printed form of a result spells the tokens of its quoted expression and no others, and has
/// no fault (XQuery 3.1, appendix A.2), where it is UTF-8, as each `String` is.
pub fn print_spells()
    ensures { PrintSpells }
{}

/// These tokens derive the quoted expression (XQuery 3.1, appendix A.1), nest no deeper than those
/// of a query may, and have no static fault.
pub fn tokens_derive()
    ensures { TokensDerive }
{}

/// The quoted expression gives the result again, equal by value, over any documents; it adds trees
/// alone, and what it gives has the same printed form.
pub fn quoted_gives()
    ensures { QuotedGives }
{}
