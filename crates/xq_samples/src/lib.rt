//! What tests of trees and tests of stores have in common: documents, and tables of what the axes
//! give over them, whichever lender their rows come from. No crate of the program stands on it.
//! Each table says which of its rows does not hold, and what calls it asserts that none does.
#![tactic(auto)]

pub mod documents;
pub mod readings;
pub mod scans;
