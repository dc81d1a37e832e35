//! The edge of the program: what the words of its command line ask for, and how the program
//! ends. It stands beside the program, so that its edits and its tests prove the program not
//! again.
#![tactic(auto)]

pub mod endings;
pub mod tasks;
pub mod words;
