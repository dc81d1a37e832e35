//! Tests of trees and of tuples through public calls that no request reaches: sources that give
//! copies of rows, buffers that lend them, trees that are converted, and streams whose columns are
//! given at once. What a request reaches runs through the program (tools/tests/test_rows.py). They
//! stand in a crate of their own, since a crate with tests is proved twice, and over trees in memory
//! alone; `xq_store_tests` has those over stores.
#![tactic(auto)]

#[cfg(test)]
mod asserts;
#[cfg(test)]
mod planted;
#[cfg(test)]
mod sources;
#[cfg(test)]
mod tuples;
