//! Tests of the store and of its views where a fault has to be put in, or where no request reaches
//! what is called: refused allocations, stops of the disk and dead disks, and what views lend and
//! read. What a request reaches runs through the program (tools/tests/test_rows.py). They stand in a
//! crate of their own, since a crate with tests is proved twice, and in one, since each crate that
//! lets a store go proves anew how all that the engine keeps for it is let go.
#![tactic(auto)]

#[cfg(test)]
mod asserts;
#[cfg(test)]
mod axes_tests;
#[cfg(test)]
mod calls;
#[cfg(test)]
mod dead_disk_tests;
#[cfg(test)]
mod documents;
#[cfg(test)]
mod loans;
#[cfg(test)]
mod refusals;
#[cfg(test)]
mod stop_tests;
#[cfg(test)]
mod stores;
#[cfg(test)]
mod tests;
#[cfg(test)]
mod view_tests;
#[cfg(test)]
mod views;
