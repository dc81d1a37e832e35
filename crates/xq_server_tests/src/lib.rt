//! Tests of the server where a fault has to be put in: services by scripted readers and writers,
//! and stops of the disk. What a request reaches without one runs through the program
//! (tools/tests/test_rows.py).
#![tactic(auto)]

#[cfg(test)]
mod asserts;
#[cfg(test)]
mod scripts;
#[cfg(test)]
mod servers;
#[cfg(test)]
mod serving_tests;
#[cfg(test)]
mod stop_tests;
