//! What refused allocations leave.

use crate::asserts::is_right;
use crate::refusals::{Fate, fate_of_calls};
use crate::stores::in_memory;
use sqlite::Alter;
use std::alloc::Global;
use xq_atoms::Want;
use xq_store::Store;

/// Whether the store comes through each kind of call.
fn comes_through<S: Alter + Drop>(alloc: Global, store: Store<S>) -> bool {
    let mut store = store;
    matches!(fate_of_calls(alloc, &mut store), Fate::Up)
}

/// Run as it stands no allocation is refused; tools/trials/each_allocation.sh runs it once for each
/// of its allocations, refusing that one.
#[test]
fn each_allocation_in_memory(rt: HostRuntime) -> Result<(), Want> {
    let alloc = rt.alloc();
    let store = in_memory(alloc).or_else(|_want| in_memory(alloc))?;
    is_right(&rt, comes_through(alloc, store), 0);
    Ok(())
}
