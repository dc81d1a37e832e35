//! Calls of the engine and of stores, once each and without a clause: who makes them here carries
//! nothing of what they promise, which is compared as the tests run.

use sqlite::{Alter, Connection, MemStore};
use std::alloc::Global;
use xq_atoms::{Want, address_ok};
use xq_packed::PackedTree;
use xq_store::{Put, Store};
use xq_tables::OpenFault;
use xq_trees::RowTree;

/// A new store in memory.
pub fn in_memory(alloc: Global) -> Result<Store<MemStore>, Want> {
    Store::new_in_memory(alloc)
}

/// Stores a document.
pub fn put<S: Alter>(store: &mut Store<S>, address: &str, document: &RowTree) -> Result<Put, Want> {
    if !address_ok(address.as_bytes()) || !document.is_document() {
        return Err(Want::Store);
    }
    store.put(address, document)
}

/// Hands a document over to the store, which keeps its rows.
pub fn hand_over<S: Alter>(
    alloc: Global,
    store: &mut Store<S>,
    address: &str,
    document: RowTree,
) -> Result<Put, Want> {
    let tree = PackedTree::of(alloc, &document)?;
    if !address_ok(address.as_bytes()) || !tree.is_document() {
        return Err(Want::Store);
    }
    store.put_owned(address, tree)
}

/// The document of the address.
pub fn load<S: Alter>(store: &mut Store<S>, address: &str) -> Result<Option<RowTree>, Want> {
    store.load(address)
}

/// Adopts a database. One in a transaction, which no test has, is refused as no other is.
pub fn adopt<S: Alter>(
    alloc: Global,
    conn: Connection<S>,
) -> Result<Store<S>, (OpenFault, Connection<S>)> {
    if !conn.is_autocommit() {
        return Err((OpenFault::Want(Want::Memory), conn));
    }
    Store::adopt(alloc, conn, None)
}
