//! Calls of a store, each with the answer that is wanted of it.
use crate::documents::Document;
use crate::stores::{hand_over, load, put};
use sqlite::Alter;
use std::alloc::Global;
use xq_atoms::Want;
use xq_sources::LentRows;
use xq_store::{Put, Store};

/// A call, and its answer.
#[derive(Clone, Copy)]
pub enum Call {
    List(&'static [&'static str]),
    Put(&'static str, Document, Put),
    /// A put that hands its document over to the store, which keeps the document's rows.
    HandOver(&'static str, Document, Put),
    Load(&'static str, Option<Document>),
    Drop(&'static str, bool),
}

/// The number of the first call whose answer is another, or 0.
pub fn first_wrong<S: Alter>(
    alloc: Global,
    store: &mut Store<S>,
    calls: &[Call],
) -> Result<usize, Want> {
    for (place, call) in calls.iter().enumerate() {
        if !is_answered(alloc, store, *call)? {
            return Ok(place.saturating_add(1));
        }
    }
    Ok(0)
}

/// Makes the call, and tells whether the answer is the one that is wanted.
pub fn is_answered<S: Alter>(
    alloc: Global,
    store: &mut Store<S>,
    call: Call,
) -> Result<bool, Want> {
    match call {
        Call::List(addresses) => lists(store, addresses),
        Call::Put(address, document, wanted) => {
            Ok(put_made(alloc, store, address, document)? == wanted)
        }
        Call::HandOver(address, document, wanted) => {
            Ok(hand_over(alloc, store, address, document.made(alloc)?)? == wanted)
        }
        Call::Load(address, document) => loads(store, address, document),
        Call::Drop(address, was) => drops(store, address, was),
    }
}

/// Whether the store's addresses are those that are wanted.
fn lists<S: Alter>(store: &mut Store<S>, wanted: &[&str]) -> Result<bool, Want> {
    let addresses = store.addresses()?;
    for (address, want) in addresses.iter().zip(wanted) {
        if address.as_str() != *want {
            return Ok(false);
        }
    }
    Ok(addresses.len() == wanted.len())
}

/// Puts the document, which is made first.
fn put_made<S: Alter>(
    alloc: Global,
    store: &mut Store<S>,
    address: &str,
    document: Document,
) -> Result<Put, Want> {
    put(store, address, &document.made(alloc)?)
}

/// Whether the document under the address is the one that is wanted, or there is none.
fn loads<S: Alter>(
    store: &mut Store<S>,
    address: &str,
    wanted: Option<Document>,
) -> Result<bool, Want> {
    Ok(match (load(store, address)?, wanted) {
        (Some(found), Some(document)) => document.has(&LentRows::new(found.rows())),
        (None, None) => true,
        _ => false,
    })
}

/// Whether the drop says as it should whether there was a document.
fn drops<S: Alter>(store: &mut Store<S>, address: &str, wanted: bool) -> Result<bool, Want> {
    Ok(store.drop_doc(address)? == wanted)
}
