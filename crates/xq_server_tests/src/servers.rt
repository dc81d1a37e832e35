//! Servers over stores. How a store is dropped is written out, and so is not proved here again. Their
//! calls are made here, once each and without a clause: who makes them carries nothing of what they
//! promise, which is compared as the tests run.

use sqlite::{Alter, FileStore};
use std::alloc::Global;
use std::io::{Read, Write};
use xq_atoms::Want;
use xq_databases::MemoryStore;
use xq_frame::Counted;
use xq_memory_disk::MemoryDisk;
use xq_server::{End, Server};
use xq_store::Store;

/// A server over a store.
pub fn server_over<S: Alter + Drop>(alloc: Global, store: Store<S>) -> Server<S> {
    Server::new(alloc, store)
}

/// The store of a server.
pub fn store_of<S: Alter + Drop>(server: Server<S>) -> Store<S> {
    server.into_store()
}

/// Runs the bytes.
pub fn run_bytes<S: Alter + Drop>(server: &mut Server<S>, bytes: &[u8], out: &mut Vec<u8>) -> End {
    server.run(bytes, out)
}

/// Serves so many frames at most.
pub fn serve_frames<S: Alter + Drop, R: Read, W: Write>(
    server: &mut Server<S>,
    reader: &mut R,
    writer: &mut W,
    most: u64,
) -> End {
    server.serve(&mut Counted::new(reader), &mut Counted::new(writer), most)
}

/// A server whose documents live in memory.
pub struct MemoryServer {
    pub server: Server<FileStore<MemoryDisk>>,
}

impl MemoryServer {
    /// A server without a document.
    pub fn new(alloc: Global) -> Result<MemoryServer, Want> {
        let memory = MemoryStore::new(alloc)?;
        Ok(MemoryServer {
            server: server_over(alloc, memory.into_store()),
        })
    }
}

impl Drop for MemoryServer {
    fn drop(self) {
        let MemoryServer { server } = self;
        let _store = MemoryStore {
            store: store_of(server),
        };
    }
}
