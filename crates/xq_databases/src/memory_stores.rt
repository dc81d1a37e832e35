//! A store whose documents live in memory.
ghost use Rattle.std.specs.Prelude.{◌≡◌, IfOk, false};
ghost use Rattle.std.specs.FinMap.{empty};
ghost use Rattle.sqlite.specs.Files.{over_files};
ghost use Rattle.xq_store.specs.Adoption.{IsBlank};
ghost use Rattle.xq_tables.specs.Documents.{IsClean, IsOpen, StandsFor};

use crate::databases::{Bounds, database_in};
use sqlite::{Connection, FileStore, Files};
use std::alloc::Global;
use xq_atoms::Want;
use xq_memory_disk::MemoryDisk;
use xq_store::Store;
use xq_tables::OpenFault;
use xq_tables::schemas::is_blank;

/// What the engine keeps of a database in memory. Other pages are a copy in memory away, and what is
/// kept once is held as long as the store is; the log holds these bytes and the largest transaction
/// since. Any number serves as its seed where no one attacks it.
const IN_MEMORY: Bounds = Bounds {
    kept: 524_288,
    logged: 524_288,
    seed: 7,
};

/// A store whose documents live in memory and end with it.
pub struct MemoryStore {
    /// The store, to be served.
    pub store: Store<FileStore<MemoryDisk>>,
}

impl MemoryStore {
    /// A store without a document. It refuses only for want of memory or of the store.
    pub fn new(alloc: Global) -> Result<MemoryStore, Want>
        ensures clean { IfOk result (λ made. IsClean over_files made.store) }
        ensures open { IfOk result (λ made. IsOpen over_files made.store) }
        ensures none { IfOk result (λ made. StandsFor over_files made.store empty) }
    {
        match Store::adopt(alloc, new_database(alloc)?, None) {
            Ok(store) => Ok(MemoryStore { store }),
            Err((OpenFault::Want(want), _held)) => Err(want),
            Err((OpenFault::NotAStore, _held)) => Err(Want::Store),
        }
    }

    /// Gives the store itself.
    pub fn into_store(self) -> Store<FileStore<MemoryDisk>>
        ensures { result ≡ self.store }
    {
        let MemoryStore { store } = self;
        store
    }
}

/// A database without a table, on two disks in memory.
fn new_database(alloc: Global) -> Result<Connection<FileStore<MemoryDisk>>, Want>
    ensures outside { IfOk result (λ conn. conn.in_transaction ≡ false) }
    ensures blank { IfOk result (λ conn. IsBlank over_files conn) }
{
    let files = Files {
        log: MemoryDisk::new(alloc),
        db: MemoryDisk::new(alloc),
    };
    let conn = match database_in(alloc, files, IN_MEMORY, false) {
        Ok(conn) => conn,
        Err((want, _held)) => return Err(want),
    };
    if conn.is_autocommit() && is_blank(conn.schema()) {
        Ok(conn)
    } else {
        Err(Want::Store)
    }
}

// It is written out, so that a caller does not prove again how each part is dropped.
impl Drop for MemoryStore {
    fn drop(self) {
        let MemoryStore { store: _store } = self;
    }
}
