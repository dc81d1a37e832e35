//! An empty database over two disks in memory.
//!
//! The engine's own store in memory deletes rows in quadratic time, and the store of a file does
//! not. So a server without a file keeps its database in a file all the same, one in memory.
ghost use Rattle.std.specs.Prelude.{IfOk};
ghost use Rattle.sqlite.specs.State.{HasCleanDisk};
ghost use Rattle.sqlite.specs.Steps.{IsEmpty};
ghost use Rattle.sqlite.specs.Files.{file_state};

use crate::refusals::Refusal;
use crate::schemas::is_blank;
use sqlite::{Connection, Error, ErrorCode, FileStore, Files, Options};
use std::alloc::Global;
use xq_memory_disk::MemoryDisk;

/// Where the choices of the store's page cache begin; any number serves where no one attacks it.
const SEED: u64 = 7;

/// How many pages are kept of those that were read, and of those that a transaction wrote. Others
/// are a copy in memory away, and what is kept once is held as long as the store is.
const KEPT_PAGES: usize = 128;

/// How many pages the log has before it is copied into the database: the log holds these and the
/// largest transaction since.
const LOG_PAGES: usize = 128;

/// Opens an empty database over two empty disks in memory.
pub fn open_empty(alloc: Global) -> Result<Connection<FileStore<MemoryDisk>>, Refusal>
    ensures clean { IfOk result (λ conn. HasCleanDisk (file_state conn)) }
    ensures empty { IfOk result (λ conn. IsEmpty (file_state conn)) }
{
    let files = Files {
        log: MemoryDisk::new(alloc),
        db: MemoryDisk::new(alloc),
    };
    let options = Options {
        cache_pages: KEPT_PAGES,
        spill_pages: KEPT_PAGES,
        checkpoint_frames: LOG_PAGES,
        seed: SEED,
    };
    let conn = match Connection::open_files(alloc, files, options) {
        Ok(conn) => conn,
        Err((error, _files)) => return Err(Refusal(error)),
    };
    if is_blank(conn.schema()) {
        Ok(conn)
    } else {
        Err(Refusal(Error::SqliteFailure(ErrorCode::NotADatabase)))
    }
}
