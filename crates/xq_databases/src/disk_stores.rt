//! A store whose documents live in a file, and are there at the next start.
ghost use Rattle.std.specs.Prelude.{◌≡◌, IfSome, IsTrue, false, true};
ghost use Rattle.sqlite_std_file.specs.File.{IsFresh, file_is_usable};
ghost use Rattle.sqlite.specs.Files.{over_files};
ghost use Rattle.sqlite.specs.WalFiles.{image_at};
ghost use Rattle.sqlite_wal.specs.Reads.{AreClean};
ghost use Rattle.xq_tables.specs.Documents.{IsClean, IsOpen};
ghost use Rattle.xq_databases.specs.Opened.{IsLeftIn, StandsForFiles};

use crate::adopting::adopted;
use crate::databases::{Bounds, database_in};
use crate::files::{absent_log, has_one_byte, remove_log};
use sqlite::{FileFrom, FileStore, Files, Start};
use sqlite_disk::Disk;
use std::hash::{BuildHasher, RandomState};
use xq_store::Store;

/// Of the pages of a file so many bytes are kept that were read, and so many that were written.
const KEPT_BYTES: usize = 8_192_000;

/// The log of a file has so many bytes of pages before it is copied.
const LOG_BYTES: usize = 4_096_000;

/// The store in the file at a path; an absent or empty file becomes an empty store. None for a file
/// that is no store, that can't be read or written, that another program holds or that is damaged:
/// its bytes stay, and no log is left beside it that wasn't there. A new file gets a sum on each
/// page, so that an opening finds changed bytes.
///
/// `kept` says how many bytes are kept at most of what the opening and queries read, beside those of
/// the document that was wanted last; none leaves that to the store.
///
/// `start` stands for what the files hold as they are opened, which no code can read. While the disk
/// returns what was written, the store stands for the documents that they held.
pub fn open_store<S: Start>(
    rt: &HostRuntime,
    path: &str,
    start: S,
    kept: Option<usize>,
) -> Option<Store<FileStore<FileFrom<S>>>>
    ensures found { IfSome result (λ store. IsClean over_files store
        → StandsForFiles (image_at S.Start) store) }
    ensures open { IfSome result (λ store. IsClean over_files store → IsOpen over_files store) }
{
    if has_one_byte(rt, path) {
        return None;
    }
    let Ok(log) = absent_log(rt, path) else {
        return None;
    };
    let bounds = Bounds {
        kept: KEPT_BYTES,
        logged: LOG_BYTES,
        seed: RandomState::new(rt).ok()?.hash_one(&0u8),
    };
    let files = files_at(rt, path, start)?;
    match database_in(rt.alloc(), files, bounds, true) {
        Ok(conn) => adopted(rt, conn, log, kept),
        Err((_want, _held)) => {
            remove_log(rt, log);
            None
        }
    }
}

/// The log and the database file at a path, which are made where they are absent and held until they
/// are let go. None for a name that means something else to SQLite than a file.
fn files_at<S: Start>(rt: &HostRuntime, path: &str, start: S) -> Option<Files<FileFrom<S>>>
    ensures log { IfSome result (λ files. IsTrue (file_is_usable S.Start files.log)) }
    ensures db { IfSome result (λ files. IsTrue (file_is_usable S.Start files.db)) }
    ensures fresh { IfSome result (λ files. IsFresh true files.log × IsFresh false files.db) }
{
    if path == ":memory:" || path.starts_with("file:") {
        return None;
    }
    match sqlite_std_file::open(rt, path, start) {
        Ok(files) => Some(files),
        Err(_) => None,
    }
}

/// Copies the log into the database file, and gives both files, which close as they are let go. None
/// where the log can't be copied: it stays beside the database file, and the next opening reads both.
pub fn close_store<S: Start>(store: Store<FileStore<FileFrom<S>>>) -> Option<Files<FileFrom<S>>>
    ensures { IfSome result (λ files. AreClean ⟦<FileFrom<S> as Disk>⟧ files.log files.db
        → IsLeftIn store files) }
{
    let conn = store.release();
    // Their clauses tell of the connection, which is in no transaction, what its tables are.
    let _settled = conn.is_autocommit();
    let _schema = conn.schema();
    match conn.close_files() {
        Ok(files) => Some(files),
        Err((_error, left)) => {
            drop(left.close());
            None
        }
    }
}
