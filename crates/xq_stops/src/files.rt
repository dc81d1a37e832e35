//! Two files that stop, and stores on them: opened, adopted, and left as a process that ends at
//! once leaves them.

use sqlite::{Connection, FileStore, Files, Options};
use sqlite_disk::{Crash, Disk, Fuse, Memory};
use std::alloc::{AllocError, Global};
use std::io;
use xq_atoms::Want;
use xq_store::Store;

/// A file that answers so many calls, and fails each one after.
pub type Stopping = Fuse<Memory>;

/// A database on a log and a file; one of the two may stop.
type Base = Connection<FileStore<Stopping>>;

/// A store on a log and a database; one of the two may stop.
pub type StoppingStore = Store<FileStore<Stopping>>;

/// A log of so many pages is copied into the database. Few pages are kept, so that the files are
/// asked for them.
fn options(log_pages: usize) -> Options {
    Options {
        cache_pages: 16,
        spill_pages: 16,
        checkpoint_frames: log_pages,
        seed: 7,
    }
}

/// A file that holds these bytes, synced, and answers so many calls.
fn file_with(alloc: Global, bytes: &[u8], calls: u64) -> io::Result<Stopping> {
    let mut file = Memory::new(alloc);
    file.write_at(0, bytes)?;
    file.sync()?;
    Ok(Fuse::new(file, calls))
}

/// What a log and a database hold.
#[derive(Drop)]
pub(crate) struct Contents {
    pub(crate) log: Vec<u8>,
    pub(crate) db: Vec<u8>,
}

impl Contents {
    /// What these files hold.
    pub(crate) fn of(alloc: Global, files: &Files<Stopping>) -> Result<Contents, AllocError> {
        let mut log = Vec::new(alloc);
        log.extend_from_slice(files.log.inner().bytes())?;
        let mut db = Vec::new(alloc);
        db.extend_from_slice(files.db.inner().bytes())?;
        Ok(Contents { log, db })
    }

    /// Files that hold this, synced, and answer so many calls.
    pub(crate) fn files(
        &self,
        alloc: Global,
        (log, db): (u64, u64),
    ) -> io::Result<Files<Stopping>> {
        Ok(Files {
            log: file_with(alloc, &self.log, log)?,
            db: file_with(alloc, &self.db, db)?,
        })
    }
}

/// The database in the files, or the files where they are refused.
fn opened(
    alloc: Global,
    files: Files<Stopping>,
    log_pages: usize,
) -> Result<Base, Files<Stopping>> {
    if !files.log.may_be_used() || !files.db.may_be_used() {
        return Err(files);
    }
    match Connection::open_files(alloc, files, options(log_pages)) {
        Ok(conn) => Ok(conn),
        Err((_error, left)) => Err(left.into_files()),
    }
}

/// Runs the statements in turn, and says whether each was done.
fn are_done(conn: &mut Base, statements: &[&str]) -> bool {
    for statement in statements {
        if conn.execute(statement, &[]).is_err() {
            return false;
        }
    }
    true
}

/// The files of a database that is closed, which copies its log into the database.
fn files_at_end(conn: Base) -> Option<Files<Stopping>> {
    match conn.close_files() {
        Ok(files) => Some(files),
        Err(_refused) => None,
    }
}

/// What the files of a database hold that these statements make; nothing where there are none.
pub(crate) fn contents_made(
    alloc: Global,
    statements: &[&str],
    log_pages: usize,
) -> Result<Contents, Want> {
    let nothing = Contents {
        log: Vec::new(alloc),
        db: Vec::new(alloc),
    };
    if statements.is_empty() {
        return Ok(nothing);
    }
    let Ok(files) = nothing.files(alloc, (u64::MAX, u64::MAX)) else {
        return Err(Want::Store);
    };
    let Ok(mut conn) = opened(alloc, files, log_pages) else {
        return Err(Want::Store);
    };
    let are_done = are_done(&mut conn, statements);
    match (are_done, files_at_end(conn)) {
        (true, Some(files)) => Ok(Contents::of(alloc, &files)?),
        _ => Err(Want::Store),
    }
}

/// The store in the files, or the files where they are refused.
pub(crate) fn adopted(
    alloc: Global,
    files: Files<Stopping>,
    log_pages: usize,
) -> Result<StoppingStore, Files<Stopping>> {
    let conn = match opened(alloc, files, log_pages) {
        Ok(conn) => conn,
        Err(files) => return Err(files),
    };
    if !conn.is_autocommit() {
        return Err(conn.into_store().close());
    }
    match Store::adopt(alloc, conn, None) {
        Ok(store) => Ok(store),
        Err((_fault, conn)) => Err(conn.into_store().close()),
    }
}

/// The files of a store, as its process leaves them where it ends at once.
pub(crate) fn files_of(store: StoppingStore) -> Files<Stopping> {
    store.release().into_store().close()
}

/// The files of a store that is closed.
pub(crate) fn closed(store: StoppingStore) -> Option<Files<Stopping>> {
    files_at_end(store.release())
}

/// Has both files lose what was not synced, and answer all calls from now on.
pub(crate) fn after_crash(files: Files<Stopping>) -> Files<Stopping> {
    let mut files = files;
    files.log.crash();
    files.db.crash();
    files
}

/// Whether a file has failed a call, or fails the next.
pub(crate) fn has_stopped(file: &mut Stopping) -> bool {
    !file.may_be_used() || file.len().is_err()
}
