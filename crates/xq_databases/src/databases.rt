//! The database in a log and a file: opened, or made where there is none.
//!
//! The engine writes a page whole at each row that goes into it, so small pages are written faster;
//! and what it keeps of them is told in bytes here, whatever their size.
ghost use Rattle.std.specs.Prelude.{◌≡◌, IfOk, IsTrue, []};
ghost use Rattle.sqlite_wal.specs.Reads.{AreClean};
ghost use Rattle.sqlite.specs.Effect.{IsDatabase};
ghost use Rattle.sqlite.specs.Files.{IsEmpty, file_state, image_of};
ghost use Rattle.sqlite.specs.State.{HasCleanDisk};
ghost use Rattle.sqlite_store.specs.Unopened.{files_of, wanted_by};
ghost use Rattle.xq_databases.specs.Opened.{IsFoundIn};

use sqlite::{Connection, FileStore, Files, Leftover, Options};
use sqlite_disk::Disk;
use sqlite_pager::{PageSize, Pager};
use sqlite_pool::probe_blank;
use sqlite_store::{OpenError, Unopened};
use sqlite_wal::probe_page_size;
use std::alloc::{AllocFailed, Global};
use xq_atoms::Want;
use xq_tables::Refusal;

/// How many bytes a page of a new database has.
const NEW_PAGE: usize = 1024;

/// What the engine keeps of a database, in bytes of its pages.
#[derive(Clone, Copy)]
pub(crate) struct Bounds {
    /// Of the pages that were read; and of those that were written, before they go to the log.
    pub(crate) kept: usize,
    /// Of the pages in the log, before it is copied into the database.
    pub(crate) logged: usize,
    /// A number for the salts of the log.
    pub(crate) seed: u64,
}

impl Bounds {
    /// The same in pages of this size.
    fn in_pages(self, size: PageSize) -> Options {
        let bytes = size.bytes();
        Options {
            cache_pages: self.kept / bytes,
            spill_pages: self.kept / bytes,
            checkpoint_frames: self.logged / bytes,
            seed: self.seed,
        }
    }
}

/// The database in two files, and a new one without a table where they hold none yet, of pages that
/// end in a sum if that is asked for. A refusal comes with what is left of the files, which are held.
pub(crate) fn database_in<D: Disk + Drop>(
    alloc: Global,
    mut files: Files<D>,
    bounds: Bounds,
    new_has_sums: bool,
) -> Result<Connection<FileStore<D>>, (Want, Leftover<D>)>
    requires log { IsTrue (D.Disk.is_usable files.log) }
    requires db { IsTrue (D.Disk.is_usable files.db) }
    ensures { IfOk result (λ conn. HasCleanDisk (file_state conn)
        → IsFoundIn new_has_sums (image_of D.Disk files) (file_state conn).now) }
{
    let new_size = PageSize::new(NEW_PAGE).unwrap();
    match probe_blank(alloc, &mut files, new_size, new_has_sums) {
        Ok(true) => made_in(alloc, files, new_size, bounds, new_has_sums),
        Ok(false) => opened_in(alloc, files, bounds, new_has_sums),
        Err(error) => Err((want_of_probe(&error), Leftover::Files(files))),
    }
}

/// The database that the files hold, whatever the size of its pages.
fn opened_in<D: Disk + Drop>(
    alloc: Global,
    mut files: Files<D>,
    bounds: Bounds,
    new_has_sums: bool,
) -> Result<Connection<FileStore<D>>, (Want, Leftover<D>)>
    requires log { IsTrue (D.Disk.is_usable files.log) }
    requires db { IsTrue (D.Disk.is_usable files.db) }
    ensures { IfOk result (λ conn. HasCleanDisk (file_state conn)
        → IsFoundIn new_has_sums (image_of D.Disk files) (file_state conn).now) }
{
    let size = match probe_page_size(&mut files) {
        Ok(Some(size)) => size,
        Ok(None) => PageSize::new(NEW_PAGE).unwrap(),
        Err(_) => return Err((Want::Store, Leftover::Files(files))),
    };
    match Connection::open_files_with(alloc, files, bounds.in_pages(size), new_has_sums) {
        Ok(conn) => Ok(conn),
        Err((error, left)) => Err((Want::from(Refusal(error)), left)),
    }
}

/// What the engine begins on, before it looks at the files. Where there is no memory for it, they are
/// given back.
fn unopened<D: Disk>(
    alloc: Global,
    files: Files<D>,
    size: PageSize,
    options: Options,
    has_sums: bool,
) -> Result<Unopened<D>, Files<D>>
    ensures files { IfOk result (λ it. files_of it ≡ (files.log, files.db)) }
    ensures none { IfOk result (λ it. wanted_by it ≡ []) }
{
    let pager = match Pager::new(alloc, files, size, options) {
        Ok(pager) => pager,
        Err(AllocFailed { value }) => return Err(value),
    };
    match Unopened::with_sums(alloc, pager, &[], has_sums) {
        Ok(unopened) => Ok(unopened),
        Err(AllocFailed { value }) => Err(value.close()),
    }
}

/// A database without a table, in files that hold none.
fn made_in<D: Disk + Drop>(
    alloc: Global,
    files: Files<D>,
    size: PageSize,
    bounds: Bounds,
    has_sums: bool,
) -> Result<Connection<FileStore<D>>, (Want, Leftover<D>)>
    requires log { IsTrue (D.Disk.is_usable files.log) }
    requires db { IsTrue (D.Disk.is_usable files.db) }
    ensures clean { IfOk result (λ conn. HasCleanDisk (file_state conn)
        → AreClean D.Disk files.log files.db) }
    ensures made { IfOk result (λ conn. HasCleanDisk (file_state conn)
        → IsDatabase (file_state conn).now × IsEmpty (file_state conn).now.trees) }
{
    let fresh = match unopened(alloc, files, size, bounds.in_pages(size), has_sums) {
        Ok(fresh) => fresh,
        Err(files) => return Err((Want::Memory, Leftover::Files(files))),
    };
    let store = match fresh.create() {
        Ok(store) => store,
        Err((error, left)) => return Err((want_of_making(error), Leftover::Unopened(left))),
    };
    match Connection::over(alloc, store) {
        Ok(conn) => Ok(conn),
        Err((error, store)) => Err((Want::from(Refusal(error)), Leftover::Store(store))),
    }
}

/// Why the files could not be looked at.
fn want_of_probe(error: &sqlite_wal::Error) -> Want {
    match error {
        sqlite_wal::Error::OutOfMemory => Want::Memory,
        _ => Want::Store,
    }
}

/// Why a database could not be made.
fn want_of_making(error: OpenError) -> Want {
    match error {
        OpenError::OutOfMemory => Want::Memory,
        OpenError::Io | OpenError::Full | OpenError::Refused => Want::Store,
    }
}
