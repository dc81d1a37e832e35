//! A view of kept rows reads none by a statement: it answers where the disk answers nothing any
//! more, so that a statement that reads rows is refused.

use crate::asserts::is_right;
use crate::calls::Call;
use crate::documents::LIBRARY;
use crate::stores::adopt;
use crate::views::{Step, Task, seen, stepped};
use sqlite::{Alter, Connection, FileStore, Files, Options};
use sqlite_disk::Fuse;
use std::alloc::Global;
use xq_atoms::Want;
use xq_memory_disk::MemoryDisk;
use xq_samples::scans::{From, SCANS, Scan, To};
use xq_store::{Put, Store};
use xq_trees::Axis;

/// A disk in memory that answers so many calls, and then none.
type Dying = Fuse<MemoryDisk>;

/// How many calls of each of two disks are tried.
const MOST: u64 = 10_000;

/// Each row of the library is read.
const EACH_ROW: Scan = (
    From::At(&[0]),
    Axis::DescendantOrSelf,
    To::At(&[0, 1, 2, 4, 5, 7]),
    8,
);

/// An empty database on disks that answer so many calls. It keeps one page alone, so that a
/// statement has to ask the disk.
fn opened(alloc: Global, log: u64, db: u64) -> Result<Connection<FileStore<Dying>>, Want> {
    let files = Files {
        log: Fuse::new(MemoryDisk::new(alloc), log),
        db: Fuse::new(MemoryDisk::new(alloc), db),
    };
    let options = Options {
        cache_pages: 1,
        spill_pages: 1,
        checkpoint_frames: 128,
        seed: 7,
    };
    match Connection::open_files(alloc, files, options) {
        Ok(conn) => Ok(conn),
        Err(_refused) => Err(Want::Store),
    }
}

/// The library is stored, and a view reads each of its rows.
const FIRST: Step = (
    &[Call::Put("b", LIBRARY, Put::Stored)],
    Task::Step(EACH_ROW),
);

/// A store over an empty database after the first step, and whether that is as it says.
fn read_over<S: Alter + Drop>(
    alloc: Global,
    conn: Connection<S>,
) -> Result<(Store<S>, bool), Want> {
    match adopt(alloc, conn) {
        Ok(store) => stepped(alloc, store, FIRST),
        Err(_refused) => Err(Want::Store),
    }
}

/// Whether the rows are stored and read once over an empty database.
fn is_read_over<S: Alter + Drop>(alloc: Global, conn: Connection<S>) -> bool {
    matches!(read_over(alloc, conn), Ok((_, true)))
}

/// Whether the rows are stored and read once on disks that answer so many calls.
fn is_read(alloc: Global, log: u64, db: u64) -> bool {
    match opened(alloc, log, db) {
        Ok(conn) => is_read_over(alloc, conn),
        Err(_want) => false,
    }
}

/// The fewest calls of the log with which the rows are stored and read once, or `MOST`.
fn fewest_of_log(alloc: Global) -> u64 {
    for log in 0..MOST {
        if is_read(alloc, log, u64::MAX) {
            return log;
        }
    }
    MOST
}

/// The fewest calls of the database with which the rows are stored and read once, where the log
/// answers so many; or `MOST`.
fn fewest_of_db(alloc: Global, log: u64) -> u64 {
    for db in 0..MOST {
        if is_read(alloc, log, db) {
            return db;
        }
    }
    MOST
}

/// Whether each step is made over the rows that were read, and a statement is refused then.
fn reads_kept_rows<S: Alter + Drop>(alloc: Global, conn: Connection<S>) -> Result<bool, Want> {
    let (mut store, mut is_right) = read_over(alloc, conn)?;
    for scan in &SCANS {
        let (after, is_made) = stepped(alloc, store, (&[], Task::Step(*scan)))?;
        store = after;
        is_right = is_right && is_made;
    }
    let last = seen(alloc, store, Task::Statement);
    Ok(is_right && matches!(last, Err(Want::Store)))
}

/// With a call less the first reading would be refused, so that after it the disks answer no more.
#[test]
fn kept_rows_are_read_from_no_disk(rt: HostRuntime) -> Result<(), Want> {
    let alloc = rt.alloc();
    let log = fewest_of_log(alloc);
    let db = fewest_of_db(alloc, log);
    is_right(&rt, log < MOST && db < MOST, 0);
    is_right(&rt, reads_kept_rows(alloc, opened(alloc, log, db)?)?, 1);
    Ok(())
}
