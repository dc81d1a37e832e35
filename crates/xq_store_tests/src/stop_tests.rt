//! A stop at each call of each file of a store: what a crash leaves are the documents before the
//! call of the store that was under way, or those after it, and after an answer those after it.
use crate::asserts::is_right;
use crate::calls::{Call, first_wrong};
use crate::documents::{EMPTY, LIBRARY, LONGER};
use std::alloc::Global;
use std::process::Abort;
use std::test::Fail;
use xq_atoms::Want;
use xq_stops::{Run, Stop, StoppingStore, Task, wrong_run};
use xq_store::Put;

impl Task for Call {
    fn ask_all(
        tasks: &[Call],
        alloc: Global,
        store: StoppingStore,
    ) -> (Result<bool, Want>, StoppingStore) {
        let mut store = store;
        match first_wrong(alloc, &mut store, tasks) {
            Ok(wrong) => (Ok(wrong == 0), store),
            Err(want) => (Err(want), store),
        }
    }
}

/// No document.
const NOTHING: &[Call] = &[Call::List(&[])];

/// A document that no call after it names.
const OTHER: &[Call] = &[Call::List(&["a/1"]), Call::Load("a/1", Some(LIBRARY))];

/// That document, and the library under `b`.
const LIBRARY_TOO: &[Call] = &[
    Call::List(&["a/1", "b"]),
    Call::Load("a/1", Some(LIBRARY)),
    Call::Load("b", Some(LIBRARY)),
];

/// That document, and an empty one under `b`.
const EMPTY_TOO: &[Call] = &[
    Call::List(&["a/1", "b"]),
    Call::Load("a/1", Some(LIBRARY)),
    Call::Load("b", Some(EMPTY)),
];

/// That document, and under `b` the library with a text changed and a row more.
const LONGER_TOO: &[Call] = &[
    Call::List(&["a/1", "b"]),
    Call::Load("a/1", Some(LIBRARY)),
    Call::Load("b", Some(LONGER)),
];

const PUT_OTHER: Call = Call::Put("a/1", LIBRARY, Put::Stored);

const PUT_LIBRARY: Call = Call::Put("b", LIBRARY, Put::Stored);

const LAYOUT: &str = "CREATE TABLE layout (edition INTEGER NOT NULL) STRICT";

const NODE: &str =
    "CREATE TABLE node (address TEXT NOT NULL, pre INTEGER NOT NULL, size INTEGER NOT NULL, level INTEGER NOT NULL, kind INTEGER NOT NULL, name TEXT NOT NULL, value TEXT NOT NULL, PRIMARY KEY (address, pre)) STRICT";

const ONE: &str = "INSERT INTO layout VALUES (1)";

/// The rows of the document of two books, under `b`.
const BOOKS: &str =
    "INSERT INTO node VALUES ('b', 0, 7, 0, 0, '', ''), ('b', 1, 6, 1, 1, 'lib', ''), ('b', 2, 2, 2, 1, 'book', ''), ('b', 3, 0, 3, 2, 'id', '1'), ('b', 4, 0, 3, 3, '', 'A'), ('b', 5, 2, 2, 1, 'book', ''), ('b', 6, 0, 3, 2, 'id', '2'), ('b', 7, 0, 3, 3, '', 'B')";

/// The row of an empty document under `a/1`, in the table of edition 1.
const EMPTY_ROW: &str = "INSERT INTO node VALUES ('a/1', 0, 0, 0, 0, '', '')";

/// That document, and the library under `b`.
const CARRIED: &[Call] = &[
    Call::List(&["a/1", "b"]),
    Call::Load("a/1", Some(EMPTY)),
    Call::Load("b", Some(LIBRARY)),
];

/// An adoption, a first put, a replacement, a drop, an adoption of tables of edition 1, and a put
/// over rows that are kept: of the same rows, and then of others.
const RUNS: [Run<'static, Call>; 6] = [
    Run {
        made: &[],
        first: &[],
        asked: &[],
        before: NOTHING,
        after: NOTHING,
    },
    Run {
        made: &[],
        first: &[PUT_OTHER],
        asked: &[PUT_LIBRARY],
        before: OTHER,
        after: LIBRARY_TOO,
    },
    Run {
        made: &[],
        first: &[PUT_OTHER, PUT_LIBRARY],
        asked: &[Call::Put("b", EMPTY, Put::Replaced)],
        before: LIBRARY_TOO,
        after: EMPTY_TOO,
    },
    Run {
        made: &[],
        first: &[PUT_OTHER, PUT_LIBRARY],
        asked: &[Call::Drop("b", true)],
        before: LIBRARY_TOO,
        after: OTHER,
    },
    Run {
        made: &[LAYOUT, NODE, ONE, BOOKS, EMPTY_ROW],
        first: &[],
        asked: &[],
        before: CARRIED,
        after: CARRIED,
    },
    Run {
        made: &[],
        first: &[PUT_OTHER, PUT_LIBRARY],
        asked: &[
            Call::HandOver("b", LIBRARY, Put::Replaced),
            Call::HandOver("b", LONGER, Put::Replaced),
        ],
        before: LIBRARY_TOO,
        after: LONGER_TOO,
    },
];

/// Makes each run, with a file that stops at each of its calls in turn, and checks that none is
/// answered wrongly or leaves other documents. A log of one page is copied into the database at
/// each commit.
fn check_stops(rt: &(impl Abort + AllocGlobal), stop: Stop, log_pages: usize) -> Result<(), Fail> {
    let wrong = wrong_run(rt.alloc(), &RUNS, stop, log_pages)?;
    is_right(rt, wrong.is_none(), log_pages);
    Ok(())
}

/// The log of the file stops at each of its calls.
#[test]
fn of_the_log(rt: HostRuntime) -> Result<(), Fail> {
    check_stops(&rt, Stop::OfLog, 128)
}

/// The database's file stops at each of its calls.
#[test]
fn of_the_database(rt: HostRuntime) -> Result<(), Fail> {
    check_stops(&rt, Stop::OfDatabase, 128)
}

/// The log stops at each of its calls, where it is copied into the database at each commit.
#[test]
fn of_a_short_log(rt: HostRuntime) -> Result<(), Fail> {
    check_stops(&rt, Stop::OfLog, 1)
}

/// The database's file stops at each of its calls, where the log is copied at each commit.
#[test]
fn of_the_database_under_a_short_log(rt: HostRuntime) -> Result<(), Fail> {
    check_stops(&rt, Stop::OfDatabase, 1)
}
