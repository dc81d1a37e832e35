//! A stop at each call of each file of a store that is served: the reply to the frame under way is
//! its own or wants the store, and what a crash leaves are the documents before the frame or after
//! it; after its own reply those after it.

use crate::asserts::none_is_wrong;
use crate::servers::{run_bytes, server_over, store_of};
use sqlite::Alter;
use std::alloc::{AllocError, Global};
use std::process::Abort;
use std::test::Fail;
use xq_atoms::Want;
use xq_server::{End, Server};
use xq_stops::{Run, Stop, StoppingStore, Task, wrong_run};
use xq_store::Store;

/// A request, its kind and its body, and the text of its reply, which has status 0.
#[derive(Clone, Copy)]
pub struct Row {
    kind: u8,
    body: &'static [u8],
    reply: &'static [u8],
}

/// The head of a frame or of a reply: the length, the tag 1, and the kind or the status.
fn head(kind: u8, text: &[u8]) -> [u8; 9] {
    let [_, _, _, _, a, b, c, d] = (text.len() as u64 + 5).to_be_bytes();
    [a, b, c, d, 0, 0, 0, 1, kind]
}

/// The frame of a request.
fn frame(alloc: Global, kind: u8, body: &[u8]) -> Result<Vec<u8>, AllocError> {
    let mut bytes = Vec::new(alloc);
    bytes.extend_from_slice(&head(kind, body))?;
    bytes.extend_from_slice(body)?;
    Ok(bytes)
}

/// Whether the bytes are one reply with this status and text.
fn is_reply(bytes: &[u8], (status, text): (u8, &[u8])) -> bool {
    let head = head(status, text);
    bytes.get(..9) == Some(head.as_slice()) && bytes.get(9..) == Some(text)
}

/// Sends a request, and says whether the reply is its own. One that wants the store is told as that
/// want.
fn send<S: Alter + Drop>(alloc: Global, server: &mut Server<S>, row: &Row) -> Result<bool, Want> {
    let mut out = Vec::new(alloc);
    let end = run_bytes(server, &frame(alloc, row.kind, row.body)?, &mut out);
    if is_reply(&out, (2, b"store")) {
        return Err(Want::Store);
    }
    Ok(end == End::Finished && is_reply(&out, (0, row.reply)))
}

/// Sends the requests in turn, up to the first whose reply is not its own.
fn send_all<S: Alter + Drop>(
    alloc: Global,
    server: &mut Server<S>,
    rows: &[Row],
) -> Result<bool, Want> {
    for row in rows {
        if !send(alloc, server, row)? {
            return Ok(false);
        }
    }
    Ok(true)
}

/// What becomes of the requests, sent in turn to a server over the store, and the store again.
fn send_to_store<S: Alter + Drop>(
    alloc: Global,
    store: Store<S>,
    rows: &[Row],
) -> (Result<bool, Want>, Store<S>) {
    let mut server = server_over(alloc, store);
    let are_own = send_all(alloc, &mut server, rows);
    (are_own, store_of(server))
}

impl Task for Row {
    fn ask_all(
        tasks: &[Row],
        alloc: Global,
        store: StoppingStore,
    ) -> (Result<bool, Want>, StoppingStore) {
        send_to_store(alloc, store, tasks)
    }
}

const LIBRARY: &[u8] =
    b"document {element lib {element book {attribute id {\"1\"}, text {\"A\"}}, element book {attribute id {\"2\"}, text {\"B\"}}}}";

/// The store of a library of two books under `b`.
const PUT_B: &[u8] =
    b"\x01bdocument {element lib {element book {attribute id {\"1\"}, text {\"A\"}}, element book {attribute id {\"2\"}, text {\"B\"}}}}";

const NOTE: &[u8] = b"document {element note {text {\"kept\"}}}";

/// The store of a document that no request after it names.
const PUT_NOTE: Row = Row {
    kind: b'S',
    body: b"\x01adocument {element note {text {\"kept\"}}}",
    reply: b"stored",
};

const PUT_LIBRARY: Row = Row {
    kind: b'S',
    body: PUT_B,
    reply: b"stored",
};

const NOTE_IS_THERE: Row = Row {
    kind: b'Q',
    body: b"doc(\"a\")",
    reply: NOTE,
};

/// Both addresses.
const BOTH: Row = Row {
    kind: b'L',
    body: b"",
    reply: b"\"a\", \"b\"",
};

/// The address of the note alone.
const NOTE_ALONE: Row = Row {
    kind: b'L',
    body: b"",
    reply: b"\"a\"",
};

const LIBRARY_IS_THERE: Row = Row {
    kind: b'Q',
    body: b"doc(\"b\")",
    reply: LIBRARY,
};

const EMPTY_IS_THERE: Row = Row {
    kind: b'Q',
    body: b"doc(\"b\")",
    reply: b"document {}",
};

/// The library is replaced by an empty document.
const PUT_EMPTY: Row = Row {
    kind: b'S',
    body: b"\x01bdocument {}",
    reply: b"replaced",
};

const DROP_LIBRARY: Row = Row {
    kind: b'D',
    body: b"b",
    reply: b"dropped",
};

/// The note alone.
const ALONE: &[Row] = &[NOTE_IS_THERE, NOTE_ALONE];

/// The note, and the library under `b`.
const LIBRARY_TOO: &[Row] = &[NOTE_IS_THERE, BOTH, LIBRARY_IS_THERE];

/// The note, and an empty document under `b`.
const EMPTY_TOO: &[Row] = &[NOTE_IS_THERE, BOTH, EMPTY_IS_THERE];

/// A first store, a replacement and a drop.
const RUNS: [Run<'static, Row>; 3] = [
    Run {
        made: &[],
        first: &[PUT_NOTE],
        asked: &[PUT_LIBRARY],
        before: ALONE,
        after: LIBRARY_TOO,
    },
    Run {
        made: &[],
        first: &[PUT_NOTE, PUT_LIBRARY],
        asked: &[PUT_EMPTY],
        before: LIBRARY_TOO,
        after: EMPTY_TOO,
    },
    Run {
        made: &[],
        first: &[PUT_NOTE, PUT_LIBRARY],
        asked: &[DROP_LIBRARY],
        before: LIBRARY_TOO,
        after: ALONE,
    },
];

/// Makes each run, with a file that stops at each of its calls in turn, and checks that none is
/// answered wrongly or leaves other documents. A log of one page is copied into the database at
/// each commit.
fn check_stops(rt: &(impl Abort + AllocGlobal), stop: Stop, log_pages: usize) -> Result<(), Fail> {
    let wrong = wrong_run(rt.alloc(), &RUNS, stop, log_pages)?;
    none_is_wrong(rt, wrong, log_pages);
    Ok(())
}

/// The log of the file stops at each of its calls.
#[test]
fn of_the_log(rt: HostRuntime) -> Result<(), Fail> {
    check_stops(&rt, Stop::OfLog, 128)
}

/// The database's file stops at each of its calls.
#[test]
fn of_the_database(rt: HostRuntime) -> Result<(), Fail> {
    check_stops(&rt, Stop::OfDatabase, 128)
}

/// The log stops at each of its calls, where it is copied into the database at each commit.
#[test]
fn of_a_short_log(rt: HostRuntime) -> Result<(), Fail> {
    check_stops(&rt, Stop::OfLog, 1)
}

/// The database's file stops at each of its calls, where the log is copied at each commit.
#[test]
fn of_the_database_under_a_short_log(rt: HostRuntime) -> Result<(), Fail> {
    check_stops(&rt, Stop::OfDatabase, 1)
}
