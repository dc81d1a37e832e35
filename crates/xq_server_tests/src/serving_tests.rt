//! Services by scripted readers and writers: each end, and what is told by then.

use crate::asserts::{are_bytes, ends_so};
use crate::scripts::{Sink, Source};
use crate::servers::{MemoryServer, serve_frames};
use std::alloc::Global;
use std::process::Abort;
use std::test::Fail;
use xq_server::End;

/// Three requests for all addresses.
const LISTS: &[u8] =
    b"\x00\x00\x00\x05\x00\x00\x00\x01L\x00\x00\x00\x05\x00\x00\x00\x02L\x00\x00\x00\x05\x00\x00\x00\x03L";

/// Their replies over an empty map.
const NOTHINGS: &[u8] =
    b"\x00\x00\x00\x07\x00\x00\x00\x01\x00()\x00\x00\x00\x07\x00\x00\x00\x02\x00()\x00\x00\x00\x07\x00\x00\x00\x03\x00()";

/// What a reader gives of these requests, and how: so many bytes, after so many interruptions, and
/// so many more after each request; whether it fails after the last byte.
type Reads = (usize, u32, u32, bool);

/// What a writer takes, and how: so many bytes at once, so many in all, after so many
/// interruptions; whether each flush fails.
type Writes = (usize, usize, u32, bool);

/// At most so many frames are answered, the end, how many bytes of the replies are written, how
/// many the reader has left, and how many flushes succeeded.
type Outcome = (u64, End, usize, usize, u32);

type Service = (Reads, Writes, Outcome);

const ALL: Reads = (27, 0, 0, false);

const ANY: Writes = (usize::MAX, usize::MAX, 0, false);

const MOST: u64 = 1_000_000;

const BY_THE_READER: [Service; 6] = [
    ((18, 0, 0, true), ANY, (MOST, End::ReadFault, 22, 0, 2)),
    ((20, 0, 0, true), ANY, (MOST, End::ReadFault, 22, 0, 2)),
    ((20, 0, 0, false), ANY, (MOST, End::Cut, 22, 0, 2)),
    ((24, 0, 0, false), ANY, (MOST, End::Cut, 22, 0, 2)),
    ((27, 999, 0, false), ANY, (MOST, End::Finished, 33, 0, 3)),
    ((27, 1000, 0, false), ANY, (MOST, End::ReadFault, 0, 27, 0)),
];

const BY_THE_WRITER: [Service; 4] = [
    (
        ALL,
        (1, usize::MAX, 0, false),
        (MOST, End::Finished, 33, 0, 3),
    ),
    (
        ALL,
        (usize::MAX, 15, 0, false),
        (MOST, End::WriteFault, 15, 9, 1),
    ),
    (ALL, (4, 22, 0, false), (MOST, End::WriteFault, 22, 0, 2)),
    (
        ALL,
        (0, usize::MAX, 0, false),
        (MOST, End::WriteFault, 0, 18, 0),
    ),
];

/// The interruptions of one frame are counted together: its reads, its writes and its flush.
const INTERRUPTED: [Service; 4] = [
    (
        (27, 500, 0, false),
        (usize::MAX, usize::MAX, 499, false),
        (MOST, End::Finished, 33, 0, 3),
    ),
    (
        (27, 500, 0, false),
        (usize::MAX, usize::MAX, 500, false),
        (MOST, End::WriteFault, 0, 18, 0),
    ),
    (
        ALL,
        (usize::MAX, usize::MAX, 999, false),
        (MOST, End::Finished, 33, 0, 3),
    ),
    (
        ALL,
        (usize::MAX, usize::MAX, 1000, false),
        (MOST, End::WriteFault, 0, 18, 0),
    ),
];

/// Each frame and its reply has a count of its own: 600 interruptions before each of three frames
/// are borne, and with 400 of the first reply they are one too many.
const COUNTED_ANEW: [Service; 3] = [
    ((27, 600, 600, false), ANY, (MOST, End::Finished, 33, 0, 3)),
    (
        (27, 600, 600, false),
        (usize::MAX, usize::MAX, 399, false),
        (MOST, End::Finished, 33, 0, 3),
    ),
    (
        (27, 600, 600, false),
        (usize::MAX, usize::MAX, 400, false),
        (MOST, End::WriteFault, 0, 18, 0),
    ),
];

/// Each reply is flushed, and a flush that fails ends the service.
const FLUSHED: [Service; 2] = [
    (ALL, ANY, (MOST, End::Finished, 33, 0, 3)),
    (
        ALL,
        (usize::MAX, usize::MAX, 0, true),
        (MOST, End::WriteFault, 11, 18, 0),
    ),
];

/// A reader that fails after its last byte.
const FAILING: Reads = (27, 0, 0, true);

/// The bound on frames ends the service before the next is read.
const BOUNDED: [Service; 4] = [
    (FAILING, ANY, (0, End::Bound, 0, 27, 0)),
    (FAILING, ANY, (1, End::Bound, 11, 18, 1)),
    (FAILING, ANY, (2, End::Bound, 22, 9, 2)),
    (FAILING, ANY, (3, End::Bound, 33, 0, 3)),
];

/// A length over the limit, and more.
const TOO_LONG: &[u8] = b"\x00\x10\x01\x01rest";

const LONG_REPLY: &[u8] = b"\x00\x00\x00\x0e\x00\x00\x00\x00\x01prof:LONG";

/// A length over the limit is answered, and nothing after it is read; its reply may find a fault.
const LONG: [Service; 2] = [
    ((8, 0, 0, false), ANY, (10, End::TooLong, 18, 4, 1)),
    (
        (8, 0, 0, false),
        (usize::MAX, 17, 0, false),
        (10, End::WriteFault, 17, 4, 0),
    ),
];

/// What is sent, the replies to all of it, and services that get it.
type Table = (&'static [u8], &'static [u8], &'static [Service]);

const TABLES: [Table; 7] = [
    (LISTS, NOTHINGS, &BY_THE_READER),
    (LISTS, NOTHINGS, &BY_THE_WRITER),
    (LISTS, NOTHINGS, &INTERRUPTED),
    (LISTS, NOTHINGS, &COUNTED_ANEW),
    (LISTS, NOTHINGS, &FLUSHED),
    (LISTS, NOTHINGS, &BOUNDED),
    (TOO_LONG, LONG_REPLY, &LONG),
];

/// The reader of a service.
fn source_of(sent: &'static [u8], (given, before, between, fails): Reads) -> Source<'static> {
    Source {
        bytes: sent.get(..given).unwrap_or(sent),
        interruptions: before,
        again: between,
        fails,
    }
}

/// Its writer.
fn sink_of(alloc: Global, (piece, room, held, flush_fails): Writes) -> Sink {
    Sink {
        taken: Vec::new(alloc),
        piece,
        room,
        interruptions: held,
        flushes: 0,
        flush_fails,
    }
}

/// Serves what is sent over an empty map, and checks how that ends, and what is written of the
/// replies.
fn check_service(
    rt: &(impl Abort + AllocGlobal),
    (sent, replies): (&'static [u8], &'static [u8]),
    (reads, writes, (most, end, written, left, flushes)): Service,
    row: usize,
) -> Result<(), Fail> {
    let mut memory = MemoryServer::new(rt.alloc())?;
    let mut source = source_of(sent, reads);
    let mut sink = sink_of(rt.alloc(), writes);
    let found = serve_frames(&mut memory.server, &mut source, &mut sink, most);
    ends_so(
        rt,
        (found, source.bytes.len(), sink.flushes),
        (end, left, flushes),
        row,
    );
    are_bytes(
        rt,
        sink.taken.as_slice(),
        replies.get(..written).unwrap_or(&[]),
    );
    Ok(())
}

/// Checks each of the services of a table.
fn check_table(
    rt: &(impl Abort + AllocGlobal),
    (sent, replies, services): Table,
) -> Result<(), Fail> {
    for (row, service) in services.iter().enumerate() {
        check_service(rt, (sent, replies), *service, row)?;
    }
    Ok(())
}

/// Each table of services: what was sent is answered as far as the reader and the writer allow.
#[test]
fn services(rt: HostRuntime) -> Result<(), Fail> {
    for table in &TABLES {
        check_table(&rt, *table)?;
    }
    Ok(())
}
