//! The program: answers the frames of its standard input, as they come, over a database in
//! memory or in a file, and writes each reply to its standard output.
#![tactic(auto)]

mod files;

use files::serve_file;
use sqlite::Unknown;
use std::alloc::AllocError;
use std::io::{BufReader, ErrorKind, Write};
use std::process::ExitCode;
use std::rt::Env;
use std::{env, io};
use xq_command::endings::outcome;
use xq_command::tasks::{Asked, Task};
use xq_command::words::asked;
use xq_databases::MemoryStore;
use xq_frame::Counted;
use xq_server::{End, Server};

/// The program ends once it has answered so many frames.
const MAX_FRAMES: u64 = 1_000_000;

/// How the program ends where there is no store to serve, whatever the cause.
const CANNOT_OPEN: (u8, &str) = (1, "xq_server: cannot open the store");

/// Does the program's work, and says on standard error how it ended where that wants a line.
fn main(rt: HostRuntime) -> ExitCode {
    let (status, line) = conclusion(&rt);
    if !line.is_empty() {
        let _ = eprintln!(rt; "{line}");
    }
    ExitCode::from(status)
}

/// Does the program's work, and gives its exit status and its line on standard error.
fn conclusion(rt: &HostRuntime) -> (u8, &'static str) {
    match asked_by_arguments(rt) {
        Asked::Serve(Task { file, kept }) => match file {
            Some(path) => serve_in_file(rt, path.as_str(), kept),
            None => serve_in_memory(rt, kept),
        },
        Asked::Help(text) => outcome(print_help(rt, text.as_str())),
        Asked::Bad => (2, "xq_server: bad command line"),
        Asked::NoRoom => outcome(End::NoRoom),
    }
}

/// What the words of the command line ask for.
fn asked_by_arguments<R: Env + AllocGlobal>(rt: &R) -> Asked {
    let arguments = match arguments(rt) {
        Ok(arguments) => arguments,
        Err(fault) => return fault,
    };
    let words: Result<Vec<&str>, AllocError> = arguments
        .iter()
        .map(|word| word.as_str())
        .collect(rt.alloc());
    match words {
        Ok(words) => asked(rt.alloc(), words.as_slice()),
        Err(_) => Asked::NoRoom,
    }
}

/// The words after the program's name. One that is no UTF-8 is none that the program knows.
fn arguments<R: Env + AllocGlobal>(rt: &R) -> Result<Vec<String>, Asked> {
    match env::args(rt) {
        Ok(all) => match all.skip(1).collect(rt.alloc()) {
            Ok(words) => Ok(words),
            Err(_) => Err(Asked::NoRoom),
        },
        Err(error) if error.kind() == ErrorKind::OutOfMemory => Err(Asked::NoRoom),
        Err(_) => Err(Asked::Bad),
    }
}

/// Prints the text on standard output.
fn print_help<R: Print>(rt: &R, text: &str) -> End {
    match io::writer(rt).write_all(text.as_bytes()) {
        Ok(()) => End::Finished,
        Err(_) => End::WriteFault,
    }
}

/// Serves a database in memory: the exit status, and the line on standard error.
fn serve_in_memory<R: Input + Print + AllocGlobal>(
    rt: &R,
    kept: Option<usize>,
) -> (u8, &'static str) {
    let Ok(memory) = MemoryStore::new(rt.alloc()) else {
        return CANNOT_OPEN;
    };
    let Ok(reader) = BufReader::new(rt.alloc(), rt.reader()) else {
        return outcome(End::NoRoom);
    };
    let store = memory.into_store().keeping(kept);
    let mut server = Server::new(rt.alloc(), store);
    let (mut reader, mut writer) = (Counted::new(reader), Counted::new(io::writer(rt)));
    let end = server.serve(&mut reader, &mut writer, MAX_FRAMES);
    let _ended = MemoryStore {
        store: server.into_store(),
    };
    outcome(end)
}

/// Serves the database in the file: the exit status, and the line on standard error.
fn serve_in_file(rt: &HostRuntime, path: &str, kept: Option<usize>) -> (u8, &'static str) {
    let Ok(reader) = BufReader::new(rt.alloc(), rt.reader()) else {
        return outcome(End::NoRoom);
    };
    let (mut reader, mut writer) = (Counted::new(reader), Counted::new(io::writer(rt)));
    match serve_file(
        rt,
        path,
        Unknown,
        kept,
        &mut reader,
        &mut writer,
        MAX_FRAMES,
    ) {
        Some((end, _files)) => outcome(end),
        None => CANNOT_OPEN,
    }
}
