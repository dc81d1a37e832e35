//! The words of the command line.

use crate::tasks::{Asked, Task};
use clap::builder::ValueParser;
use clap::error::ErrorKind;
use clap::{Arg, ArgAction, Command, Error};
use std::alloc::{AllocError, Global};

/// The most megabytes that can be asked to be kept.
const MOST_MEGABYTES: u64 = 1 << 20;

/// Reads the words after the program's name: `--help`, or none, one or both of `--file PATH` with a
/// path that is not empty and `--kept MB` with a number from 1 to 1,048,576, each once.
pub fn asked(alloc: Global, words: &[&str]) -> Asked {
    let Ok(command) = command(alloc) else {
        return Asked::NoRoom;
    };
    match command.try_get_matches_from(words) {
        Ok(matches) => with_task(
            alloc,
            matches.get_str("file"),
            matches.get_one("kept").map(bytes_of),
        ),
        Err(error) => without_matches(alloc, &error),
    }
}

/// The words that the program knows.
fn command<'a>(alloc: Global) -> Result<Command<'a>, AllocError> {
    let file = Arg::new(alloc, "file")
        .long("file")
        .value_name("PATH")
        .value_parser(ValueParser::NonEmptyString)
        .action(ArgAction::Set)
        .help("Keeps the documents in this file; an absent or empty one is made a store");
    let kept = Arg::new(alloc, "kept")
        .long("kept")
        .value_name("MB")
        .value_parser(ValueParser::Unsigned(1, MOST_MEGABYTES))
        .action(ArgAction::Set)
        .help("Keeps so much of what queries read of the documents for later ones [default: 128]");
    Command::new(alloc, "xq_server")
        .about(
            "Answers the request frames of standard input over stored documents, on standard output.",
        )
        .no_binary_name(true)
        .arg(file)?
        .arg(kept)
}

/// So many megabytes, in bytes.
fn bytes_of(megabytes: u64) -> usize {
    (megabytes as usize).saturating_mul(1 << 20)
}

/// What words ask for that name this file, or none, and so many bytes to be kept, or none.
fn with_task(alloc: Global, path: Option<&str>, kept: Option<usize>) -> Asked {
    match path {
        Some(path) => match String::from_str(alloc, path) {
            Ok(path) => Asked::Serve(Task {
                file: Some(path),
                kept,
            }),
            Err(_) => Asked::NoRoom,
        },
        None => Asked::Serve(Task { file: None, kept }),
    }
}

/// What words ask for that don't match: for help, or nothing.
fn without_matches(alloc: Global, error: &Error) -> Asked {
    match error.kind() {
        ErrorKind::DisplayHelp => match error.to_string(alloc) {
            Ok(text) => Asked::Help(text),
            Err(_) => Asked::NoRoom,
        },
        ErrorKind::OutOfMemory => Asked::NoRoom,
        _ => Asked::Bad,
    }
}
