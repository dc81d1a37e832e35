//! Runs over a store where one file stops, and what is found there after a crash.

use crate::files::{
    Contents, Stopping, StoppingStore, adopted, after_crash, closed, contents_made, files_of,
    has_stopped,
};
use sqlite::Files;
use std::alloc::Global;
use xq_atoms::Want;

/// What can be asked of a store.
pub trait Task {
    /// Asks it all in turn, and gives the store back. Says whether each answer is the task's own; a
    /// want is told as such.
    fn ask_all(
        tasks: &[Self],
        alloc: Global,
        store: StoppingStore,
    ) -> (Result<bool, Want>, StoppingStore);
}

/// A store that is adopted, and asked, while files stop.
#[derive(Clone, Copy)]
pub struct Run<'a, T: Task> {
    /// The statements of a database that no store has made, and that is adopted first.
    pub made: &'a [&'a str],
    /// What is asked before files stop.
    pub first: &'a [T],
    /// What is asked while they do.
    pub asked: &'a [T],
    /// What tells the documents as they were before that.
    pub before: &'a [T],
    /// What tells them as they are after it.
    pub after: &'a [T],
}

/// Which of the two files stops.
#[derive(Clone, Copy)]
pub enum Stop {
    OfLog,
    OfDatabase,
}

impl Stop {
    /// How many calls the log and the database answer, where the one that stops answers so many.
    fn limits(self, calls: u64) -> (u64, u64) {
        match self {
            Stop::OfLog => (calls, u64::MAX),
            Stop::OfDatabase => (u64::MAX, calls),
        }
    }
}

/// What came of a run.
#[derive(Clone, Copy)]
enum Answer {
    /// The files were not opened, or the store not adopted.
    Unopened,
    /// The answer that the request has.
    Own,
    /// Want of the store.
    Refused,
    Other,
}

/// What came of stops after each number of calls.
#[derive(Clone, Copy)]
enum Verdict {
    /// So many runs met a stop, and each left what it may.
    Right(u64),
    /// The run after so many calls was answered wrongly, or left other documents.
    Wrong(u64),
}

/// The most calls that are tried.
const MOST: u64 = 10_000;

/// What the files of a store hold after this was asked and the store was closed; what they held
/// where nothing was asked.
fn contents_after<T: Task>(
    alloc: Global,
    contents: Contents,
    tasks: &[T],
    log_pages: usize,
) -> Result<Contents, Want> {
    if tasks.is_empty() {
        return Ok(contents);
    }
    let Ok(files) = contents.files(alloc, (u64::MAX, u64::MAX)) else {
        return Err(Want::Store);
    };
    let Ok(store) = adopted(alloc, files, log_pages) else {
        return Err(Want::Store);
    };
    let (answer, store) = T::ask_all(tasks, alloc, store);
    match (answer, closed(store)) {
        (Ok(true), Some(files)) => Ok(Contents::of(alloc, &files)?),
        _ => Err(Want::Store),
    }
}

/// Opens and adopts the files, asks the tasks, and gives the answer and the files as they are left.
fn run_over<T: Task>(
    alloc: Global,
    files: Files<Stopping>,
    tasks: &[T],
    log_pages: usize,
) -> (Answer, Files<Stopping>) {
    let store = match adopted(alloc, files, log_pages) {
        Ok(store) => store,
        Err(files) => return (Answer::Unopened, files),
    };
    let (answer, store) = T::ask_all(tasks, alloc, store);
    let answer = match answer {
        Ok(true) => Answer::Own,
        Ok(false) => Answer::Other,
        Err(Want::Store) => Answer::Refused,
        Err(Want::Memory) => Answer::Other,
    };
    (answer, files_of(store))
}

/// Whether the files hold the documents before the run after a crash, and whether those after it.
fn found_after_crash<T: Task>(
    alloc: Global,
    files: Files<Stopping>,
    run: &Run<'_, T>,
    log_pages: usize,
) -> (bool, bool) {
    let Ok(store) = adopted(alloc, after_crash(files), log_pages) else {
        return (false, false);
    };
    let (before, store) = T::ask_all(run.before, alloc, store);
    let (after, store) = T::ask_all(run.after, alloc, store);
    let _files = files_of(store);
    (matches!(before, Ok(true)), matches!(after, Ok(true)))
}

/// What came of one run.
#[derive(Clone, Copy)]
struct Outcome {
    /// Whether a file failed a call, or had none left.
    has_stopped: bool,
    /// Whether the documents that are found may be there after such an answer.
    is_right: bool,
}

/// Runs over the files, and looks at them after a crash.
fn outcome_of<T: Task>(
    alloc: Global,
    files: Files<Stopping>,
    run: &Run<'_, T>,
    log_pages: usize,
) -> Outcome {
    let (answer, mut files) = run_over(alloc, files, run.asked, log_pages);
    let has_stopped = has_stopped(&mut files.log) || has_stopped(&mut files.db);
    let (is_before, is_after) = found_after_crash(alloc, files, run, log_pages);
    let is_right = match answer {
        Answer::Unopened => has_stopped && is_before,
        Answer::Own => is_after,
        Answer::Refused => has_stopped && (is_before || is_after),
        Answer::Other => false,
    };
    Outcome {
        has_stopped,
        is_right,
    }
}

/// Makes the run again and again, with a file that stops after 0 calls, after 1, and so on, until
/// none has stopped in a run.
fn verdict_of<T: Task>(
    alloc: Global,
    run: &Run<'_, T>,
    stop: Stop,
    log_pages: usize,
) -> Result<Verdict, Want> {
    let contents = contents_made(alloc, run.made, log_pages)?;
    let contents = contents_after(alloc, contents, run.first, log_pages)?;
    for calls in 0..MOST {
        let Ok(files) = contents.files(alloc, stop.limits(calls)) else {
            return Err(Want::Store);
        };
        let outcome = outcome_of(alloc, files, run, log_pages);
        if !outcome.is_right {
            return Ok(Verdict::Wrong(calls));
        }
        if !outcome.has_stopped {
            return Ok(Verdict::Right(calls));
        }
    }
    Err(Want::Store)
}

/// Makes each run with a file that stops at each of its calls in turn. Gives the place of the first
/// run that was answered wrongly or left other documents, and after how many calls; after none,
/// where it met no stop.
pub fn wrong_run<T: Task>(
    alloc: Global,
    runs: &[Run<'_, T>],
    stop: Stop,
    log_pages: usize,
) -> Result<Option<(usize, u64)>, Want> {
    for (place, run) in runs.iter().enumerate() {
        match verdict_of(alloc, run, stop, log_pages)? {
            Verdict::Right(0) => return Ok(Some((place, 0))),
            Verdict::Right(_stops) => {}
            Verdict::Wrong(calls) => return Ok(Some((place, calls))),
        }
    }
    Ok(None)
}
