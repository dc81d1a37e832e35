//! What an opening looks at beside the database, and what it takes away again.

use std::alloc::AllocError;
use std::fs;

/// A log that is shorter holds no page.
const SHORTEST_PAGE: u64 = 512;

/// Whether the file is one byte long. The engine takes such a file for an empty one, as SQLite
/// does, and would write over it.
pub fn has_one_byte(rt: &HostRuntime, path: &str) -> bool {
    match fs::metadata(rt, path) {
        Ok(file) => file.len() == 1,
        Err(_) => false,
    }
}

/// The path of the log that belongs to the file, where no log is there.
pub fn absent_log(rt: &HostRuntime, path: &str) -> Result<Option<String>, AllocError> {
    let Ok(real) = fs::canonicalize(rt, path) else {
        return Ok(None);
    };
    let log = format!(in rt.alloc(); "{}-wal", real.as_str())?;
    match fs::exists(rt, log.as_str()) {
        Ok(false) => Ok(Some(log)),
        _ => Ok(None),
    }
}

/// Removes the log that an opening left beside a file that is refused. The file is still held, so
/// no other program has made that log since, and one that may hold a page stays.
pub fn remove_log(rt: &HostRuntime, log: Option<String>) {
    let Some(log) = log else {
        return;
    };
    if let Ok(found) = fs::metadata(rt, log.as_str())
        && found.len() < SHORTEST_PAGE
    {
        let _ = fs::remove_file(rt, log.as_str());
    }
}
