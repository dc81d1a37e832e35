//! Readers and writers that follow a script: they give and take pieces, are interrupted, and
//! fail.

use std::io::{self, Error, ErrorKind, Read, Write};

/// A reader of known bytes.
#[derive(Drop)]
pub struct Source<'a> {
    /// What it has left.
    pub bytes: &'a [u8],
    /// So many reads are interrupted first.
    pub interruptions: u32,
    /// So many more are each time that nine bytes were given: a request for all addresses.
    pub again: u32,
    /// Whether a read after the last byte fails. It answers 0 otherwise.
    pub fails: bool,
}

impl Read for Source<'_> {
    fn read(&mut self, buf: &mut [u8]) -> io::Result<usize> {
        if self.interruptions > 0 {
            self.interruptions -= 1;
            return Err(Error::from(ErrorKind::Interrupted));
        }
        if self.bytes.is_empty() && self.fails {
            return Err(Error::from(ErrorKind::Other));
        }
        let n = self.bytes.len().min(buf.len());
        buf[..n].copy_from_slice(&self.bytes[..n]);
        self.bytes = &self.bytes[n..];
        if self.bytes.len() % 9 == 0 {
            self.interruptions = self.again;
        }
        Ok(n)
    }
}

/// A writer that keeps what it took.
#[derive(Drop)]
pub struct Sink {
    pub taken: Vec<u8>,
    /// The most that a write takes.
    pub piece: usize,
    /// How much it takes in all. A write with no room left fails.
    pub room: usize,
    /// So many writes and flushes are interrupted first.
    pub interruptions: u32,
    /// The flushes that succeeded.
    pub flushes: u32,
    /// Whether each flush fails.
    pub flush_fails: bool,
}

impl Sink {
    /// Whether this call is interrupted; one interruption fewer is left.
    fn interrupted(&mut self) -> bool {
        let interrupted = self.interruptions > 0;
        self.interruptions = self.interruptions.saturating_sub(1);
        interrupted
    }
}

impl Write for Sink {
    fn write(&mut self, buf: &[u8]) -> io::Result<usize> {
        if self.interrupted() {
            return Err(Error::from(ErrorKind::Interrupted));
        }
        if self.room == 0 {
            return Err(Error::from(ErrorKind::BrokenPipe));
        }
        let n = self.piece.min(self.room).min(buf.len());
        self.taken.extend_from_slice(&buf[..n])?;
        self.room -= n;
        Ok(n)
    }

    fn flush(&mut self) -> io::Result<()> {
        if self.interrupted() {
            return Err(Error::from(ErrorKind::Interrupted));
        }
        if self.flush_fails {
            return Err(Error::from(ErrorKind::Other));
        }
        self.flushes = self.flushes.wrapping_add(1);
        Ok(())
    }
}
