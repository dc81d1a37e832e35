//! Readers and writers whose interruptions are counted.
ghost use Rattle.std.specs.Prelude.{◌≡◌, length};
ghost use Rattle.std.specs.Io.{ReadsAtMost, WritesAtMost};
ghost use Rattle.std.specs.Io.KnownBytes.{Keeps, ReadConsumes, WriteAppends};
ghost use Rattle.xq_frame.specs.Interruptions.{Counts, CountsIn};

use std::io::{Error, ErrorKind, Read, Result, Write};

/// A reader or a writer, and how many of its calls were interrupted, which no contract of std tells.
#[derive(Drop)]
pub struct Counted<T> {
    /// What reads or writes.
    pub inner: T,
    /// So many of its calls were interrupted. The count stops at 2^64 - 1.
    pub interruptions: u64,
}

impl<T> Counted<T> {
    /// No call was made yet.
    pub fn new(inner: T) -> Counted<T>
        ensures inner { result.inner ≡ inner }
        ensures none { result.interruptions ≡ 0 }
    {
        Counted {
            inner,
            interruptions: 0,
        }
    }
}

impl<R: Read> Counted<R> {
    /// One read.
    pub(crate) fn read(&mut self, buf: &mut [u8]) -> Result<usize>
        ensures bound { ReadsAtMost result buf.new }
        ensures bytes { ReadConsumes (R.remaining self.old.inner) (R.remaining self.new.inner)
            result buf.new }
        ensures counted { CountsIn result self.old.interruptions self.new.interruptions }
    {
        match self.inner.read(buf) {
            Ok(n) => Ok(n),
            Err(error) => {
                self.interruptions = one_more(&error, self.interruptions);
                Err(error)
            }
        }
    }
}

impl<W: Write> Counted<W> {
    /// One write.
    pub(crate) fn write(&mut self, bytes: &[u8]) -> Result<usize>
        ensures bound { WritesAtMost result bytes.now }
        ensures bytes { WriteAppends (W.contents self.old.inner) (W.contents self.new.inner)
            result bytes.now }
        ensures counted { CountsIn result self.old.interruptions self.new.interruptions }
    {
        match self.inner.write(bytes) {
            Ok(n) => Ok(n),
            Err(error) => {
                self.interruptions = one_more(&error, self.interruptions);
                Err(error)
            }
        }
    }

    /// One flush.
    pub(crate) fn flush(&mut self) -> Result<()>
        ensures bytes { Keeps (W.contents self.old.inner) (W.contents self.new.inner) }
        ensures counted { CountsIn result self.old.interruptions self.new.interruptions }
    {
        match self.inner.flush() {
            Ok(()) => Ok(()),
            Err(error) => {
                self.interruptions = one_more(&error, self.interruptions);
                Err(error)
            }
        }
    }
}

/// The count after a call that failed so.
fn one_more(error: &Error, interruptions: u64) -> u64
    ensures { Counts error.now interruptions result }
{
    if error.kind() == ErrorKind::Interrupted {
        interruptions.saturating_add(1)
    } else {
        interruptions
    }
}
