//! Bytes given to a writer.
ghost use Rattle.std.specs.Prelude.{◌≡◌, ◌≤◌, OnOk, OnErr};
ghost use Rattle.std.specs.Io.KnownBytes.{Appends, Keeps};
ghost use Rattle.xq_frame.specs.Interruptions.{IsBorne};
ghost use Rattle.xq_frame.specs.Sending.{GivesFront};

use crate::counted::Counted;
use crate::tries::Tries;
use std::io::{Error, ErrorKind, Result, Write};

/// Gives the bytes to the writer, in as many pieces as it takes them, and flushes it. A write of
/// 0 bytes is an error.
/// Calls that are interrupted are made again while there are tries.
pub fn send<W: Write>(writer: &mut Counted<W>, bytes: &[u8], tries: &mut Tries) -> Result<()>
    ensures all { OnOk result
        (Appends (W.contents writer.old.inner) (W.contents writer.new.inner) bytes.now) }
    ensures front { OnErr result
        (GivesFront (W.contents writer.old.inner) (W.contents writer.new.inner) bytes.now) }
    ensures tries { tries.new.left ≤ tries.old.left }
    ensures borne { OnOk result (IsBorne 0 tries.old.left tries.new.left
        writer.old.interruptions writer.new.interruptions) }
    ensures given_up { OnErr result (IsBorne 1 tries.old.left tries.new.left
        writer.old.interruptions writer.new.interruptions) }
{
    let mut rest = bytes;
    'writes: while !rest.is_empty() {
        match writer.write(rest) {
            Ok(0) => return Err(Error::from(ErrorKind::WriteZero)),
            Ok(n) => rest = &rest[n..],
            Err(error) => {
                if !tries.allows(&error) {
                    return Err(error);
                }
            }
        }
    }
    flush(writer, tries)
}

/// Has the writer send what it holds, and tries again where that was interrupted.
fn flush<W: Write>(writer: &mut Counted<W>, tries: &mut Tries) -> Result<()>
    ensures keeps { Keeps (W.contents writer.old.inner) (W.contents writer.new.inner) }
    ensures tries { tries.new.left ≤ tries.old.left }
    ensures borne { OnOk result (IsBorne 0 tries.old.left tries.new.left
        writer.old.interruptions writer.new.interruptions) }
    ensures given_up { OnErr result (IsBorne 1 tries.old.left tries.new.left
        writer.old.interruptions writer.new.interruptions) }
{
    'flushes: loop {
        match writer.flush() {
            Ok(()) => return Ok(()),
            Err(error) => {
                if !tries.allows(&error) {
                    return Err(error);
                }
            }
        }
    }
}
