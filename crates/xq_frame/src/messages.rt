//! The message of one frame, taken from a reader.
ghost use Rattle.std.specs.Prelude.{◌≡◌, ◌≤◌, ℕ, List};
ghost use Rattle.std.specs.Io.KnownBytes.{Consumes};
ghost use Rattle.xq_frame.specs.Interruptions.{IsBorne, given_up};
ghost use Rattle.xq_frame.specs.Taking.{Takes};
ghost use Rattle.xq_frame.specs.private.Filling.{Fills, unfilled};

use crate::counted::Counted;
use crate::frames::{MAX_MESSAGE, number_at_start};
use crate::tries::Tries;
use std::alloc::Global;
use std::io::Read;

/// What a reader gave for one frame.
#[derive(Drop)]
pub enum Taken {
    /// A whole frame, by its message.
    Message(Vec<u8>),
    /// No byte: the input is at its end.
    End,
    /// A part of a frame, after which the input is at its end.
    Cut,
    /// A length over the limit; nothing after it was taken.
    TooLong,
    /// Less than a frame, after which the reader failed, or was interrupted too often.
    Fault,
    /// A length, for whose message there is no room; nothing after it was taken.
    NoRoom,
}

/// Takes the message of the next frame, in as many pieces as the reader gives it.
/// Its reads that are interrupted are made again while there are tries.
pub fn take_message<R: Read>(alloc: Global, reader: &mut Counted<R>, tries: &mut Tries) -> Taken
    ensures taken { (taken : List ℕ)
        × Consumes (R.remaining reader.old.inner) (R.remaining reader.new.inner) taken
        × Takes result taken (R.remaining reader.new.inner) }
    ensures tries { tries.new.left ≤ tries.old.left }
    ensures borne { IsBorne (given_up result) tries.old.left tries.new.left
        reader.old.interruptions reader.new.interruptions }
{
    let mut head = [0; 4];
    match fill(reader, &mut head, tries) {
        Filled::Ended(0) => return Taken::End,
        Filled::Ended(_) => return Taken::Cut,
        Filled::Fault(_) => return Taken::Fault,
        Filled::Full => {}
    }
    let length = number_at_start(&head) as usize;
    if length > MAX_MESSAGE {
        return Taken::TooLong;
    }
    let mut message = Vec::new(alloc);
    let Ok(()) = message.resize(length, 0) else {
        return Taken::NoRoom;
    };
    match fill(reader, message.as_mut_slice(), tries) {
        Filled::Full => Taken::Message(message),
        Filled::Ended(_) => Taken::Cut,
        Filled::Fault(_) => Taken::Fault,
    }
}

/// How a buffer was filled.
#[derive(Clone, Copy)]
enum Filled {
    /// To its end.
    Full,
    /// So many bytes of it, and then the input ended.
    Ended(usize),
    /// So many bytes of it, and then the reader failed, or was interrupted too often.
    Fault(usize),
}

/// Fills the buffer, by as many reads as it takes.
fn fill<R: Read>(reader: &mut Counted<R>, buf: &mut [u8], tries: &mut Tries) -> Filled
    ensures filled { Fills (R.remaining reader.old.inner) (R.remaining reader.new.inner)
        buf.new result }
    ensures tries { tries.new.left ≤ tries.old.left }
    ensures borne { IsBorne (unfilled result) tries.old.left tries.new.left
        reader.old.interruptions reader.new.interruptions }
{
    let mut at = 0;
    'reads: while at < buf.len() {
        match reader.read(&mut buf[at..]) {
            Ok(0) => return Filled::Ended(at),
            Ok(n) => at += n,
            Err(error) => {
                if !tries.allows(&error) {
                    return Filled::Fault(at);
                }
            }
        }
    }
    Filled::Full
}
