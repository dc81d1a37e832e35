//! The server: one frame answered, a run over a list of bytes, and a service from a reader to a
//! writer.
ghost use Rattle.std.specs.Prelude.{◌≡◌, ◌+◌, ◌<◌, ◌++◌, ◌⊎◌, OnOk, OnErr, IfErr, vec_len, vec_capacity};
ghost use Rattle.xq_atoms.specs.declared.refusals.Want.TheVariants.{Memory};
ghost use Rattle.xq_tables.specs.Documents.{IsClean, IsOpen, StandsFor};
ghost use Rattle.xq_frame.specs.Interruptions.{IsBorne};
ghost use Rattle.xq_frame.specs.Request.{request_meaning};
ghost use Rattle.xq_server.specs.Run.{Reply, Answered, RunsTo, long_reply};
ghost use Rattle.xq_server.specs.Service.{Serves};
ghost use Rattle.xq_server.specs.private.Ends.{EndsLong};

use crate::answers::carry_out;
use crate::ends::End;
use crate::replies::{SHORT_REPLY, write_reply};
use sqlite::Alter;
use std::alloc::Global;
use std::io::{Read, Write};
use std::marker::Model;
use xq_atoms::{Code, Fault, Want};
use xq_frame::{Counted, Frame, Next, Taken, Tries, frame_of, next_frame, send, take_message};
use xq_store::Store;

/// A server over a store of documents. Contracts see the store.
#[derive(Drop)]
pub struct Server<S: Alter> {
    alloc: Global,
    store: Store<S>,
}

impl<S: Alter> Model for Server<S> {
    ghost use Rattle.sqlite.specs.Held.{Held, held_code};

    ghost Value = { Held S };

    ghost coded = { held_code S.code };

    ghost view = { λ s. s.store };
}

impl<S: Alter> Server<S> {
    /// A server over the store.
    pub fn new(alloc: Global, store: Store<S>) -> Self
        ensures { result ≡ store }
    {
        Server { alloc, store }
    }

    /// Gives the store back.
    pub fn into_store(self) -> Store<S>
        ensures { result ≡ self }
    {
        let Server { alloc: _, store } = self;
        store
    }
}

impl<S: Alter + Drop> Server<S> {
    /// Carries one frame out, and adds its reply to the output. It fails only where the output
    /// has no room for 32 more bytes, and then nothing has changed. The text of a query's reply, of
    /// at most 1,048,576 bytes, is a query with an equal value and the same reply over any
    /// documents.
    pub fn answer(&mut self, frame: &Frame<'_>, out: &mut Vec<u8>) -> Result<(), Want>
        ensures ok { OnOk result ((reply : Reply)
            × Answered (IsClean S.Store) (StandsFor S.Store) self.old self.new
            frame.now.tag (request_meaning frame.now.request) out.old.items out.new.items reply) }
        ensures err { OnErr result ((self.new ≡ self.old) × (out.new.items ≡ out.old.items)) }
        ensures full { OnErr result (vec_capacity out.old < vec_len out.old + 32) }
        ensures memory { IfErr result (λ want. want ≡ Memory) }
        ensures was_open { IsClean S.Store self.new → IsOpen S.Store self.new
            → IsOpen S.Store self.old }
    {
        out.reserve(SHORT_REPLY)?;
        let answer = carry_out(self.alloc, &mut self.store, frame.request);
        write_reply(out, frame.tag, answer);
        Ok(())
    }

    /// Answers the frames with which the bytes begin, in order, up to what ends them.
    pub fn run(&mut self, bytes: &[u8], out: &mut Vec<u8>) -> End
        ensures run { RunsTo (IsClean S.Store) (StandsFor S.Store)
            self.old self.new bytes.now out.old.items out.new.items result }
        ensures was_open { IsClean S.Store self.new → IsOpen S.Store self.new
            → IsOpen S.Store self.old }
    {
        let mut rest = bytes;
        'frames: loop {
            match next_frame(rest) {
                Next::End => return End::Finished,
                Next::Cut => return End::Cut,
                Next::TooLong => return refuse_long(out),
                Next::Frame(frame) => {
                    let Ok(()) = self.answer(&frame, out) else {
                        return End::NoRoom;
                    };
                    rest = &rest[frame.used..];
                }
            }
        }
    }

    /// Answers the frames that the reader gives, at most `max_frames` of them, each before the
    /// next is read, and gives the writer each reply, flushed. Of one frame and its reply 999
    /// interrupted calls are made again; the next is a fault.
    pub fn serve<R: Read, W: Write>(
        &mut self,
        reader: &mut Counted<R>,
        writer: &mut Counted<W>,
        max_frames: u64,
    ) -> End
        ensures served { Serves (IsClean S.Store) (StandsFor S.Store) self.old self.new
            (R.remaining reader.old.inner) (R.remaining reader.new.inner)
            (W.contents writer.old.inner) (W.contents writer.new.inner) max_frames
            (reader.old.interruptions + writer.old.interruptions)
            (reader.new.interruptions + writer.new.interruptions) result }
        ensures was_open { IsClean S.Store self.new → IsOpen S.Store self.new
            → IsOpen S.Store self.old }
    {
        for count in 0..max_frames {
            let mut tries = Tries::for_a_frame();
            match take_message(self.alloc, reader, &mut tries) {
                Taken::End => return End::Finished,
                Taken::Cut => return End::Cut,
                Taken::Fault => return End::ReadFault,
                Taken::NoRoom => return End::NoRoom,
                Taken::TooLong => return send_long(self.alloc, writer, &mut tries),
                Taken::Message(message) => {
                    let mut out = Vec::new(self.alloc);
                    match self.answer(&frame_of(message.as_slice()), &mut out) {
                        Err(_) => return End::NoRoom,
                        Ok(()) => match send(writer, out.as_slice(), &mut tries) {
                            Err(_) => return End::WriteFault,
                            Ok(()) => {}
                        },
                    }
                }
            }
        }
        End::Bound
    }
}

/// Gives the writer the reply to a length over the limit.
fn send_long<W: Write>(alloc: Global, writer: &mut Counted<W>, tries: &mut Tries) -> End
    ensures ends { EndsLong (W.contents writer.old.inner) (W.contents writer.new.inner) result }
    ensures borne { IsBorne 1 tries.old.left tries.new.left
        writer.old.interruptions writer.new.interruptions }
{
    let mut out = Vec::new(alloc);
    match refuse_long(&mut out) {
        End::TooLong => match send(writer, out.as_slice(), tries) {
            Ok(()) => End::TooLong,
            Err(_) => End::WriteFault,
        },
        end => end,
    }
}

/// Adds the reply to a length over the limit, or none where there is no room.
fn refuse_long(out: &mut Vec<u8>) -> End
    ensures { ((result ≡ End.TooLong) × (out.new.items ≡ out.old.items ++ long_reply))
        ⊎ ((result ≡ End.NoRoom) × (out.new.items ≡ out.old.items)) }
{
    if out.reserve(SHORT_REPLY).is_err() {
        return End::NoRoom;
    }
    write_reply(out, 0, Err(Fault::Code(Code::ProfLong)));
    End::TooLong
}
