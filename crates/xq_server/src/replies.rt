//! Replies, written into room that is there.
ghost use Rattle.std.specs.Prelude.{◌≡◌, ◌+◌, ◌≤◌, ◌++◌, ◌⊎◌, length, vec_len, vec_capacity};
ghost use Rattle.xq_atoms.specs.Code.{want_text};
ghost use Rattle.xq_atoms.specs.declared.refusals.Want.TheVariants.{Memory};
ghost use Rattle.xq_frame.specs.Reply.{reply_bytes, longest_text};
ghost use Rattle.xq_server.specs.private.Work.{IsShort, Writes};

use crate::answers::Answer;
use xq_atoms::{Fault, Want};
use xq_frame::reply_header;

/// The room for each reply but a long text: nine bytes of header, and a word.
pub(crate) const SHORT_REPLY: usize = 32;

/// Adds the reply to the output. Where a text finds no room, the reply is that memory is wanting.
pub(crate) fn write_reply(out: &mut Vec<u8>, tag: u32, answer: Result<Answer, Fault>)
    requires room { vec_len out.old + 32 ≤ vec_capacity out.old }
    requires short { IsShort answer }
    ensures { Writes out.old.items out.new.items tag answer }
{
    match answer {
        Ok(Answer::Text(text)) => write_text(out, tag, text.as_str()),
        Ok(Answer::Stored) => write(out, tag, 0, "stored"),
        Ok(Answer::Replaced) => write(out, tag, 0, "replaced"),
        Ok(Answer::Dropped) => write(out, tag, 0, "dropped"),
        Err(Fault::Code(code)) => write(out, tag, 1, code.text()),
        Err(Fault::Want(want)) => write(out, tag, 2, want.text()),
    }
}

/// Adds a reply that has a text; that memory is wanting, where the text finds no room.
fn write_text(out: &mut Vec<u8>, tag: u32, text: &str)
    requires room { vec_len out.old + 32 ≤ vec_capacity out.old }
    requires short { length text.now ≤ longest_text }
    ensures { (out.new.items ≡ out.old.items ++ reply_bytes tag 0 text.now)
        ⊎ (out.new.items ≡ out.old.items ++ reply_bytes tag 2 (want_text Memory)) }
{
    if out.reserve(text.len() + 9).is_ok() {
        write(out, tag, 0, text);
    } else {
        write(out, tag, 2, Want::Memory.text());
    }
}

/// Adds a reply, for which there is room.
fn write(out: &mut Vec<u8>, tag: u32, status: u8, text: &str)
    requires room { vec_len out.old + (length text.now + 9) ≤ vec_capacity out.old }
    requires status { status ≤ 2 }
    requires short { length text.now ≤ longest_text }
    ensures { out.new.items ≡ out.old.items ++ reply_bytes tag status text.now }
{
    let header = reply_header(tag, status, text.len());
    out.extend_from_slice(&header).unwrap();
    out.extend_from_slice(text.as_bytes()).unwrap();
}
