//! The frame with which some bytes begin.
ghost use Rattle.std.specs.Prelude.{◌≡◌, ◌≤◌, length, take};
ghost use Rattle.std.specs.Int.{to_be_bytes, from_be_bytes, w32};
ghost use Rattle.xq_frame.specs.Frame.{SplitsInOneWay};
ghost use Rattle.xq_frame.specs.Next.{Begins, IsFrameOf};

use crate::requests::{Request, request_of};

/// The greatest length of a frame's message, in bytes.
pub const MAX_MESSAGE: usize = 1_048_832;

/// A whole frame.
#[derive(Clone, Copy)]
pub struct Frame<'a> {
    /// The client's mark, which the reply carries too; 0 where the message is too short for one.
    pub tag: u32,
    /// The bytes of the frame, its length included.
    pub used: usize,
    pub request: Request<'a>,
}

/// What some bytes begin with.
#[derive(Clone, Copy)]
pub enum Next<'a> {
    /// A whole frame.
    Frame(Frame<'a>),
    /// Nothing: there are no bytes.
    End,
    /// A part of a frame, or of its length.
    Cut,
    /// A length over `MAX_MESSAGE`.
    TooLong,
}

/// The frame with which the bytes begin, or why there is none.
pub fn next_frame(bytes: &[u8]) -> Next<'_>
    ensures { Begins bytes.now result }
{
    if bytes.is_empty() {
        return Next::End;
    }
    if bytes.len() < 4 {
        return Next::Cut;
    }
    let length = number_at_start(bytes) as usize;
    if length > MAX_MESSAGE {
        return Next::TooLong;
    }
    if bytes.len() - 4 < length {
        return Next::Cut;
    }
    Next::Frame(frame_of(&bytes[4..4 + length]))
}

/// The frame whose message this is.
pub fn frame_of(message: &[u8]) -> Frame<'_>
    requires { length message.now ≤ 1048832 }
    ensures { IsFrameOf result message.now }
{
    let used = 4 + message.len();
    if message.len() < 5 {
        return Frame {
            tag: 0,
            used,
            request: Request::Bad,
        };
    }
    let tag = number_at_start(message);
    let request = request_of(message[4], &message[5..]);
    Frame { tag, used, request }
}

/// The number in the first four bytes, the highest byte first.
pub fn number_at_start(bytes: &[u8]) -> u32
    requires { 4 ≤ length bytes.now }
    ensures value { result ≡ from_be_bytes w32 (take 4 bytes.now) }
    ensures bytes { to_be_bytes w32 result ≡ take 4 bytes.now }
{
    u32::from_be_bytes([bytes[0], bytes[1], bytes[2], bytes[3]])
}

/// A law: each list of bytes is whole frames and a rest that ends it, in exactly one way.
pub fn splits_once()
    ensures { SplitsInOneWay }
{}
