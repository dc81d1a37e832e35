//! How a run over frames ends.

/// Why no more frames are answered.
#[derive(Clone, Copy, Debug, PartialEq, Eq)]
pub enum End {
    /// Each frame was answered, and the input ends with the last of them.
    Finished,
    /// The input ends inside a frame, which has no reply.
    Cut,
    /// A frame's length is over the limit; the last reply says so.
    TooLong,
    /// As many frames were answered as were to be.
    Bound,
    /// The input can't be read.
    ReadFault,
    /// The output can't be written.
    WriteFault,
    /// The frame at hand was not carried out, for want of memory.
    NoRoom,
}
