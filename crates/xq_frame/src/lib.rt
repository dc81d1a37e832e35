//! Frames of requests, as they stand in a stream of bytes, and the headers of replies; frames from
//! a reader and replies to a writer, each whole though they come and go in pieces.
#![tactic(auto)]

mod counted;
mod frames;
mod messages;
mod replies;
mod requests;
mod sending;
mod tries;

pub use counted::Counted;
pub use frames::{Frame, MAX_MESSAGE, Next, frame_of, next_frame, number_at_start, splits_once};
pub use messages::{Taken, take_message};
pub use replies::{MAX_TEXT, reply_header};
pub use requests::Request;
pub use sending::send;
pub use tries::Tries;
