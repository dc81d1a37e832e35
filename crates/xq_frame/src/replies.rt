//! The header of a reply.
ghost use Rattle.std.specs.Prelude.{◌≡◌, ◌≤◌};
ghost use Rattle.xq_frame.specs.Reply.{header, longest_text};

/// The greatest length of a reply's text, in bytes.
pub const MAX_TEXT: usize = 16_777_216;

/// The nine bytes before a reply's text of `len` bytes: the length of all that follows the
/// length itself, the tag, the status.
pub fn reply_header(tag: u32, status: u8, len: usize) -> [u8; 9]
    requires status { status ≤ 2 }
    requires len { len ≤ longest_text }
    ensures { result ≡ header tag status len }
{
    let [a, b, c, d] = (len as u32 + 5).to_be_bytes();
    let [e, f, g, h] = tag.to_be_bytes();
    [a, b, c, d, e, f, g, h, status]
}
