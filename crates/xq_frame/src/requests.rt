//! What the message of a frame asks.
ghost use Rattle.std.specs.Prelude.{◌≡◌};
ghost use Rattle.xq_frame.specs.Request.{request_meaning, meaning_by_kind, put_meaning, list_meaning};

/// What a client asks, over the bytes of its frame.
#[derive(Clone, Copy)]
pub enum Request<'a> {
    /// Kind `Q`: the value of a query, by its text.
    Query(&'a [u8]),
    /// Kind `S`: the document that a query gives is to stand under the address.
    Put { address: &'a [u8], text: &'a [u8] },
    /// Kind `D`: no document is to stand under the address.
    Remove(&'a [u8]),
    /// Kind `L`: all addresses.
    List,
    /// A message that is none of these.
    Bad,
}

/// The request of a message that has this kind byte, and these bytes after it.
pub(crate) fn request_of(kind: u8, body: &[u8]) -> Request<'_>
    ensures { request_meaning result ≡ meaning_by_kind kind body.now }
{
    match kind {
        b'Q' => Request::Query(body),
        b'S' => put_in(body),
        b'D' => Request::Remove(body),
        b'L' => list_in(body),
        _ => Request::Bad,
    }
}

/// The store that the body of a frame asks for: the size of the address in a byte, the
/// address, and the text of the query.
fn put_in(body: &[u8]) -> Request<'_>
    ensures { request_meaning result ≡ put_meaning body.now }
{
    let [size, rest @ ..] = body else {
        return Request::Bad;
    };
    let size = usize::from(*size);
    if size > rest.len() {
        return Request::Bad;
    }
    Request::Put {
        address: &rest[..size],
        text: &rest[size..],
    }
}

/// The list that an empty body asks for.
fn list_in(body: &[u8]) -> Request<'_>
    ensures { request_meaning result ≡ list_meaning body.now }
{
    if body.is_empty() {
        Request::List
    } else {
        Request::Bad
    }
}
