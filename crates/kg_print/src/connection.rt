//! What a request and its reply say of their connection.

ghost use Rattle.std.specs.Prelude.{◌≡◌};
ghost use Rattle.kg_print.specs.Connection.{asks_for_end, keeping_of};

use kg_message::Request;

/// What a reply says of the connection that it is written to.
#[derive(Clone, Copy, Debug, PartialEq, Eq)]
pub enum Keeping {
    /// Nothing.
    Silent,
    /// It ends with this reply.
    Close,
    /// It is kept for further requests.
    Alive,
}

/// Is the connection to end with the reply to this request (RFC 9112, section 9.3)? It is where a
/// Connection field lists `close`, and where version 1.0 doesn't list `keep-alive`.
pub fn asks_for_end(request: &Request) -> bool
    ensures { result ≡ asks_for_end request.now }
{
    let headers = &request.headers;
    headers.lists(b"connection", b"close")
        || (request.minor == 0 && !headers.lists(b"connection", b"keep-alive"))
}

/// What the reply to a request says of its connection. `last` tells that the connection ends with it,
/// whatever the request asks.
pub fn keeping_of(last: bool, request: &Request) -> Keeping
    ensures { result ≡ keeping_of last request.now }
{
    if last || asks_for_end(request) {
        Keeping::Close
    } else if request.minor == 0 {
        Keeping::Alive
    } else {
        Keeping::Silent
    }
}
