//! Requests.

use crate::headers::Headers;
use kg_text::{Bytes, NoMemory, Text, TryClone};
use std::alloc::Global;

/// A client's request.
#[derive(Debug, PartialEq, Drop)]
pub struct Request {
    pub method: Bytes,
    /// The target's path in normal form.
    pub path: Text,
    /// What stands after the target's first `?`.
    pub query: Option<Bytes>,
    /// The version is 1.`minor`.
    pub minor: u8,
    /// The value of Host, as it came.
    pub host: Bytes,
    /// All header fields, in their order.
    pub headers: Headers,
    pub body: Bytes,
    /// Whether the client stated how long the body is.
    pub framed: bool,
    /// The client's IPv4 address.
    pub address: [u8; 4],
}

impl TryClone for Request {
    fn try_clone(&self, alloc: Global) -> Result<Request, NoMemory> {
        Ok(Request {
            method: self.method.try_clone(alloc)?,
            path: self.path.try_clone(alloc)?,
            query: self.query.try_clone(alloc)?,
            minor: self.minor,
            host: self.host.try_clone(alloc)?,
            headers: self.headers.try_clone(alloc)?,
            body: self.body.try_clone(alloc)?,
            framed: self.framed,
            address: self.address,
        })
    }
}
