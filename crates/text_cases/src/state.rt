//! What the lines share.

use kg_message::{Headers, Request};
use kg_text::{Bytes, List, Text};
use std::alloc::Global;

/// A list of numbers, a list of fields, and the request of the last line.
#[derive(Drop)]
pub struct State {
    pub list: List<u32>,
    pub fields: Headers,
    pub request: Request,
}

impl State {
    /// Nothing in the lists, and a request without fields and body.
    pub fn new(alloc: Global) -> State {
        State {
            list: List::new(alloc),
            fields: Headers::new(alloc),
            request: blank_request(alloc),
        }
    }
}

fn blank_request(alloc: Global) -> Request {
    Request {
        method: Bytes::new(alloc),
        path: Text::new(alloc),
        query: None,
        minor: 1,
        host: Bytes::new(alloc),
        headers: Headers::new(alloc),
        body: Bytes::new(alloc),
        framed: false,
        address: [127, 0, 0, 1],
    }
}
