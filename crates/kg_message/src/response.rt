//! Replies.

use crate::headers::Headers;
use kg_text::{Bytes, NoMemory, TryClone};
use std::alloc::Global;

/// A reply.
#[derive(Debug, PartialEq, Drop)]
pub struct Response {
    /// 100 to 999.
    pub status: u16,
    pub headers: Headers,
    pub body: Bytes,
}

impl TryClone for Response {
    fn try_clone(&self, alloc: Global) -> Result<Response, NoMemory> {
        Ok(Response {
            status: self.status,
            headers: self.headers.try_clone(alloc)?,
            body: self.body.try_clone(alloc)?,
        })
    }
}
