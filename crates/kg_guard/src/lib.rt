//! The plugins that may end a request before it goes upstream: request-termination, ip-restriction,
//! request-size-limiting and cors, and what cors tells in the reply.
//!
//! Each plugin is a file, with its rule in `specs/`.
#![tactic(auto)]

mod address;
mod cors;
mod cors_reply;
mod guards;
mod ip_restriction;
mod request_size;
mod termination;

pub use crate::cors_reply::cors_headers;
pub use crate::guards::{GuardConfig, guard};
