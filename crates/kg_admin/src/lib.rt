//! The Admin API: what a request asks of the rows, and its reply.
//!
//! [`admin_request`] answers one request over a store of rows. Its reply is one function of the request and
//! of all rows at one place of the history; a change is committed once, or not at all.
#![tactic(auto)]

mod asked;
mod body;
mod done;
mod page;
mod reply;
mod request;

pub use crate::done::AdminDone;
pub use crate::request::admin_request;
