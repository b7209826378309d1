//! The way of a request to its upstream: whom it calls, with which path and Host, the message that is sent, and the
//! reply that the answer becomes.
#![tactic(auto)]

mod host;
mod upstream;
mod upstream_path;
mod way;

pub use crate::host::message_text;
pub use crate::upstream::{put_as_it_came, reply_by_echo, reply_of, up_request};
pub use crate::upstream_path::path_for;
pub use crate::way::{Way, way_of, way_to};
