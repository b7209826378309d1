//! Messages of HTTP/1.1 on the wire: reading the requests of a connection, and printing replies and
//! upstream messages.
#![tactic(auto)]

mod checks;
mod head;
mod head_end;
mod held;
mod judge;
mod laws;
mod open_target;
mod reader;
mod target;

pub use crate::judge::MOST_HEAD;
pub use crate::laws::{
    limits_are_public, messages_unique, no_proper_front, printed_is_read, refusals_told_apart,
};
pub use crate::reader::{MOST_BODY, ReadError, Reader};
pub use crate::target::is_target;
pub use kg_print::connection::{Keeping, asks_for_end, keeping_of};
pub use kg_print::reply::render_response;
pub use kg_print::upstream::render_request;
pub use kg_print::write::write_whole;
