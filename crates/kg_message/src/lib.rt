//! HTTP messages: lists of header fields, requests, replies, and the gateway's own replies.
//!
//! A field's name is kept in lower case, and names are compared in any case. Nothing does IO, and what
//! takes memory says so.
#![tactic(auto)]

mod comma_list;
mod gateway_message;
mod header;
mod headers;
mod hop_by_hop;
mod request;
mod response;

pub use crate::comma_list::{has_element, trim_blanks};
pub use crate::gateway_message::message;
pub use crate::header::Header;
pub use crate::headers::Headers;
pub use crate::hop_by_hop::{end_to_end, is_among, is_hop_by_hop};
pub use crate::request::Request;
pub use crate::response::Response;
