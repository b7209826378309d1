//! The plugins request-transformer and response-transformer: lists of edits over header fields and query pairs.
#![tactic(auto)]

mod fields;
mod member;
mod pairs;
mod request;
mod response;
mod step;

pub use crate::request::transform_request;
pub use crate::response::transform_response;
