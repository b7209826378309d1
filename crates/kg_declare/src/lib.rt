//! The declaration: rows of all kinds as one object of JSON, and the replies to what is refused.
#![tactic(auto)]

mod error;
mod line;
mod progress;
mod refusal;

pub use crate::error::DeclareError;
pub use crate::line::declare;
pub use crate::refusal::refusal_response;
