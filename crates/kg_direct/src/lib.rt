//! Requests that no plugin touches: they go to their upstream just as the route says.
//!
//! The plain gateway walks over ten plugins for every request. Where none of them has a row that runs, this is what
//! it comes to, without a walk.
#![tactic(auto)]

mod echo;
mod laws;
mod message;
mod touched;

pub use crate::echo::echo_text;
pub use crate::laws::untouched_requests_go_straight;
pub use crate::message::straight_message;
pub use crate::touched::is_touched;
