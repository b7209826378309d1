//! The gateway of a dry run: each request of a connection is answered by the plain gateway, over an echo as the
//! upstream of every service.
#![tactic(auto)]

mod answers;
mod drive;
mod gateway;

pub use crate::answers::{End, Stop, answer_all};
pub use crate::gateway::Gateway;
