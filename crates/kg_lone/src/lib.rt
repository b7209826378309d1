//! The gateway's node on one thread, without locks: one connection's requests, each routed and answered,
//! over an echo as upstream.
#![tactic(auto)]

mod commands;
mod dry;
mod line;
mod rows;
pub mod status;

pub use crate::commands::first_commands;
pub use crate::dry::{cut_text_goes_on, exit_status, one_text, run, run_to_end};
pub use crate::rows::gateway_of;
pub use kg_plain::End;
