//! The rows after a history of commands, the values of their keys, and which values a change changes.
#![tactic(auto)]

pub mod command;
pub mod generations;
pub mod laws;
pub mod same;
pub mod touched;
pub mod value;
pub mod watch;
