//! Messages as bytes: replies and upstream messages as they are printed, and how all of it is written.
#![tactic(auto)]

pub mod connection;
pub mod lines;
pub mod reply;
pub mod upstream;
pub mod write;
