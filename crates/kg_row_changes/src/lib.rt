//! Changes of the rows by commands: what each touches, and which commands are allowed.
#![tactic(auto)]

pub mod admit;
pub mod candidates;
pub mod change;
pub mod claims;
pub mod laws;
