//! Where a request gets its values from: the way of one key through the shared level, as a machine that says what it
//! wants next. Whoever drives it holds no lock between two steps, and no step does IO.
#![tactic(auto)]

mod fetch;
mod laws;
mod step;

pub use crate::fetch::{Ask, Fetch, Ready};
pub use crate::laws::{turns_keep_claims, turns_keep_coherence};
pub use kg_level::Level;
