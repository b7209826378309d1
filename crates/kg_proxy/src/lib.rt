//! One worker: what it keeps for itself, and how it takes a request on from there until somebody else has to answer.
//!
//! A worker does no IO and waits for nobody. Whoever drives it asks the shared caches and the keeper, and tells it.
#![tactic(auto)]

mod laws;
mod stop;
mod worker;

pub use crate::laws::{own_answers_hold, workers_stay_coherent};
pub use crate::stop::Stop;
pub use crate::worker::Worker;
