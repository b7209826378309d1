//! Counted requests as threads share them: the counts, together with the history of the hits that they count.
//!
//! A lock holds one [`Counters`]. What it counts is always exactly its writer's list of hits, so a verdict is what is
//! judged at its place in one list, whichever thread asks.
#![tactic(auto)]

mod counters;

pub use crate::counters::{Counters, make_counters};
