//! The first cache level: the values that one worker keeps for itself.
//!
//! A level is generic in its keys and values, and knows no history: it is told at which position a value held, and
//! which keys the commits after it touch. Nothing here does IO or waits.
#![tactic(auto)]

mod dropping;
mod held;
mod laws;
mod local;

pub use crate::held::Held;
pub use crate::laws::{
    answering_levels_hold_the_same, coherent_levels_answer_what_holds,
    coherent_levels_stay_coherent,
};
pub use crate::local::Local;
