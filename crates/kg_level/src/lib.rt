//! Where a value was found: a type of its own, so that who tells of it needn't know how values are found.
#![tactic(auto)]

mod level;

pub use crate::level::Level;
