//! Generations: the rows that are read as a whole, compiled, as the caches keep them.
//!
//! A generation of services and routes finds the route of a request, one of plugin rows the row of a plugin. Contracts
//! see the rows that it was built from. Nothing here does IO.
#![tactic(auto)]

mod generation;

pub use crate::generation::Gen;
