//! What rows are made of: the base that a body is laid over, and the configurations of plugins.
#![tactic(auto)]

pub mod base;
pub mod before;
pub mod config;
pub mod defaults;
pub mod member;
pub mod set;
