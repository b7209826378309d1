//! Rows as objects of JSON.
#![tactic(auto)]

pub mod show;
