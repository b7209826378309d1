//! What a node is set up with.
#![tactic(auto)]

mod settings;

pub use crate::settings::Settings;
