//! The plugins of a gateway, ready to be chosen: which row of a plugin runs for a request.
#![tactic(auto)]

mod closest;
mod generation;
mod names;
mod places;
mod precedence;
mod ranks;
mod search;

pub use crate::closest::chosen_row_is_the_closest;
pub use crate::generation::PluginGen;
pub use crate::search::choose_by_search;
