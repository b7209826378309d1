//! The rows that a declaration lists, in the order of their insertion, and what is wrong with the
//! declaration's own members.
//!
//! No row is judged here.
#![tactic(auto)]

mod declared;
mod violations;

pub use crate::declared::{Above, Declared, rows_of};
pub use crate::violations::own_violations;
