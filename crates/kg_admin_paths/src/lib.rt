//! What a request of the Admin API asks for, as its path, its method and its query say it.
//!
//! The paths, the kinds of rows that they list and their methods are one table, which the definition and
//! the code share. Nothing here knows which rows there are.
#![tactic(auto)]

mod list_query;
mod lists;
mod operation;
mod place;
mod word;

pub use crate::list_query::{QueryError, Window, window_of};
pub use crate::operation::{Operation, operation_of};
pub use crate::place::{Place, place_of};
