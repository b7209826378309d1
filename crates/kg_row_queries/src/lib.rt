//! Rows as they are asked for: one or a page of them, among all or among those under another row.
#![tactic(auto)]

mod collection;
mod find;
mod pages;
mod row_ref;
mod select;
mod under;

pub use crate::collection::{Collection, collection_of, selected_in};
pub use crate::pages::{Page, found, page_of};
pub use crate::row_ref::RowRef;
pub use crate::select::{Parent, Select};
