//! Tables of rows: the rows of one kind, kept by place and found by id, by what they name and by their texts.
//!
//! What a row of each kind is stands in `kg_row_types`; all tables together are `kg_entities`.
#![tactic(auto)]

mod id_index;
mod key_index;
mod listing;
mod named_table;
mod plugin_table;
mod row;
mod table;
mod walk;

pub use crate::named_table::NamedTable;
pub use crate::plugin_table::PluginTable;
pub use crate::row::{Named, Row, is_other};
pub use crate::table::RowTable;
pub use crate::walk::Walk;
