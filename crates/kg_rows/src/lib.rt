//! Changes of the rows: the commands, what they touch, and when they are allowed.
//!
//! A change is a function of the rows before it. Nothing is kept here: who holds the rows, and in
//! which order commands come, is said by the crates above.
#![tactic(auto)]

mod base;
mod decision;
mod draft;
mod links;
mod proposal;
mod target;

pub use crate::decision::decide;
pub use crate::draft::{DecideError, Draft, Refusal};
pub use kg_row_changes::admit::allowed;
pub use kg_row_changes::change::apply;
pub use kg_row_changes::laws::{
    allowed_commands_make_valid_rows, last_command_changes_what_differs,
};
pub use kg_row_queries::{Page, Parent, Select, found, page_of};
pub use kg_row_values::command::Command;
pub use kg_row_values::laws::{
    later_commands_leave_earlier_places, one_more_command_changes_the_rows,
    texts_in_byte_order_are_the_texts, touched_lists_name_what_commits_change,
    unnamed_generations_keep_their_values, unnamed_keys_keep_their_values,
    values_stay_until_a_commit_names_them,
};
pub use kg_row_values::touched::Touched;
pub use kg_row_values::value::value_of;
