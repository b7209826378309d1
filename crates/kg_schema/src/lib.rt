//! Bodies of JSON as rows of the gateway's configuration: which rules a body breaks, what it sets,
//! and how a row is shown.
#![tactic(auto)]

mod refusals;
mod row;

pub use crate::refusals::violations_are_told_in_order;
pub use crate::row::{
    accepts_word, base_has_id, finish, finish_under, finished_rows_are_valid, links_are_ids,
    shown_rows_are_read_back,
};
pub use kg_bodies::fields::{field_violations, members_of_an_unbroken_object_are_accepted};
pub use kg_bodies::form::{Form, FormError, read_form};
pub use kg_field_rules::rule::Rule;
pub use kg_field_rules::violations::{Broken, Violations};
pub use kg_field_tables::reference::Reference;
pub use kg_row_making::base::{Base, Links, ParentField};
pub use kg_shown_rows::show::show_entity;
