//! The rules of single fields: their texts and order, the forms of texts, and the list of broken rules.
#![tactic(auto)]

pub mod parts;
pub mod rule;
pub mod text_kind;
pub mod text_rule;
pub mod url;
pub mod violations;
