//! Bodies of JSON judged by the tables of fields: which rules a body breaks, and what it sets.
#![tactic(auto)]

pub mod by_table;
pub mod fields;
pub mod form;
pub mod header_tests;
pub mod judge;
pub mod settings;
pub mod texts;
