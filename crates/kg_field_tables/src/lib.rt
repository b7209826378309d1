//! The fields of each kind of row and of each configuration: their names, shapes, bounds, constants and
//! defaults.
#![tactic(auto)]

pub mod constant;
pub mod default_value;
pub mod reference;
pub mod shape;
pub mod table;
