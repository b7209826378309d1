//! The second cache level: the values that all workers share, and who loads which.
//!
//! At most one load of a key goes on at a time. Who finds no live entry takes a claim on the key, loads the value and
//! settles the claim; until then the others are told that the key is busy, and by whom. A claim that could not be
//! loaded is abandoned or released. A claim must be spent: it can't be dropped.
//!
//! As the first level, this one knows no history. Nothing here does IO or waits.
#![tactic(auto)]

mod claim;
mod laws;
mod notes;
mod table;

pub use crate::claim::{Abandoned, Claim, Found, Settled};
pub use crate::laws::{
    claims_stay_out, coherent_tables_answer_what_holds, coherent_tables_stay_coherent,
    settled_tables_stay_coherent,
};
pub use crate::table::Table;
