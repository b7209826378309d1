//! A history: a list that only grows, which one writer adds to and which threads see.
//!
//! A [`Pass`] is what a thread has seen of it. A pass asks for the history's length by one atomic load, takes no
//! lock and never waits. What it has seen is always the front of the writer's list. By a [`Note`] two holders tell
//! each other what they have seen.
//!
//! The entries are seen by contracts alone: in memory there is their number and nothing else.
#![tactic(auto)]

mod blank;
mod name;
mod note;
mod pass;
mod table;
mod view;
mod writer;

pub use crate::blank::{Blank, make};
pub use crate::name::HistoryName;
pub use crate::note::Note;
pub use crate::pass::Pass;
pub use crate::writer::Writer;
