//! A store of rows as the gateway sees it: it answers what is asked of its rows, decides and commits
//! changes, and tells what each commit touched.
//!
//! Each answer says how many commits it counts. Who else commits, and whether calls may fail, is told by
//! the store; [`OwnStore`] is one in memory with one owner.
#![tactic(auto)]

mod answer;
mod feed;
mod generation;
mod history;
mod keeper;
mod own_store;
mod plan;

pub use crate::answer::{
    CommitError, Committed, Events, GenRows, KeepError, Loaded, LoadedRows, PageAsk, PageGot, Seen,
};
pub use crate::history::History;
pub use crate::keeper::Keeper;
pub use crate::own_store::OwnStore;
pub use crate::plan::Plan;
