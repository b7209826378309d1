//! A store of rows that threads share: each has a seat, and all seats commit to one history.
//!
//! The rows, what each commit touched and the writer of the history lie under one lock. Each call of a seat takes it
//! once and lets it go before it returns, and the seat has then seen all commits. How long the history is that it has
//! seen a seat asks without the lock.
#![tactic(auto)]

mod hand;
mod making;
mod seat;
mod store;

pub use crate::making::make;
pub use crate::seat::StoreSeat;
