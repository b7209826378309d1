//! The environment of the gateway as traits: where bytes come from and go to, the clock, and the
//! source of ids. Each has doubles in memory.
//!
//! What an object of the environment holds is seen by contracts alone. It may be observable, as the
//! doubles in memory are, or not, as a socket is. Each fault is counted, so that a refusal that the
//! environment caused can be told from one that was made up.
#![tactic(auto)]

mod calls;
mod clock;
mod clocks;
mod conn;
mod count_ids;
mod ids;
mod mem_conn;
mod mem_sink;
mod mem_source;
mod sink;
mod source;
mod target;

pub use crate::clock::Clock;
pub use crate::clocks::{ListClock, StillClock, readings_are_counted};
pub use crate::conn::Conn;
pub use crate::count_ids::{CountIds, draws_count_up};
pub use crate::ids::Ids;
pub use crate::mem_conn::MemConn;
pub use crate::mem_sink::MemSink;
pub use crate::mem_source::MemSource;
pub use crate::sink::Sink;
pub use crate::source::{Failed, Source};
pub use crate::target::Target;
