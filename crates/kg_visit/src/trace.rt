//! How a reply came about.

use crate::used::Used;
use kg_context::Upstream;
use kg_limit::Verdict;
use kg_text::List;

/// Whose reply it is.
#[derive(Clone, Copy)]
pub enum ReplyKind {
    /// The plain gateway's.
    Plain,
    /// The rows couldn't be read.
    KeeperFault,
}

/// How a reply came about: what was read, judged and answered for it.
#[derive(Drop)]
pub struct Trace {
    /// The request's one reading of the clock, in milliseconds.
    pub now: u64,
    /// How many commits the request saw when it looked.
    pub p: u64,
    /// At how many commits its router generation was held, or 0 where it had none.
    pub r: u64,
    /// At how many commits its plugin generation was held, or 0 where it had none.
    pub s: u64,
    /// The keys that were asked, in the order asked, with their values.
    pub uses: List<Used>,
    pub verdicts: List<Verdict>,
    pub upstream: Option<Upstream>,
    pub kind: ReplyKind,
}
