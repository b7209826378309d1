//! The levels that a value comes from.

/// Where a value was found.
#[derive(Clone, Copy, Debug, PartialEq, Eq)]
pub enum Level {
    /// In the worker's own cache.
    Local,
    /// In the cache that all workers share.
    Shared,
    /// In the rows themselves.
    Loaded,
    /// In the shared cache past its life time, since the rows couldn't be read.
    Stale,
}
