//! When a request is answered, and by whom.

/// One reading of the clock, and the worker that took it.
#[derive(Clone, Copy)]
pub struct Moment {
    /// In milliseconds.
    pub time: u64,
    /// The worker's number.
    pub who: u32,
}
