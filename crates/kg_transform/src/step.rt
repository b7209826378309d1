//! The steps of a transformer.

/// One step, in the order in which they run.
#[derive(Clone, Copy)]
pub enum Step {
    /// All of the name are dropped.
    Remove,
    /// Each gets its new name, in its place.
    Rename,
    /// The first gets a new value, and the others are dropped, where there is one.
    Replace,
    /// One is added at the end, where there is none.
    Add,
    /// One is added at the end.
    Append,
}
