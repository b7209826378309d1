//! The shapes of values that fields take.

use crate::reference::Mention;
use kg_field_rules::text_kind::{Choice, TextKind};

/// What a value is made of. null and the empty list are taken at every shape, as not set.
#[derive(Clone, Copy)]
pub enum Shape {
    Text(TextKind),
    /// At most 64 texts, no two of which are stored alike.
    Texts(TextKind),
    OneOf(Choice),
    /// A list of `http` and `https` with `http` in it.
    Protocols,
    /// A whole number.
    Whole { low: u64, high: u64 },
    /// An integer that may be negative.
    Integer { low: i64, high: i64 },
    Flag,
    Reference(Mention),
    /// An object of lists of texts, whose names are those of headers.
    Headers,
    /// Any object.
    Object,
}
