//! Changes that are asked for, and why one is refused.

ghost use Rattle.std.specs.Prelude.{◌≡◌};
ghost use Rattle.kg_rows.specs.declared.draft.DecideError.TheVariants.{NoMemory as OutOfMemory};

use kg_entities::{Id, Kind};
use kg_row_queries::{Parent, Select};
use kg_schema::{Broken, Form};
use kg_text::{List, NoMemory, Text};
use std::alloc::{AllocError, AllocFailed};

/// A change that is asked for. `now` is the clock in milliseconds; `id` is an id that was drawn, which a
/// new row has where nothing else tells its id.
#[derive(Drop)]
pub enum Draft {
    /// A new row.
    Insert {
        kind: Kind,
        parent: Option<Parent>,
        form: Form,
        id: Id,
        now: u64,
    },
    /// The fields of a row that the form sets.
    Patch {
        kind: Kind,
        parent: Option<Parent>,
        select: Select,
        form: Form,
        now: u64,
    },
    /// All fields of a row, which is made where it is missing.
    Put {
        kind: Kind,
        parent: Option<Parent>,
        select: Select,
        form: Form,
        id: Id,
        now: u64,
    },
    /// A row that goes.
    Delete {
        kind: Kind,
        parent: Option<Parent>,
        select: Select,
    },
}

/// Why a change is refused.
#[derive(Drop)]
pub enum Refusal {
    /// The row that is meant, or its parent, isn't there.
    NotFound,
    /// The rules that the body breaks, in byte order of their paths.
    Violation(List<Broken>),
    /// A row that is named isn't there, or (`present`) the deleted row is still named by others.
    Foreign { field: Text, present: bool },
    /// Another row has what only one may have.
    Unique { field: Text, other: Id },
    /// The kind has as many rows as it may have.
    Full,
    /// The history has as many commands as it may have.
    HistoryFull,
}

/// Why no command is decided.
#[derive(Drop)]
pub enum DecideError {
    Refused(Refusal),
    NoMemory,
}

impl From<NoMemory> for DecideError {
    ghost from_gives = { λ _ e. e ≡ OutOfMemory };

    fn from(_: NoMemory) -> DecideError {
        DecideError::NoMemory
    }
}

impl From<AllocError> for DecideError {
    ghost from_gives = { λ _ e. e ≡ OutOfMemory };

    fn from(_: AllocError) -> DecideError {
        DecideError::NoMemory
    }
}

impl<T: Drop> From<AllocFailed<T>> for DecideError {
    ghost from_gives = { λ _ e. e ≡ OutOfMemory };

    fn from(_: AllocFailed<T>) -> DecideError {
        DecideError::NoMemory
    }
}
