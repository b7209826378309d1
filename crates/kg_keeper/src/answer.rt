//! What a store is asked, and what it answers.

ghost use Rattle.std.specs.Prelude.{◌≡◌};
ghost use Rattle.kg_keeper.specs.declared.answer.CommitError.TheVariants.{NoMemory as OutOfMemory};
ghost use Rattle.kg_keeper.specs.declared.answer.KeepError.TheVariants.{NoMemory as NotEnough};

use kg_entities::{Entity, GenKey, Id, Key, Kind, PluginRow, Route, Service, Value};
use kg_rows::{Parent, Refusal};
use kg_text::{List, NoMemory};

/// Why the store has no answer.
#[derive(Clone, Copy, Debug, PartialEq, Eq)]
pub enum KeepError {
    /// The store failed, and has counted it.
    Fault,
    NoMemory,
}

impl From<NoMemory> for KeepError {
    ghost from_gives = { λ _ e. e ≡ NotEnough };

    fn from(_: NoMemory) -> KeepError {
        KeepError::NoMemory
    }
}

/// Why a change isn't committed.
#[derive(Drop)]
pub enum CommitError {
    /// The change is refused after the first `at` commits.
    Refused { why: Refusal, at: u64 },
    /// The store failed, and has counted it.
    Fault,
    NoMemory,
}

impl From<NoMemory> for CommitError {
    ghost from_gives = { λ _ e. e ≡ OutOfMemory };

    fn from(_: NoMemory) -> CommitError {
        CommitError::NoMemory
    }
}

/// The value of a key after the first `at` commits.
#[derive(Drop)]
pub struct Loaded {
    pub value: Value,
    pub at: u64,
}

/// The rows of a generation, in the order of insertion.
#[derive(Drop)]
pub enum GenRows {
    Router {
        services: List<Service>,
        routes: List<Route>,
    },
    Plugins(List<PluginRow>),
}

/// The rows of a generation after the first `at` commits.
#[derive(Drop)]
pub struct LoadedRows {
    pub rows: GenRows,
    pub at: u64,
}

/// What commits touched.
#[derive(Drop)]
pub enum Events {
    /// For each commit the keys and the generations whose values it changed.
    Since {
        keys: List<List<Key>>,
        gens: List<List<GenKey>>,
    },
    /// It isn't kept any more: only that of the commits after the first `floor` is.
    Gap {
        floor: u64,
    },
}

/// A change that was committed as number `at`, and the row that it put; a deletion puts none.
#[derive(Drop)]
pub struct Committed {
    pub at: u64,
    pub row: Option<Entity>,
}

/// Which page is asked for: at most `size` rows with ids above `after`, among all of the kind or among
/// those under a parent.
#[derive(Drop)]
pub struct PageAsk {
    pub kind: Kind,
    pub parent: Option<Parent>,
    pub after: Option<Id>,
    pub size: u32,
}

/// A page after the first `at` commits, in the order of ids, and whether more rows follow. Where the parent
/// is missing it has no rows.
#[derive(Drop)]
pub struct PageGot {
    pub rows: List<Entity>,
    pub more: bool,
    pub parent_missing: bool,
    pub at: u64,
}

/// The row that was asked for after the first `at` commits, if it is there.
#[derive(Drop)]
pub struct Seen {
    pub row: Option<Entity>,
    pub at: u64,
}
