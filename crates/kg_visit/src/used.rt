//! The values that a request used.

use kg_level::Level;
use kg_row_types::key::Key;
use kg_row_types::value::Value;
use std::marker::Model;
use std::sync::Arc;

/// A key with the value that the request was given for it. Contracts see the value itself.
#[derive(Drop)]
pub struct Used {
    pub key: Key,
    pub value: Arc<Value>,
    /// The number of commits that the value counts.
    pub at: u64,
    /// Where it was found.
    pub level: Level,
}

impl Model for Used {
    ghost use Rattle.std.specs.Arc.{arc_value};
    ghost use Rattle.kg_visit.specs.Told.{Use};

    ghost Value = { Use };

    ghost view = { λ used. record { key = used.key; value = arc_value used.value; at = used.at; level = used.level } };
}
