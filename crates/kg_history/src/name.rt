//! Names of histories.

use std::marker::Brand;

/// Names one history, for contracts alone. What holds a writer, a pass or a note carries the name, so that what is
/// told of one history is never mixed up with another's.
///
/// A function that is generic in a name gets it where it is called with [`Brand`].
pub trait HistoryName {
    ghost use Rattle.atomic_table.specs.Seated.{TableId};

    ghost history: { TableId };
}

impl HistoryName for Brand {
    ghost use Rattle.kg_history.specs.Sights.{no_history};

    ghost history = { no_history };
}
