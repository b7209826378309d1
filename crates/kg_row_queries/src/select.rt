//! How a row is named by whoever asks for it.

use kg_entities::{Id, Kind};
use kg_text::Text;

/// One row of a kind.
#[derive(Drop)]
pub enum Select {
    /// The row with this id.
    Id(Id),
    /// The row with this name, username, key or group.
    Word(Text),
}

/// The row under which others are asked for.
#[derive(Drop)]
pub struct Parent {
    pub kind: Kind,
    pub select: Select,
}
