//! Commands: the changes of the rows.

use kg_entities::{Entity, Id, Kind};
use kg_text::{NoMemory, TryClone};
use std::alloc::Global;

/// A change of the rows that was decided.
#[derive(Drop)]
pub enum Command {
    /// Puts the row at the end of its kind.
    Insert(Entity),
    /// Puts the row in the place of the one of its kind and id.
    Update(Entity),
    /// Takes out the row, and what can't stand without it.
    Delete { kind: Kind, id: Id },
}

impl TryClone for Command {
    fn try_clone(&self, alloc: Global) -> Result<Command, NoMemory> {
        match self {
            Command::Insert(row) => Ok(Command::Insert(row.try_clone(alloc)?)),
            Command::Update(row) => Ok(Command::Update(row.try_clone(alloc)?)),
            Command::Delete { kind, id } => Ok(Command::Delete {
                kind: *kind,
                id: *id,
            }),
        }
    }
}
