//! The pairs of a query.

use crate::clone::TryClone;
use crate::error::NoMemory;
use crate::text::Text;
use std::alloc::Global;

/// One pair of a query: its name and its value, decoded.
#[derive(Debug, PartialEq, Drop)]
pub struct Pair {
    pub name: Text,
    pub value: Text,
}

impl TryClone for Pair {
    fn try_clone(&self, alloc: Global) -> Result<Pair, NoMemory> {
        Ok(Pair {
            name: self.name.try_clone(alloc)?,
            value: self.value.try_clone(alloc)?,
        })
    }
}
