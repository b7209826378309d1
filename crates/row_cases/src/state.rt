//! What the lines so far left.

use kg_entities::{Id, Rows};
use kg_outside::{CountIds, Ids};
use std::alloc::Global;
use std::mem::replace;

/// The rows so far, the ids, the clock in milliseconds, and how many rows a kind may have.
#[derive(Drop)]
pub struct State {
    pub rows: Rows,
    pub ids: CountIds,
    pub now: u64,
    pub limit: u32,
}

impl State {
    /// No rows.
    pub fn new(alloc: Global) -> State {
        State {
            rows: Rows::new(alloc),
            ids: CountIds::new(),
            now: 0,
            limit: 100,
        }
    }

    /// Forgets the rows, and draws the same ids again.
    pub fn begin_anew(&mut self, alloc: Global) {
        self.forget_rows(alloc);
        self.ids = CountIds::new();
    }

    /// Forgets the rows.
    pub fn forget_rows(&mut self, alloc: Global) {
        drop(replace(&mut self.rows, Rows::new(alloc))); // let go by name: a short proof
    }

    /// The next id.
    pub fn draw(&mut self) -> Id {
        Id::from_drawn(self.ids.draw())
    }
}
