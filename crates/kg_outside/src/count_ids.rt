//! Ids that count.

ghost use Rattle.std.specs.Prelude.{◌≡◌, ◌+◌, ◌<◌, ◌^◌, ℕ, List, length, refl};
ghost use Rattle.kg_outside.specs.CountedIds.{id_of, ids_from, next_id};
ghost use Rattle.kg_outside.specs.Counts.{one_more};
ghost use Rattle.kg_outside.specs.Runs.{IsRun, IsRun-append};

use crate::ids::Ids;
use std::marker::Model;

/// Ids that count the draws: the k-th has k as a big-endian number in its last eight bytes, and
/// zeros before. Contracts see the number of draws so far. It stands still at 2^64 - 1.
#[derive(Debug, Drop)]
pub struct CountIds {
    drawn: u64,
}

impl Model for CountIds {
    ghost use Rattle.std.specs.Prelude.{ℕ};

    ghost Value = { ℕ };

    ghost view = { λ ids. ids.drawn };
}

impl CountIds {
    /// None is drawn yet.
    pub fn new() -> CountIds
        ensures { result ≡ 0 }
    {
        CountIds { drawn: 0 }
    }
}

impl Ids for CountIds {
    ghost draws = { IsRun next_id one_more };

    fn draw(&mut self) -> [u8; 16] {
        self.drawn = self.drawn.saturating_add(1);
        id_of(self.drawn)
    }

    ghost draws_none = { λ ids. refl };

    ghost draws_on = { IsRun-append next_id one_more };
}

/// A law, with nothing to run: after so many draws, the next ones are those of the numbers that
/// follow. So the draws from `CountIds::new()` are 1, 2, 3 and so on.
pub fn draws_count_up()
    ensures drawn { (before after : ℕ) (drawn : List (List ℕ))
        → ⟦<CountIds as Ids>⟧.draws before after drawn → before + length drawn < 2 ^ 64
        → drawn ≡ ids_from (before + 1) (length drawn) }
    ensures count { (before after : ℕ) (drawn : List (List ℕ))
        → ⟦<CountIds as Ids>⟧.draws before after drawn → before + length drawn < 2 ^ 64
        → after ≡ before + length drawn }
{}

// The 16 bytes of a number.
fn id_of(number: u64) -> [u8; 16]
    ensures { result ≡ id_of number }
{
    let mut id = [0; 16];
    id.split_at_mut(8)
        .1
        .copy_from_slice(number.to_be_bytes().as_slice());
    id
}
