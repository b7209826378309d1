//! Clocks in memory.

ghost use Rattle.std.specs.Prelude.{◌≡◌, ◌+◌, ◌-◌, ◌<◌, ◌^◌, ℕ, List as Sequence, length, min, refl};
ghost use Rattle.kg_outside.specs.Readings.{Readings, one_read, reading_now, readings_of};
ghost use Rattle.kg_outside.specs.Runs.{IsRun, IsRun-append};

use crate::clock::Clock;
use kg_text::List;
use std::marker::Model;

/// A clock that stands still: each reading is this number of milliseconds.
#[derive(Clone, Copy, Debug)]
pub struct StillClock(pub u64);

impl Clock for StillClock {
    ghost reads = { IsRun (λ clock. clock.0) (λ clock. clock) };

    fn now(&mut self) -> u64 {
        self.0
    }

    ghost reads_none = { λ clock. refl };

    ghost reads_on = { IsRun-append (λ clock. clock.0) (λ clock. clock) };
}

/// A clock that gives the readings of a list in order, and then its last one again and again.
/// Without readings it reads 0. It counts how often it was read; the count stands still at 2^64 - 1.
/// Contracts see the readings to come, and the count.
#[derive(Debug, Drop)]
pub struct ListClock {
    readings: List<u64>,
    place: usize,
    made: u64,
}

impl Model for ListClock {
    ghost use Rattle.std.specs.Prelude.{◌≤◌, length, drop};
    ghost use Rattle.kg_outside.specs.Readings.{Readings};

    ghost Value = { Readings };

    ghost view = { λ clock. record { left = drop clock.place clock.readings; made = clock.made } };

    ghost invariant = { λ clock. clock.place ≤ length clock.readings };
}

impl ListClock {
    /// Gives these readings, in milliseconds. None is made yet.
    pub fn new(readings: List<u64>) -> ListClock
        ensures { result ≡ record { left = readings; made = 0 } }
    {
        ListClock {
            readings,
            place: 0,
            made: 0,
        }
    }

    /// How often the clock was read, also past the last of its list.
    pub fn made(&self) -> u64
        ensures { result ≡ self.now.made }
    {
        self.made
    }
}

impl Clock for ListClock {
    ghost reads = { IsRun reading_now one_read };

    fn now(&mut self) -> u64 {
        self.made = self.made.saturating_add(1);
        match self.readings.as_slice().split_at(self.place).1 {
            [] => 0,
            [last] => *last,
            [reading, ..] => {
                self.place += 1;
                *reading
            }
        }
    }

    ghost reads_none = { λ clock. refl };

    ghost reads_on = { IsRun-append reading_now one_read };
}

/// A law, with nothing to run: the readings made from one state of the clock to another are the next ones of its
/// list, and the count has risen by their number, as far as 64 bits hold it.
pub fn readings_are_counted()
    ensures given { (before after : Readings) (readings : Sequence ℕ)
        → ⟦<ListClock as Clock>⟧.reads before after readings
        → readings ≡ readings_of before.left (length readings) }
    ensures made { (before after : Readings) (readings : Sequence ℕ)
        → ⟦<ListClock as Clock>⟧.reads before after readings → before.made < 2 ^ 64
        → after.made ≡ min (before.made + length readings) (2 ^ 64 - 1) }
{}
