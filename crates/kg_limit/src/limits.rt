//! The limits of a hit, and what is left of them.

ghost use Rattle.std.specs.Prelude.{◌≡◌, ◌<◌, ◌≤◌, ◌↔◌, [], ◌∷◌, ◌++◌, IsTrue, length, map};
ghost use Rattle.kg_limit.specs.Counting.{left_after};
ghost use Rattle.kg_limit.specs.Judging.{left_of};

use crate::counts::Counts;
use crate::window::Window;
use std::marker::Model;

/// Windows, each with a number: the limits of a hit, or what is left of them. Contracts see a list. There are four at
/// most, one of each window, and they take no memory of their own.
#[derive(Drop)]
pub struct Limits {
    limits: [(Window, u64); 4],
    len: usize,
}

impl Model for Limits {
    ghost use Rattle.std.specs.Prelude.{List, ℕ, ◌≡◌, ◌≤◌, length, take};
    ghost use Rattle.kg_limit.specs.declared.window.Window.{Window as AWindow};

    ghost Value = { List (AWindow × ℕ) };

    ghost view = { λ limits. take limits.len limits.limits };

    ghost invariant = { λ limits. (limits.len ≤ 4) × (length limits.limits ≡ 4) };
}

impl Limits {
    /// No limits.
    pub fn new() -> Limits
        ensures { result ≡ [] }
    {
        Limits {
            limits: [(Window::Second, 0); 4],
            len: 0,
        }
    }

    /// Adds a limit at the end.
    pub fn push(&mut self, limit: (Window, u64))
        requires { length self.old < 4 }
        ensures { self.new ≡ self.old ++ limit ∷ [] }
    {
        let len = self.len;
        self.limits[len] = limit;
        self.len = len + 1;
    }

    /// Are there four?
    pub fn is_full(&self) -> bool
        ensures { IsTrue result ↔ (4 ≤ length self.now) }
    {
        self.len >= 4
    }

    pub fn as_slice(&self) -> &[(Window, u64)]
        ensures { result.now ≡ self.now }
    {
        &self.limits[..self.len]
    }

    /// A copy of the limits.
    pub(crate) fn copy(&self) -> Limits
        ensures { result ≡ self.now }
    {
        Limits {
            limits: self.limits,
            len: self.len,
        }
    }

    /// Puts in the place of each limit what is left of it at a time, where so many were let through before.
    pub(crate) fn count_down(&mut self, counts: &Counts, time: u64, let_through: bool)
        ensures { self.new ≡ map (left_after counts.now time let_through) self.old }
    {
        count_down(&mut self.limits, counts, time, let_through);
    }
}

fn count_down(limits: &mut [(Window, u64)], counts: &Counts, time: u64, let_through: bool)
    ensures { limits.new ≡ map (left_after counts.now time let_through) limits.old }
{
    for limit in limits {
        limit.1 = left_of(let_through, counts.used(limit.0, time), limit.1);
    }
}

// How many further ones may be let through.
fn left_of(let_through: bool, used: u64, limit: u64) -> u64
    ensures { result ≡ left_of let_through used limit }
{
    let unused = limit.saturating_sub(used);
    if let_through {
        unused.saturating_sub(1)
    } else {
        unused
    }
}
