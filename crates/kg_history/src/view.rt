//! What each holder of a history knows of it, and the four kinds of step: append, look, split, join. All of this is
//! for proofs: no value of a view is made.

use atomic_table::{Join, Play, Split, TableRule};
use std::collections::LinkedList;

/// What a writer, a pass or a note knows.
pub(crate) struct View<E> {
    /// It is the writer's.
    pub(crate) writes: bool,
    /// The entries that it has seen.
    pub(crate) seen: LinkedList<E>,
    /// The entries that a note told, until the load that follows.
    pub(crate) told: LinkedList<E>,
    /// How often it has looked.
    pub(crate) looks: u64,
    /// What its latest look answered; 0 before the first.
    pub(crate) last: u64,
}

/// The rule that each step keeps.
pub(crate) struct Rule;

impl<E> TableRule<E, View<E>, ()> for Rule {
    ghost use Rattle.kg_history.specs.Views.{IsKept, first_view};

    ghost holds = { λ _ state. IsKept state };

    ghost first = { λ _. first_view };
}

/// The writer adds an entry.
pub(crate) struct Append;

impl<E> Play<E, View<E>> for Append {
    ghost use Rattle.kg_history.specs.Views.{Appends};

    ghost then = { Appends };
}

/// A pass reads the length, and counts that.
pub(crate) struct Look;

impl<E> Play<E, View<E>> for Look {
    ghost use Rattle.kg_history.specs.Views.{Looks};

    ghost then = { Looks };
}

/// What a note told is read off the length. No look is counted.
pub(crate) struct Learn;

impl<E> Play<E, View<E>> for Learn {
    ghost use Rattle.kg_history.specs.Views.{Learns};

    ghost then = { Learns };
}

/// Notes are split off, and joined by who is told.
pub(crate) struct Notes;

impl<E> Split<View<E>> for Notes {
    ghost use Rattle.kg_history.specs.Views.{noted};

    ghost left = { λ view. view };

    ghost right = { noted };
}

impl<E> Join<View<E>> for Notes {
    ghost use Rattle.kg_history.specs.Views.{spent, told};

    ghost both = { told };

    ghost spent = { spent };
}
