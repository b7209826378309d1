//! What is told of a history.

use crate::name::HistoryName;
use crate::view::View;
use atomic_table::Seat;
use std::marker::{Model, PhantomData};

/// Tells what its maker had seen. Contracts see that list.
#[derive(Drop)]
pub struct Note<E, N: HistoryName> {
    pub(crate) seat: Seat<E, View<E>>,
    pub(crate) of: PhantomData<N>,
}

impl<E, N: HistoryName> Model for Note<E, N> {
    ghost use Rattle.std.specs.Prelude.{List};
    ghost use Rattle.kg_history.specs.Seats.{IsSeat};

    ghost Value = { List E };

    ghost view = { λ note. note.seat.me.0.seen };

    ghost invariant = { λ note. IsSeat N.history note.seat };
}
