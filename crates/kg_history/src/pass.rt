//! What a thread has seen of a history.

ghost use Rattle.std.specs.Prelude.{◌≡◌, ◌+◌, length};
ghost use mathlib.Core.List.{IsPrefix};
ghost use Rattle.kg_history.specs.Sights.{Sight};

use crate::name::HistoryName;
use crate::note::Note;
use crate::table::Length;
use crate::view::{Learn, Look, Notes, View};
use atomic_table::Seat;
use std::alloc::Global;
use std::marker::{Model, PhantomData};
use std::sync::Arc;

/// What one thread has seen, which is the front of the writer's list. Contracts see that, how often it looked, and
/// what the latest look answered.
#[derive(Drop)]
pub struct Pass<E, N: HistoryName> {
    pub(crate) table: Arc<Length<E>, Global>,
    pub(crate) seat: Seat<E, View<E>>,
    pub(crate) of: PhantomData<N>,
}

impl<E, N: HistoryName> Model for Pass<E, N> {
    ghost use Rattle.std.specs.Arc.{arc_value};
    ghost use Rattle.kg_history.specs.Seats.{IsPass, sight_of};
    ghost use Rattle.kg_history.specs.Sights.{Sight};

    ghost Value = { Sight E };

    ghost view = { λ pass. sight_of pass.seat.me.0 };

    ghost invariant = { λ pass. IsPass N.history (arc_value pass.table).shared.table_id pass.seat };
}

impl<E: Drop, N: HistoryName> Pass<E, N> {
    /// Sees what there is, and answers how many entries that are. It is one atomic load.
    pub fn look(&mut self) -> u64
        ensures seen { IsPrefix self.old.seen self.new.seen }
        ensures length { result ≡ length self.new.seen }
        ensures looks { (self.new.looks ≡ self.old.looks + 1) × (self.new.last ≡ result) }
    {
        self.table.shared.load::<Look>(&mut self.seat, 0)
    }

    /// Tells what it has seen.
    pub fn note(&mut self) -> Note<E, N>
        ensures note { result ≡ self.old.seen }
        ensures same { self.new ≡ self.old }
    {
        Note {
            seat: self.table.shared.split_seat::<Notes>(&mut self.seat),
            of: PhantomData,
        }
    }

    /// Takes a note, sees at least what it tells, and answers how many entries it has then seen. Of what was seen
    /// and what the note tells one is the front of the other.
    pub fn meet(&mut self, note: Note<E, N>) -> u64
        ensures seen { IsPrefix self.old.seen self.new.seen }
        ensures note { IsPrefix note self.new.seen }
        ensures length { result ≡ length self.new.seen }
        ensures looks { (self.new.looks ≡ self.old.looks) × (self.new.last ≡ self.old.last) }
    {
        let Note { seat, of: _ } = note;
        self.table.shared.join_seat::<Notes>(&mut self.seat, seat);
        self.table.shared.load::<Learn>(&mut self.seat, 0)
    }
}
