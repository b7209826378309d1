//! The writer of a history.

ghost use Rattle.std.specs.Prelude.{◌≡◌, ◌<◌, ◌^◌, [], ◌∷◌, ◌++◌, IfOk, length};
ghost use mathlib.Core.List.{IsPrefix};
ghost use Rattle.std.specs.Arc.{arc_value};
ghost use Rattle.kg_history.specs.Seats.{IsBlank};
ghost use Rattle.kg_history.specs.Sights.{IsFresh};

use crate::name::HistoryName;
use crate::note::Note;
use crate::pass::Pass;
use crate::table::Length;
use crate::view::{Append, Learn, Notes, View};
use atomic_table::Seat;
use kg_text::NoMemory;
use std::alloc::Global;
use std::marker::{Model, PhantomData};
use std::sync::Arc;

/// Adds entries. There is one of each history, and contracts see the whole list.
#[derive(Drop)]
pub struct Writer<E, N: HistoryName> {
    table: Arc<Length<E>, Global>,
    seat: Seat<E, View<E>>,
    len: u64,
    of: PhantomData<N>,
}

impl<E, N: HistoryName> Model for Writer<E, N> {
    ghost use Rattle.std.specs.Prelude.{List};
    ghost use Rattle.std.specs.Arc.{arc_value};
    ghost use Rattle.kg_history.specs.Seats.{IsWriter};

    ghost Value = { List E };

    ghost view = { λ writer. writer.seat.me.0.seen };

    ghost invariant = { λ writer. IsWriter N.history (arc_value writer.table).shared.table_id writer.seat writer.len };
}

impl<E: Drop, N: HistoryName> Writer<E, N> {
    /// The writer of a history that was just made.
    pub(crate) fn of(table: Arc<Length<E>, Global>, seat: Seat<E, View<E>>) -> Writer<E, N>
        requires { IsBlank (arc_value table).shared.table_id seat × (seat.table_id ≡ N.history) }
        ensures { result ≡ [] }
    {
        Writer {
            table,
            seat,
            len: 0,
            of: PhantomData,
        }
    }

    /// A pass that has seen all entries so far.
    pub(crate) fn new_pass(&mut self) -> Result<Pass<E, N>, NoMemory>
        ensures pass { IfOk result (λ pass. IsFresh pass self.old) }
        ensures same { self.new ≡ self.old }
    {
        let table = Arc::try_clone(&self.table)?;
        let seat = self.table.shared.split_seat::<Notes>(&mut self.seat);
        Ok(Pass {
            table,
            seat,
            of: PhantomData,
        })
    }

    /// How many entries there are.
    pub fn len(&self) -> u64
        ensures { result ≡ length self.now }
    {
        self.len
    }

    /// Adds an entry, and answers how many there are then. It takes no memory.
    pub fn append(&mut self, entry: &E) -> u64
        requires { length self.old < 2 ^ 63 }
        ensures list { self.new ≡ self.old ++ entry.now ∷ [] }
        ensures length { result ≡ length self.new }
    {
        let old = self.len;
        self.table
            .shared
            .compare_exchange_with::<Append>(&mut self.seat, 0, old, old + 1, entry);
        self.len = old + 1;
        self.len
    }

    /// Tells all entries.
    pub fn note(&mut self) -> Note<E, N>
        ensures note { result ≡ self.old }
        ensures same { self.new ≡ self.old }
    {
        Note {
            seat: self.table.shared.split_seat::<Notes>(&mut self.seat),
            of: PhantomData,
        }
    }

    /// Takes a note: what it tells is the front of this list.
    pub fn tie(&mut self, note: Note<E, N>)
        ensures front { IsPrefix note self.old }
        ensures same { self.new ≡ self.old }
    {
        let Note { seat, of: _ } = note;
        self.table.shared.join_seat::<Notes>(&mut self.seat, seat);
        self.table.shared.load::<Learn>(&mut self.seat, 0);
    }

    /// Lets a pass see all entries.
    #[tactic(auto, using(crate::proofs::Prefixes::prefix_both))]
    pub fn show(&mut self, pass: &mut Pass<E, N>)
        ensures whole { pass.new.seen ≡ self.old }
        ensures front { IsPrefix pass.old.seen self.old }
        ensures same { self.new ≡ self.old }
        ensures looks { (pass.new.looks ≡ pass.old.looks) × (pass.new.last ≡ pass.old.last) }
    {
        pass.meet(self.note());
        self.tie(pass.note());
    }
}
