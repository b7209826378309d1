//! Histories without a name yet.

ghost use Rattle.std.specs.Prelude.{◌≡◌, ◌<◌, ◌∷◌, ◌++◌, [], All, IfOk, OnOk, length};
ghost use Rattle.kg_history.specs.Sights.{IsFresh};

use crate::name::HistoryName;
use crate::pass::Pass;
use crate::table::Length;
use crate::view::View;
use crate::writer::Writer;
use atomic_table::Seat;
use kg_text::NoMemory;
use std::alloc::Global;
use std::marker::{Model, PhantomData};
use std::sync::Arc;

/// An empty history without a name. Contracts see which history it is, and how many passes it will have.
#[derive(Drop)]
pub struct Blank<E> {
    table: Arc<Length<E>, Global>,
    seat: Seat<E, View<E>>,
    passes: usize,
}

impl<E> Model for Blank<E> {
    ghost use Rattle.std.specs.Arc.{arc_value};
    ghost use Rattle.kg_history.specs.Seats.{IsBlank};
    ghost use Rattle.kg_history.specs.Sights.{Unnamed};

    ghost Value = { Unnamed };

    ghost view = { λ blank. record { history = blank.seat.table_id; passes = blank.passes } };

    ghost invariant = { λ blank. IsBlank (arc_value blank.table).shared.table_id blank.seat };
}

/// An empty history that will have so many passes.
pub fn make<E: Drop>(alloc: Global, passes: usize) -> Result<Blank<E>, NoMemory>
    requires { 0 < passes }
    ensures { IfOk result (λ blank. blank.passes ≡ passes) }
{
    let (table, seat) = Length::<E>::of_words(alloc, &[0], &())?;
    let table = Arc::new(alloc, table)?;
    Ok(Blank {
        table,
        seat,
        passes,
    })
}

impl<E: Drop> Blank<E> {
    /// The history's writer and its passes, under a name. Without memory the history is gone.
    pub fn open<N: HistoryName>(
        self,
        alloc: Global,
    ) -> Result<(Writer<E, N>, Vec<Pass<E, N>>), NoMemory>
        requires { self.history ≡ N.history }
        ensures writer { IfOk result (λ opened. opened.0 ≡ []) }
        ensures count { IfOk result (λ opened. length opened.1.items ≡ self.passes) }
        ensures passes { IfOk result (λ opened. All (λ pass. IsFresh pass []) opened.1.items) }
    {
        let Blank {
            table,
            seat,
            passes,
        } = self;
        let mut writer = Writer::of(table, seat);
        let mut all = Vec::with_capacity(alloc, passes)?;
        for _ in 0..passes {
            let pass = writer.new_pass()?;
            add(&mut all, pass)?;
        }
        Ok((writer, all))
    }
}

fn add<E: Drop, N: HistoryName>(
    passes: &mut Vec<Pass<E, N>>,
    pass: Pass<E, N>,
) -> Result<(), NoMemory>
    ensures { OnOk result (passes.new.items ≡ passes.old.items ++ pass ∷ []) }
{
    passes.push(pass)?;
    Ok(())
}
