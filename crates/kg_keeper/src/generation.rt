//! The rows of a generation.

ghost use Rattle.std.specs.Prelude.{◌≡◌, ◌++◌, IfOk, OnOk};
ghost use Rattle.kg_keeper.specs.Answers.{generation_in};
ghost use Rattle.kg_row_values.specs.Values.{generation_of};
ghost use Rattle.kg_row_types.specs.Values.{RouterRows};

use crate::answer::GenRows;
use kg_entities::{GenKey, Route, Row, RowTable, Rows, Service, Walk};
use kg_text::{List, NoMemory, TryClone};
use std::alloc::Global;

/// Copies of the rows of a generation.
pub(crate) fn rows_of(alloc: Global, rows: &Rows, which: GenKey) -> Result<GenRows, NoMemory>
    ensures { IfOk result (λ got. generation_in got ≡ generation_of rows.now which) }
{
    match which {
        GenKey::Router => match copied(alloc, rows.services()) {
            Ok(services) => with_routes(alloc, services, rows.routes()),
            Err(NoMemory) => Err(NoMemory),
        },
        GenKey::Plugins => match copied(alloc, rows.plugins()) {
            Ok(plugins) => Ok(GenRows::Plugins(plugins)),
            Err(NoMemory) => Err(NoMemory),
        },
    }
}

fn with_routes(
    alloc: Global,
    services: List<Service>,
    routes: &RowTable<Route>,
) -> Result<GenRows, NoMemory>
    ensures { IfOk result (λ got. generation_in got ≡ RouterRows services routes.now) }
{
    match copied(alloc, routes) {
        Ok(routes) => Ok(GenRows::Router { services, routes }),
        Err(NoMemory) => {
            drop(services); // let go by name: a short proof
            Err(NoMemory)
        }
    }
}

fn copied<T: Row + TryClone>(alloc: Global, rows: &RowTable<T>) -> Result<List<T>, NoMemory>
    ensures { IfOk result (λ list. list ≡ rows.now) }
{
    let mut list = List::new(alloc);
    match put_copies(alloc, rows.walk(), &mut list) {
        Ok(()) => Ok(list),
        Err(NoMemory) => {
            drop(list); // let go by name: a short proof
            Err(NoMemory)
        }
    }
}

fn put_copies<T: Row + TryClone>(
    alloc: Global,
    rows: Walk<'_, T>,
    list: &mut List<T>,
) -> Result<(), NoMemory>
    ensures { OnOk result (list.new ≡ list.old ++ rows.entry) }
{
    for row in rows {
        list.push(row.try_clone(alloc)?)?;
    }
    Ok(())
}
