//! How a command changes the rows.

ghost use Rattle.std.specs.Prelude.{◌≡◌, IsTrue, IfOk, OnOk, OnErr};
ghost use Rattle.kg_row_changes.specs.Allowed.{is_consistent};
ghost use Rattle.kg_row_values.specs.Changes.{NamesChanges};
ghost use Rattle.kg_row_values.specs.Rows.{changed, deleted};
ghost use Rattle.kg_row_changes.specs.ValidCommands.{IsValidCommand};
ghost use Rattle.kg_row_types.specs.ValidRows.{AreValidRows, HasDistinctRows, HasReferences};

use crate::candidates::candidates;
use indexmap::IndexSet;
use kg_entities::{Id, Kind, Rows};
use kg_row_values::command::Command;
use kg_row_values::generations::changed_generations;
use kg_row_values::touched::Touched;
use kg_row_values::watch::{differing, listed, watch};
use kg_text::NoMemory;
use std::alloc::Global;

/// Changes the rows as the command says, and tells exactly the keys and generations whose values
/// differ after it. It takes its memory first: without memory the rows are as before. Valid rows stay
/// valid where the row that is put is valid; what only one row may have stays with one, and what a row
/// names stays there.
pub fn apply(alloc: Global, rows: &mut Rows, command: &Command) -> Result<Touched, NoMemory>
    requires { IsTrue (is_consistent rows.old command.now) }
    ensures ok { OnOk result (rows.new ≡ changed command.now rows.old) }
    ensures touched { IfOk result (λ touched. NamesChanges rows.old (changed command.now rows.old) touched) }
    ensures err { OnErr result (rows.new ≡ rows.old) }
    ensures valid { IsValidCommand command.now → AreValidRows rows.old → AreValidRows rows.new }
    ensures distinct { HasDistinctRows rows.old → HasDistinctRows rows.new }
    ensures references { HasReferences rows.old → HasReferences rows.new }
{
    let asked = candidates(alloc, rows, command)?;
    let watched = watch(alloc, rows, asked)?;
    let room = IndexSet::with_capacity(alloc, watched.len())?;
    let list = Vec::with_capacity(alloc, watched.len())?;
    let gens = changed_generations(alloc, rows, command)?;
    run(alloc, rows, command)?;
    let keys = listed(differing(rows, watched, room), list);
    Ok(Touched { keys, gens })
}

fn run(alloc: Global, rows: &mut Rows, command: &Command) -> Result<(), NoMemory>
    requires { IsTrue (is_consistent rows.old command.now) }
    ensures ok { OnOk result (rows.new ≡ changed command.now rows.old) }
    ensures err { OnErr result (rows.new ≡ rows.old) }
{
    match command {
        Command::Insert(new) => rows.insert(alloc, new),
        Command::Update(new) => rows.replace(alloc, new),
        Command::Delete { kind, id } => {
            delete(rows, *kind, *id);
            Ok(())
        }
    }
}

// Takes out the row, and what can't stand without it.
fn delete(rows: &mut Rows, kind: Kind, id: Id)
    ensures { rows.new ≡ deleted kind id rows.old }
{
    rows.remove(kind, id);
    match kind {
        Kind::Service => rows.remove_plugins_of(Kind::Service, id),
        Kind::Route => rows.remove_plugins_of(Kind::Route, id),
        Kind::Consumer => {
            rows.remove_credentials_of(id);
            rows.remove_plugins_of(Kind::Consumer, id);
        }
        Kind::KeyCred => {}
        Kind::BasicCred => {}
        Kind::Acl => {}
        Kind::Plugin => {}
    }
}
