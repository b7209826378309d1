//! What is decided of a change that is asked for.

ghost use Rattle.std.specs.Prelude.{◌≡◌, Ok, IfOk, IsTrue};
ghost use Rattle.serde_json.specs.View.{view};
ghost use Rattle.kg_row_changes.specs.Allowed.{is_allowed};
ghost use Rattle.kg_rows.specs.Decision.{Decides, IsProper, decision, deletion, insertion, patched, put_over, replaced, still_named, unless};
ghost use Rattle.kg_rows.specs.References.{link_of};
ghost use Rattle.kg_row_making.specs.Bases as over;
ghost use Rattle.kg_row_making.specs.Bases.{made_at};
ghost use Rattle.kg_row_types.specs.Entities.{id_of_row};
ghost use Rattle.kg_row_types.specs.ValidRows.{AreValidRows, IsValidRow};
ghost use Rattle.kg_row_changes.specs.ValidCommands.{IsValidCommand};
ghost use Rattle.kg_row_queries.specs.RowRefs.{row_at};
ghost use Rattle.kg_row_queries.specs.Selections.{rows_in, selected};
ghost use Rattle.kg_row_values.specs.declared.command.Command.TheVariants as command;

use crate::base::{base_by, made_at};
use crate::draft::{DecideError, Draft, Refusal};
use crate::links::link_of;
use crate::proposal::{inserted, replaced};
use kg_entities::{Id, Kind, Rows};
use kg_row_changes::admit::is_unused;
use kg_row_queries::{Collection, Parent, RowRef, Select, collection_of, selected_in};
use kg_row_values::command::Command;
use kg_schema::{Base, Form, Links};
use kg_text::{NoMemory, Text};
use std::alloc::Global;

/// The command that makes the change, or why it is refused: the first refusal in the order of
/// `specs/Decision.antt`. What it gives is allowed, and at valid rows the row that it puts is valid. It
/// never answers [`Refusal::HistoryFull`].
pub fn decide(alloc: Global, rows: &Rows, draft: &Draft, limit: u32) -> Result<Command, DecideError>
    requires { IsProper draft.now }
    ensures decision { Decides result (decision rows.now draft.now limit) }
    ensures allowed { IfOk result (λ command. IsTrue (is_allowed rows.now command limit)) }
    ensures valid { AreValidRows rows.now → IfOk result IsValidCommand }
{
    decided(alloc, rows, draft, limit) // apart: that it is allowed is proved of any such decision
}

fn decided(alloc: Global, rows: &Rows, draft: &Draft, limit: u32) -> Result<Command, DecideError>
    requires { IsProper draft.now }
    ensures decision { Decides result (decision rows.now draft.now limit) }
    ensures valid { AreValidRows rows.now → IfOk result IsValidCommand }
{
    match draft {
        Draft::Insert {
            parent,
            form,
            id,
            now,
            ..
        } => insertion(alloc, rows, parent, form, *id, *now, limit),
        Draft::Patch {
            kind,
            parent,
            select,
            form,
            now,
        } => patched(alloc, rows, *kind, parent, select, form, *now),
        Draft::Put {
            kind,
            parent,
            select,
            form,
            id,
            now,
        } => match collection_of(rows, parent) {
            Some(collection) => put(
                alloc,
                rows,
                *kind,
                &collection,
                select,
                form,
                *id,
                *now,
                limit,
            ),
            None => Err(DecideError::Refused(Refusal::NotFound)),
        },
        Draft::Delete {
            kind,
            parent,
            select,
        } => deletion(alloc, rows, *kind, parent, select),
    }
}

fn insertion(
    alloc: Global,
    rows: &Rows,
    parent: &Option<Parent>,
    form: &Form,
    id: Id,
    now: u64,
    limit: u32,
) -> Result<Command, DecideError>
    ensures decided { Decides result (insertion rows.now form.now.kind parent.now (view form.now.body) id now limit) }
    ensures valid { IfOk result IsValidCommand }
{
    match collection_of(rows, parent) {
        Some(collection) => {
            let base = Base::New { id, now };
            let above = link_of(&collection);
            inserted(alloc, rows, form, &base, &above, limit)
        }
        None => Err(DecideError::Refused(Refusal::NotFound)),
    }
}

fn patched(
    alloc: Global,
    rows: &Rows,
    kind: Kind,
    parent: &Option<Parent>,
    select: &Select,
    form: &Form,
    now: u64,
) -> Result<Command, DecideError>
    requires { form.now.kind ≡ kind }
    ensures decided { Decides result (patched rows.now kind parent.now select.now (view form.now.body) now) }
    ensures valid { AreValidRows rows.now → IfOk result IsValidCommand }
{
    match collection_of(rows, parent) {
        Some(collection) => match selected_in(rows, kind, &collection, select) {
            Some(old) => changed(alloc, rows, form, &link_of(&collection), old, now),
            None => Err(DecideError::Refused(Refusal::NotFound)),
        },
        None => Err(DecideError::Refused(Refusal::NotFound)),
    }
}

// The fields of a row that the form sets are changed.
fn changed(
    alloc: Global,
    rows: &Rows,
    form: &Form,
    above: &Links,
    old: RowRef<'_>,
    now: u64,
) -> Result<Command, DecideError>
    ensures decided { Decides result (replaced rows.now form.now.kind (view form.now.body) (over.Old (row_at old.entry) now) above.now (row_at old.entry)) }
    ensures valid { IsValidRow (row_at old.entry) → IfOk result IsValidCommand }
{
    let row = old.copy(alloc)?;
    let base = Base::Old { row: &row, now };
    let answer = replaced(alloc, rows, form, &base, above, old);
    drop(row); // let go by name: a short proof
    answer
}

fn put(
    alloc: Global,
    rows: &Rows,
    kind: Kind,
    collection: &Collection,
    select: &Select,
    form: &Form,
    id: Id,
    now: u64,
    limit: u32,
) -> Result<Command, DecideError>
    requires { form.now.kind ≡ kind }
    ensures decided { Decides result (put_over rows.now kind select.now (view form.now.body) (link_of collection.now) (record { id = id; now = now; limit = limit }) (selected kind select.now (rows_in collection.now rows.now))) }
    ensures valid { IfOk result IsValidCommand }
{
    let above = link_of(collection);
    match selected_in(rows, kind, collection, select) {
        Some(old) => put_again(alloc, rows, form, &above, old, now),
        None => match base_by(alloc, kind, select, id, now) {
            Ok(Some(base)) => inserted(alloc, rows, form, &base, &above, limit),
            Ok(None) => Err(DecideError::Refused(Refusal::NotFound)),
            Err(NoMemory) => Err(DecideError::NoMemory),
        },
    }
}

// Makes a row again: its id and its creation stay.
fn put_again(
    alloc: Global,
    rows: &Rows,
    form: &Form,
    above: &Links,
    old: RowRef<'_>,
    now: u64,
) -> Result<Command, DecideError>
    ensures decided { Decides result (replaced rows.now form.now.kind (view form.now.body) (over.Again (id_of_row (row_at old.entry)) (made_at (row_at old.entry)) now) above.now (row_at old.entry)) }
    ensures valid { IfOk result IsValidCommand }
{
    let id = old.id();
    let created_at = made_at(&old);
    let base = Base::Again {
        id,
        created_at,
        now,
    };
    replaced(alloc, rows, form, &base, above, old)
}

fn deletion(
    alloc: Global,
    rows: &Rows,
    kind: Kind,
    parent: &Option<Parent>,
    select: &Select,
) -> Result<Command, DecideError>
    ensures decided { Decides result (deletion rows.now kind parent.now select.now) }
    ensures valid { IfOk result IsValidCommand }
{
    match collection_of(rows, parent) {
        Some(collection) => match selected_in(rows, kind, &collection, select) {
            Some(old) => deleted(alloc, rows, kind, old.id()),
            None => Err(DecideError::Refused(Refusal::NotFound)),
        },
        None => Err(DecideError::Refused(Refusal::NotFound)),
    }
}

fn deleted(alloc: Global, rows: &Rows, kind: Kind, id: Id) -> Result<Command, DecideError>
    ensures decided { Decides result (unless (still_named kind id rows.now) (Ok (command.Delete kind id))) }
    ensures valid { IfOk result IsValidCommand }
{
    if is_unused(kind, id, rows) {
        return Ok(Command::Delete { kind, id });
    }
    Err(DecideError::Refused(Refusal::Foreign {
        field: Text::from_str(alloc, "routes")?,
        present: true,
    }))
}
