//! The row that a body makes, and why it is refused.

ghost use Rattle.std.specs.Prelude.{◌≡◌, None, Some, Ok, IfOk, IfErr, OnOk, option_map};
ghost use Rattle.serde_json.specs.View.{view};
ghost use Rattle.kg_rows.specs.Decision.{IsRefusedBy, Decides, Refuses, conflict, inserted, missing, proposed, replaced, taken_by_other, violation};
ghost use Rattle.kg_row_queries.specs.RowRefs.{row_at};
ghost use Rattle.kg_row_making.specs.Bases.{base_of};
ghost use Rattle.kg_row_types.specs.Entities.{id_of_row};
ghost use Rattle.kg_schema.specs.Between.{violations_between};
ghost use Rattle.kg_schema.specs.Finished.{row_over};
ghost use Rattle.kg_schema.specs.ValidBases.{IsValidBase};
ghost use Rattle.kg_row_changes.specs.ValidCommands.{IsValidCommand};
ghost use Rattle.kg_row_types.specs.ValidRows.{IsValidRow};

use crate::base::own_id;
use crate::draft::{DecideError, Refusal};
use crate::target::{
    Targets, contradicted_field, dangling_field, fixed_links, links_in, links_of, targets_in,
};
use kg_entities::{Entity, Id, Rows};
use kg_row_changes::claims::claimed;
use kg_row_queries::RowRef;
use kg_row_values::command::Command;
use kg_schema::{Base, Form, FormError, Links, ParentField, finish_under};
use kg_text::{NoMemory, Text};
use std::alloc::Global;

/// A new row, where the kind has room for it.
#[tactic(auto, unfolding(crate::specs::Decision::inserted))]
pub fn inserted(
    alloc: Global,
    rows: &Rows,
    form: &Form,
    base: &Base<'_>,
    above: &Links,
    limit: u32,
) -> Result<Command, DecideError>
    ensures decided { Decides result (inserted rows.now form.now.kind (view form.now.body) (base_of base.now) above.now limit) }
    ensures valid { IsValidBase form.now.kind (base_of base.now) → IfOk result IsValidCommand }
{
    match proposed(alloc, rows, form, base, above, None) {
        Ok(row) => {
            if rows.count(form.kind()) < limit as usize {
                return Ok(Command::Insert(row));
            }
            drop(row); // let go by name: a short proof
            Err(DecideError::Refused(Refusal::Full))
        }
        Err(e) => Err(e),
    }
}

/// A row in the place of a present one.
#[tactic(auto, unfolding(crate::specs::Decision::replaced))]
pub fn replaced(
    alloc: Global,
    rows: &Rows,
    form: &Form,
    base: &Base<'_>,
    above: &Links,
    present: RowRef<'_>,
) -> Result<Command, DecideError>
    ensures decided { Decides result (replaced rows.now form.now.kind (view form.now.body) (base_of base.now) above.now (row_at present.entry)) }
    ensures valid { IsValidBase form.now.kind (base_of base.now) → IfOk result IsValidCommand }
{
    // no `?` beside a made row: a short proof
    match proposed(alloc, rows, form, base, above, Some(present)) {
        Ok(row) => Ok(Command::Update(row)),
        Err(e) => Err(e),
    }
}

// The row that a body makes over a base, unless it is refused.
#[tactic(auto, unfolding(crate::specs::Decision::proposed))]
fn proposed(
    alloc: Global,
    rows: &Rows,
    form: &Form,
    base: &Base<'_>,
    above: &Links,
    present: Option<RowRef<'_>>,
) -> Result<Entity, DecideError>
    ensures ok { IfOk result (λ row. proposed rows.now form.now.kind (view form.now.body) (base_of base.now) above.now (option_map row_at present.entry) ≡ Ok row) }
    ensures refused { IfErr result (λ e. Refuses e (proposed rows.now form.now.kind (view form.now.body) (base_of base.now) above.now (option_map row_at present.entry))) }
    ensures valid { IsValidBase form.now.kind (base_of base.now) → IfOk result IsValidRow }
{
    let targets = targets_in(alloc, rows, form)?;
    // read for the proof alone, which has to know the field's type
    let _service = targets.service;
    let links = links_in(own_id(base), above, &targets);
    let field = contradicted_field(&fixed_links(above, present), &targets);
    let replaced = id_of(present);
    match finished(alloc, form, base, &links, field) {
        Ok(row) => match fit(alloc, rows, above, &targets, &row, replaced) {
            Ok(()) => Ok(row),
            Err(e) => {
                drop(row); // let go by name: a short proof
                Err(e)
            }
        },
        Err(e) => Err(e),
    }
}

fn id_of(present: Option<RowRef<'_>>) -> Option<Id>
    ensures { result ≡ option_map id_of_row (option_map row_at present.entry) }
{
    match present {
        Some(row) => Some(row.id()),
        None => None,
    }
}

// Refuses a row that names what isn't there, or has what another row has.
fn fit(
    alloc: Global,
    rows: &Rows,
    above: &Links,
    targets: &Targets,
    row: &Entity,
    replaced: Option<Id>,
) -> Result<(), DecideError>
    ensures ok { OnOk result (conflict rows.now above.now targets.now row.now replaced ≡ None) }
    ensures refused { IfErr result (λ e. IsRefusedBy e (conflict rows.now above.now targets.now row.now replaced)) }
{
    let named = links_of(row);
    if let Some(field) = dangling_field(rows, above, targets, &named) {
        return Err(DecideError::Refused(missing(alloc, field)?));
    }
    if let Some((field, other)) = claimed(rows, row, &replaced) {
        return Err(DecideError::Refused(taken_by_other(alloc, field, other)?));
    }
    Ok(())
}

// The finished row, unless it breaks rules between its fields.
#[tactic(auto, using(crate::proofs::RefusalLemmas::violation_of))]
fn finished(
    alloc: Global,
    form: &Form,
    base: &Base<'_>,
    links: &Links,
    field: Option<ParentField>,
) -> Result<Entity, DecideError>
    ensures row { IfOk result (λ row. row ≡ row_over form.now.kind (view form.now.body) (base_of base.now) links.now) }
    ensures valid { OnOk result (violation (violations_between form.now.kind (view form.now.body) (base_of base.now) links.now field) ≡ None) }
    ensures refused { IfErr result (λ e. IsRefusedBy e (violation (violations_between form.now.kind (view form.now.body) (base_of base.now) links.now field))) }
    ensures valid_row { IsValidBase form.now.kind (base_of base.now) → IfOk result IsValidRow }
{
    match finish_under(alloc, form, base, links, field) {
        Ok(row) => Ok(row),
        Err(FormError::Violation(broken)) => {
            Err(DecideError::Refused(Refusal::Violation(broken)))
        }
        Err(FormError::NoMemory) => Err(DecideError::NoMemory),
    }
}

fn missing(alloc: Global, field: &str) -> Result<Refusal, NoMemory>
    ensures { IfOk result (λ refusal. Some refusal ≡ missing (Some field.now)) }
{
    Ok(Refusal::Foreign {
        field: Text::from_str(alloc, field)?,
        present: false,
    })
}

fn taken_by_other(alloc: Global, field: &str, other: Id) -> Result<Refusal, NoMemory>
    ensures { IfOk result (λ refusal. Some refusal ≡ taken_by_other (Some (field.now, other))) }
{
    Ok(Refusal::Unique {
        field: Text::from_str(alloc, field)?,
        other,
    })
}
