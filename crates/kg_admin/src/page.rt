//! Pages of rows, as they are shown.

ghost use Rattle.std.specs.Prelude.{◌≡◌, ◌++◌, ℕ, Option, IfOk, OnOk, codes, decimal, map, string_bytes};
ghost use Rattle.serde_json.specs.Data.{string};
ghost use Rattle.serde_json.specs.View.{view};
ghost use Rattle.kg_admin.specs.AdminAnswers.{listed_response};
ghost use Rattle.kg_admin.specs.AdminResponses.{next_page, page_object, page_response};
ghost use Rattle.kg_keeper.specs.Answers.{page_got};
ghost use Rattle.kg_row_queries.specs.declared.pages.Page.{Page};
ghost use Rattle.kg_row_types.specs.Ids.{printed};
ghost use Rattle.kg_shown_rows.specs.Shown.{shown};

use crate::reply::{admin_response, json_text, not_found};
use itoa::Buffer;
use kg_entities::{Entity, Id};
use kg_keeper::PageGot;
use kg_message::Response;
use kg_schema::show_entity;
use kg_text::NoMemory;
use serde_json::{Map, Value, put};
use std::alloc::Global;

/// The page of at most `size` rows of the list at this path, or that its parent isn't there.
pub fn listed_response(
    alloc: Global,
    path: &str,
    size: u32,
    got: &PageGot,
) -> Result<Response, NoMemory>
    ensures { IfOk result (λ response. (page : Option Page) (at : ℕ) → got.now ≡ page_got page at → response ≡ listed_response path.now size page) }
{
    if got.parent_missing {
        return not_found(alloc);
    }
    page_response(alloc, path, size, got.rows.as_slice(), got.more)
}

#[tactic(auto, using(crate::proofs::ShownLemmas::page_whole))]
fn page_response(
    alloc: Global,
    path: &str,
    size: u32,
    rows: &[Entity],
    more: bool,
) -> Result<Response, NoMemory>
    ensures { IfOk result (λ response. response ≡ page_response path.now size (record { rows = rows.now; more = more })) }
{
    let next = next_page(alloc, path, size, more, rows)?;
    let page = page_object(alloc, rows, next)?;
    let body = json_text(alloc, &page);
    drop(page); // let go by name: a short proof
    admin_response(alloc, 200, body?)
}

fn page_object(alloc: Global, rows: &[Entity], next: Value) -> Result<Value, NoMemory>
    ensures { IfOk result (λ page. view page ≡ page_object rows.now (view next)) }
{
    let mut members = Map::new(alloc);
    put(
        &mut members,
        alloc,
        "data",
        Value::from(shown_rows(alloc, rows)?),
    )?;
    put(&mut members, alloc, "next", next)?;
    Ok(Value::from(members))
}

fn shown_rows(alloc: Global, rows: &[Entity]) -> Result<Vec<Value>, NoMemory>
    ensures { IfOk result (λ values. map view values.items ≡ map shown rows.now) }
{
    let mut values = Vec::with_capacity(alloc, rows.len())?;
    for row in rows {
        values.push(show_entity(alloc, row)?)?;
    }
    Ok(values)
}

fn next_page(
    alloc: Global,
    path: &str,
    size: u32,
    more: bool,
    rows: &[Entity],
) -> Result<Value, NoMemory>
    ensures { IfOk result (λ next. view next ≡ next_page path.now size more rows.now) }
{
    match rows.last() {
        Some(last) if more => next_path(alloc, path, size, last.id()),
        _ => Ok(Value::Null),
    }
}

// The path of the next page, above an id.
fn next_path(alloc: Global, path: &str, size: u32, last: Id) -> Result<Value, NoMemory>
    ensures { IfOk result (λ next. view next ≡ string (path.now ++ codes "?offset=" ++ printed last ++ codes "&size=" ++ decimal size)) }
{
    let mut next = String::from_str(alloc, path)?;
    next.push_str("?offset=")?;
    push_id(alloc, &mut next, last)?;
    next.push_str("&size=")?;
    next.push_str(Buffer::new().format(size))?;
    Ok(Value::String(next))
}

fn push_id(alloc: Global, text: &mut String, id: Id) -> Result<(), NoMemory>
    ensures { OnOk result (string_bytes text.new ≡ string_bytes text.old ++ printed id) }
{
    let printed = id.to_text(alloc)?;
    text.push_str(printed.as_str())?;
    Ok(())
}
