//! Pages of rows.

use crate::label::put_id;
use crate::path::{Target, target_of};
use case_lines::{put, split};
use kg_entities::{Entity, Id, Rows};
use kg_rows::{Page, page_of};
use kg_text::NoMemory;
use std::alloc::Global;

/// Adds the page of a line: its size, its path, and the id behind which it begins.
pub fn put_page(alloc: Global, out: &mut String, rows: &Rows, line: &str) -> Result<(), NoMemory> {
    let (size, rest) = split(line, " ");
    let (path, offset) = split(rest, " ");
    let offset = Id::parse(offset.as_bytes());
    let target = target_of(alloc, path)?;
    let told = put_page_at(alloc, out, rows, &target, offset, size.parse().unwrap_or(0));
    drop(target); // let go by name: a short proof
    told
}

fn put_page_at(
    alloc: Global,
    out: &mut String,
    rows: &Rows,
    target: &Option<Target>,
    offset: Option<Id>,
    size: u32,
) -> Result<(), NoMemory> {
    match target {
        Some(target) => {
            let page = page_of(alloc, rows, target.kind, &target.parent, offset, size)?;
            let told = put_rows(alloc, out, &page);
            drop(page); // let go by name: a short proof
            told
        }
        None => put(out, "no such path"),
    }
}

fn put_rows(alloc: Global, out: &mut String, page: &Option<Page>) -> Result<(), NoMemory> {
    match page {
        Some(page) => put_ids(alloc, out, page.rows.as_slice(), page.more),
        None => put(out, "none"),
    }
}

fn put_ids(alloc: Global, out: &mut String, rows: &[Entity], more: bool) -> Result<(), NoMemory> {
    for row in rows {
        put_id(alloc, out, row.id())?;
        put(out, " ")?;
    }
    put(out, if more { "and more" } else { "and no more" })
}
