//! How the answering of the requests ends.

use crate::whole::{source_of, words_of};
use case_lines::{Args, numbers_of, put};
use kg_lone::{End, run_to_end};
use kg_outside::{CountIds, MemSink, StillClock};
use kg_text::NoMemory;
use std::alloc::Global;

/// Adds how a run over these bytes ends, while the listed calls of the source and of the sink fail; its status,
/// where it doesn't come to an end.
pub fn put_end(alloc: Global, out: &mut String, args: &Args) -> Result<(), NoMemory> {
    let mut source = source_of(alloc, args.at(2), 4096, args.text(0))?;
    let mut sink = MemSink::new(alloc, numbers_of(alloc, args.text(1))?);
    let words = words_of(alloc, "dry")?;
    let mut ids = CountIds::new();
    match run_to_end(
        alloc,
        &words,
        &mut source,
        &mut sink,
        &mut StillClock(0),
        &mut ids,
    ) {
        Ok(end) => put_known_end(out, end),
        Err(status) => put_counted(out, "status ", u64::from(status)),
    }
}

fn put_known_end(out: &mut String, end: End) -> Result<(), NoMemory> {
    match end {
        End::Closed => put(out, "closed"),
        End::Asked => put(out, "asked"),
        End::Spent => put(out, "spent"),
        End::Bad { at } => put_counted(out, "refused at ", at),
        End::Cut { have } => put_counted(out, "cut after ", have),
    }
}

fn put_counted(out: &mut String, text: &'static str, number: u64) -> Result<(), NoMemory> {
    write!(out, "{text}{number}")?;
    Ok(())
}
