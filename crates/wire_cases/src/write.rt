//! How all of a text is written.

use crate::short_sink::ShortSink;
use case_lines::{Args, numbers_of, put, put_bytes};
use kg_outside::MemSink;
use kg_text::NoMemory;
use kg_wire::write_whole;
use std::alloc::Global;

/// Adds what becomes of texts that are written one after another to a sink that takes at most so many bytes a
/// call while the listed calls fail, and then all that was written.
pub fn put_writes(alloc: Global, out: &mut String, args: &Args) -> Result<(), NoMemory> {
    let sink = MemSink::new(alloc, numbers_of(alloc, args.text(1))?);
    let mut sink = ShortSink::new(sink, args.number(0));
    put_each(out, &mut sink, args.text(2))?;
    put_bytes(out, sink.written())
}

fn put_each(out: &mut String, sink: &mut ShortSink, texts: &str) -> Result<(), NoMemory> {
    for text in texts.split(',') {
        put_write(out, sink, text.as_bytes())?;
    }
    Ok(())
}

fn put_write(out: &mut String, sink: &mut ShortSink, text: &[u8]) -> Result<(), NoMemory> {
    match write_whole(sink, text) {
        Ok(()) => put(out, "whole, "),
        Err(_) => put(out, "failed, "),
    }
}
