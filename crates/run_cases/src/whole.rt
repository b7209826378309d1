//! Whole runs.

use case_lines::{numbers_of, put, put_bytes};
use kg_lone::run;
use kg_outside::{Clock, CountIds, ListClock, MemSink, MemSource, StillClock};
use kg_text::{Bytes, List, NoMemory, Text};
use std::alloc::Global;

// The longest output that is printed whole, in bytes.
const LONGEST: usize = 4096;

/// Adds the status of a run with these words over these bytes in such pieces, while the listed calls of the
/// source and of the sink fail, and what it writes.
pub fn put_run(
    alloc: Global,
    out: &mut String,
    words: &str,
    bytes: &[u8],
    piece: usize,
    fails: (&str, &str),
) -> Result<(), NoMemory> {
    let mut sink = MemSink::new(alloc, numbers_of(alloc, fails.1)?);
    let mut source = source_of(alloc, bytes, piece, fails.0)?;
    let status = status_of(alloc, words, &mut source, &mut sink, &mut StillClock(0))?;
    put_status(out, status)?;
    put_written(out, sink.written())
}

/// A source of these bytes in such pieces, of which the listed calls fail.
pub fn source_of(
    alloc: Global,
    bytes: &[u8],
    piece: usize,
    fails: &str,
) -> Result<MemSource, NoMemory> {
    let fails = numbers_of(alloc, fails)?;
    match Bytes::from_slice(alloc, bytes) {
        Ok(bytes) => Ok(MemSource::new(bytes, piece.max(1), fails)),
        Err(NoMemory) => {
            drop(fails);
            Err(NoMemory)
        }
    }
}

/// The status of a run with these words.
pub fn status_of<C: Clock>(
    alloc: Global,
    words: &str,
    source: &mut MemSource,
    sink: &mut MemSink,
    clock: &mut C,
) -> Result<u8, NoMemory> {
    let words = words_of(alloc, words)?;
    let mut ids = CountIds::new();
    Ok(run(alloc, &words, source, sink, clock, &mut ids))
}

/// The words of a text.
pub fn words_of(alloc: Global, words: &str) -> Result<List<Text>, NoMemory> {
    let mut list = List::new(alloc);
    for word in words.split(' ') {
        if !word.is_empty() {
            list.push(Text::from_str(alloc, word)?)?;
        }
    }
    Ok(list)
}

fn put_status(out: &mut String, status: u8) -> Result<(), NoMemory> {
    write!(out, "{status}, ")?;
    Ok(())
}

// Adds what was written; of more than 4096 bytes only the number.
fn put_written(out: &mut String, bytes: &[u8]) -> Result<(), NoMemory> {
    if bytes.is_empty() {
        return put(out, "nothing");
    }
    if bytes.len() > LONGEST {
        write!(out, "{} bytes", bytes.len())?;
        return Ok(());
    }
    put_bytes(out, bytes)
}

/// Adds the status of a run over these bytes, and how often it reads the clock.
pub fn put_clock(alloc: Global, out: &mut String, bytes: &[u8]) -> Result<(), NoMemory> {
    let mut sink = MemSink::new(alloc, List::new(alloc));
    let mut source = source_of(alloc, bytes, 4096, "")?;
    let mut clock = ListClock::new(numbers_of(alloc, "7,8,9")?);
    let status = status_of(alloc, "dry", &mut source, &mut sink, &mut clock)?;
    put_status(out, status)?;
    write!(out, "{}", clock.made())?;
    Ok(())
}

/// Adds the status of a run over these bytes with these readings of the clock, of which the last comes again, and
/// what it writes.
pub fn put_timed(
    alloc: Global,
    out: &mut String,
    readings: &str,
    bytes: &[u8],
) -> Result<(), NoMemory> {
    let mut sink = MemSink::new(alloc, List::new(alloc));
    let mut source = source_of(alloc, bytes, 4096, "")?;
    let mut clock = ListClock::new(numbers_of(alloc, readings)?);
    let status = status_of(alloc, "dry", &mut source, &mut sink, &mut clock)?;
    put_status(out, status)?;
    put_written(out, sink.written())
}
