//! The environment in memory.

use crate::ends::{put_by_turns, put_draws, put_readings, put_reads, put_writes};
use case_lines::{Args, numbers_of, put, put_bytes, put_number, put_unknown};
use kg_outside::{CountIds, ListClock, MemConn, MemSink, MemSource, Sink, StillClock};
use kg_text::{Bytes, NoMemory};
use std::alloc::Global;

pub fn put_outside_answer(
    alloc: Global,
    out: &mut String,
    call: &str,
    args: &Args,
) -> Result<(), NoMemory> {
    match call {
        "read" => put_read_answer(alloc, out, args),
        "write" => put_write_answer(alloc, out, args),
        "conn" => put_conn_answer(alloc, out, args),
        "clock" => put_clock_answer(alloc, out, args),
        "still" => put_still_answer(out, args),
        "ids" => put_draws(out, &mut CountIds::new(), args.number(0), args.number(1)),
        "much" => put_much(alloc, out, args.at(0), args.number(1)),
        _ => put_unknown(out),
    }
}

// A source of these bytes in such pieces, of which the listed calls fail.
fn source_of(
    alloc: Global,
    bytes: &[u8],
    piece: usize,
    fails: &str,
) -> Result<MemSource, NoMemory> {
    let fails = numbers_of(alloc, fails)?;
    match Bytes::from_slice(alloc, bytes) {
        Ok(bytes) => Ok(MemSource::new(bytes, piece.max(1), fails)),
        Err(NoMemory) => {
            drop(fails);
            Err(NoMemory)
        }
    }
}

// Of these bytes in such pieces while the listed calls fail: what so many reads into a room of such a size
// give.
fn put_read_answer(alloc: Global, out: &mut String, args: &Args) -> Result<(), NoMemory> {
    let mut source = source_of(alloc, args.at(0), args.number(1), args.text(2))?;
    put_reads(out, &mut source, args.number(3), args.number(4))
}

// What becomes of each text while the listed calls fail, and then all that was written.
fn put_write_answer(alloc: Global, out: &mut String, args: &Args) -> Result<(), NoMemory> {
    let mut sink = MemSink::new(alloc, numbers_of(alloc, args.text(1))?);
    put_writes(out, &mut sink, args.text(0))?;
    put_bytes(out, sink.written())
}

// Of these bytes in such pieces while the listed reads fail, and these texts while the listed writes fail:
// what a read of a byte and a write of a text give, by turns; then all that was written, and what two more
// reads give.
fn put_conn_answer(alloc: Global, out: &mut String, args: &Args) -> Result<(), NoMemory> {
    let mut conn = conn_of(alloc, args)?;
    match put_by_turns(out, &mut conn, args.text(3)) {
        Ok(()) => put_parts(out, conn),
        Err(NoMemory) => {
            drop(conn);
            Err(NoMemory)
        }
    }
}

fn conn_of(alloc: Global, args: &Args) -> Result<MemConn, NoMemory> {
    let fails = numbers_of(alloc, args.text(4))?;
    match source_of(alloc, args.at(0), args.number(1), args.text(2)) {
        Ok(source) => Ok(MemConn::new(source, MemSink::new(alloc, fails))),
        Err(NoMemory) => {
            drop(fails);
            Err(NoMemory)
        }
    }
}

fn put_parts(out: &mut String, conn: MemConn) -> Result<(), NoMemory> {
    let (mut source, sink) = conn.into_parts();
    let told = put_rest(out, &mut source, &sink);
    drop(source);
    drop(sink);
    told
}

fn put_rest(out: &mut String, source: &mut MemSource, sink: &MemSink) -> Result<(), NoMemory> {
    put_bytes(out, sink.written())?;
    put(out, " ")?;
    put_reads(out, source, 16, 2)
}

// So many readings of a clock of this list, and how often it was read.
fn put_clock_answer(alloc: Global, out: &mut String, args: &Args) -> Result<(), NoMemory> {
    let mut clock = ListClock::new(numbers_of(alloc, args.text(0))?);
    put_readings(out, &mut clock, args.number(1))?;
    put(out, "of ")?;
    put_number(out, clock.made())
}

fn put_still_answer(out: &mut String, args: &Args) -> Result<(), NoMemory> {
    let stands: u64 = args.text(0).parse().unwrap_or(0);
    put_readings(out, &mut StillClock(stands), args.number(1))
}

// How many bytes a sink has after so many writes of these.
fn put_much(alloc: Global, out: &mut String, bytes: &[u8], count: usize) -> Result<(), NoMemory> {
    let mut sink = MemSink::new(alloc, numbers_of(alloc, "")?);
    for _ in 0..count {
        write_some(&mut sink, bytes);
    }
    put_number(out, u64::try_from(sink.written().len()).unwrap_or(0))
}

// Writes the bytes, if there are some; a fault is seen in what is written.
fn write_some<K: Sink>(sink: &mut K, bytes: &[u8]) {
    if !bytes.is_empty() {
        let _taken = sink.write(bytes);
    }
}
