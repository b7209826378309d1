//! Requests out of bytes.

use crate::print::{put_end, put_request};
use case_lines::{Args, numbers_of, put, put_bytes};
use kg_outside::{Failed, MemSource, Source};
use kg_text::{Bytes, List, NoMemory};
use kg_wire::Reader;
use std::alloc::Global;

// The client's address.
const ADDRESS: [u8; 4] = [127, 0, 0, 1];

// How many requests are read of one source at most.
const MOST: usize = 64;

/// Adds the requests that bytes in such pieces hold, and how their reading ends.
pub fn put_requests(
    alloc: Global,
    out: &mut String,
    bytes: &[u8],
    piece: usize,
) -> Result<(), NoMemory> {
    let mut source = source_of(alloc, bytes, piece, List::new(alloc))?;
    let mut reader = Reader::new(alloc, ADDRESS)?;
    put_all(alloc, out, &mut reader, &mut source)
}

fn source_of(
    alloc: Global,
    bytes: &[u8],
    piece: usize,
    fails: List<u64>,
) -> Result<MemSource, NoMemory> {
    match Bytes::from_slice(alloc, bytes) {
        Ok(bytes) => Ok(MemSource::new(bytes, piece.max(1), fails)),
        Err(NoMemory) => {
            drop(fails);
            Err(NoMemory)
        }
    }
}

// Adds what is read up to the end.
fn put_all(
    alloc: Global,
    out: &mut String,
    reader: &mut Reader,
    source: &mut MemSource,
) -> Result<(), NoMemory> {
    for _ in 0..MOST {
        if put_next(alloc, out, reader, source)? {
            return Ok(());
        }
    }
    Ok(())
}

// Adds what is read next; true at the end.
fn put_next(
    alloc: Global,
    out: &mut String,
    reader: &mut Reader,
    source: &mut MemSource,
) -> Result<bool, NoMemory> {
    match reader.next_request(alloc, source) {
        Ok(Some(request)) => {
            let told = put_request(out, &request);
            drop(request);
            told?;
            Ok(false)
        }
        Ok(None) => {
            put(out, "end")?;
            Ok(true)
        }
        Err(error) => {
            put_end(out, error)?;
            Ok(true)
        }
    }
}

/// Adds the requests that bytes in such pieces hold while the listed calls fail, and how their reading ends;
/// what two more calls answer; and the bytes that were not read.
pub fn put_failing(alloc: Global, out: &mut String, args: &Args) -> Result<(), NoMemory> {
    let fails = numbers_of(alloc, args.text(1))?;
    let mut source = source_of(alloc, args.at(2), args.number(0), fails)?;
    let mut reader = Reader::new(alloc, ADDRESS)?;
    put_thrice(alloc, out, &mut reader, &mut source)?;
    put_left(out, &mut source)
}

// Adds what is read up to the end, and what two more calls answer.
fn put_thrice(
    alloc: Global,
    out: &mut String,
    reader: &mut Reader,
    source: &mut MemSource,
) -> Result<(), NoMemory> {
    put_all(alloc, out, reader, source)?;
    put(out, ", ")?;
    put_all(alloc, out, reader, source)?;
    put(out, ", ")?;
    put_all(alloc, out, reader, source)?;
    put(out, ", left: ")
}

// Adds the bytes that are left of the source.
fn put_left(out: &mut String, source: &mut MemSource) -> Result<(), NoMemory> {
    let mut room = [0; 16];
    for _ in 0..MOST {
        match source.read(&mut room) {
            Ok(0) => return Ok(()),
            Ok(count) => put_bytes(out, room.split_at(count).0)?,
            Err(Failed) => put(out, "!")?,
        }
    }
    Ok(())
}
