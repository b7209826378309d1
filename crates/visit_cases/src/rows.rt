//! The rows of a declaration.

use case_lines::put;
use kg_lone::{first_commands, gateway_of};
use kg_outside::{CountIds, MemSink, MemSource};
use kg_plain::Gateway;
use kg_text::{Bytes, List, NoMemory};
use std::alloc::Global;

// How many rows of a kind a declaration may have.
const MOST_ROWS: u32 = 100_000;

// How many bytes are read at once.
const PIECE: usize = 1_000_000;

/// Adds whether the line is a declaration of rows that run, and makes it the gateway's.
pub fn put_declared(
    alloc: Global,
    out: &mut String,
    gateway: &mut Option<Box<Gateway>>,
    line: &[u8],
) -> Result<(), NoMemory> {
    match declared(alloc, line)? {
        Some(declared) => {
            drop(gateway.replace(declared)); // let go by name: a short proof
            put(out, "declared")
        }
        None => put(out, "refused"),
    }
}

// The gateway of a declaration, if it is one.
fn declared(alloc: Global, line: &[u8]) -> Result<Option<Box<Gateway>>, NoMemory> {
    let bytes = Bytes::from_slice(alloc, line)?;
    let mut source = MemSource::new(bytes, PIECE, List::new(alloc));
    let mut sink = MemSink::new(alloc, List::new(alloc));
    let declared = gateway_in(alloc, &mut source, &mut sink);
    drop((source, sink)); // let go by name: a short proof
    declared
}

fn gateway_in(
    alloc: Global,
    source: &mut MemSource,
    sink: &mut MemSink,
) -> Result<Option<Box<Gateway>>, NoMemory> {
    let mut ids = CountIds::new();
    match first_commands(alloc, source, sink, &mut ids, 0, MOST_ROWS) {
        Ok(commands) => boxed(alloc, gateway_of(alloc, commands)),
        Err(_) => Ok(None),
    }
}

fn boxed(alloc: Global, made: Result<Gateway, NoMemory>) -> Result<Option<Box<Gateway>>, NoMemory> {
    match made {
        Ok(gateway) => Ok(Some(Box::new(alloc, gateway)?)),
        Err(e) => Err(e),
    }
}
