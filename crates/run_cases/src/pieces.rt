//! Pieces of each length.

use crate::whole::put_run;
use case_lines::put;
use kg_text::NoMemory;
use std::alloc::Global;

/// Adds what a run over bytes in pieces of one byte gives, and whether it is the same in pieces of each other
/// length.
pub fn put_pieces(alloc: Global, out: &mut String, bytes: &[u8]) -> Result<(), NoMemory> {
    let mut first = String::new(alloc);
    put_run(alloc, &mut first, "dry", bytes, 1, ("", ""))?;
    put(out, first.as_str())?;
    match other_piece(alloc, bytes, first.as_str())? {
        Some(piece) => put_other(out, piece),
        None => put(out, " in pieces of each length"),
    }
}

fn put_other(out: &mut String, piece: usize) -> Result<(), NoMemory> {
    write!(out, " but not in pieces of {piece}")?;
    Ok(())
}

// The first length of the pieces by which something else is given.
fn other_piece(alloc: Global, bytes: &[u8], expected: &str) -> Result<Option<usize>, NoMemory> {
    for piece in 2..=bytes.len() {
        if !runs_so(alloc, bytes, piece, expected)? {
            return Ok(Some(piece));
        }
    }
    Ok(None)
}

fn runs_so(alloc: Global, bytes: &[u8], piece: usize, expected: &str) -> Result<bool, NoMemory> {
    let mut given = String::new(alloc);
    put_run(alloc, &mut given, "dry", bytes, piece, ("", ""))?;
    Ok(given.as_str() == expected)
}
