//! The environment by its traits, as the gateway calls it.

ghost use Rattle.std.specs.Prelude.{◌<◌, ◌≤◌, length};

use case_lines::{put, put_bytes, put_number};
use kg_outside::{Clock, Conn, Failed, Ids, Sink, Source};
use kg_text::NoMemory;

// The largest room for a read, in bytes.
const ROOM: usize = 16;

/// Adds what so many reads into a room of such a size give: each its bytes in brackets, or `failed`.
pub fn put_reads<S: Source>(
    out: &mut String,
    source: &mut S,
    size: usize,
    count: usize,
) -> Result<(), NoMemory> {
    let mut room = [0; ROOM];
    for _ in 0..count {
        put_read(out, source, room.split_at_mut(size.max(1).min(ROOM)).0)?;
    }
    Ok(())
}

fn put_read<S: Source>(out: &mut String, source: &mut S, room: &mut [u8]) -> Result<(), NoMemory>
    requires { 0 < length room.old }
{
    match source.read(room) {
        Ok(count) => put_bracketed(out, room.split_at(count).0),
        Err(Failed) => put(out, "failed "),
    }
}

fn put_bracketed(out: &mut String, bytes: &[u8]) -> Result<(), NoMemory> {
    put(out, "[")?;
    put_bytes(out, bytes)?;
    put(out, "] ")
}

/// Writes the texts, with a comma between two, and adds what becomes of each that isn't empty: how many of its
/// bytes are taken, or `failed`.
pub fn put_writes<K: Sink>(out: &mut String, sink: &mut K, texts: &str) -> Result<(), NoMemory> {
    for text in texts.split(',') {
        put_write(out, sink, text.as_bytes())?;
    }
    Ok(())
}

fn put_write<K: Sink>(out: &mut String, sink: &mut K, bytes: &[u8]) -> Result<(), NoMemory> {
    if bytes.is_empty() {
        return Ok(());
    }
    match sink.write(bytes) {
        Ok(count) => put_taken(out, count),
        Err(Failed) => put(out, "failed "),
    }
}

fn put_taken(out: &mut String, count: usize) -> Result<(), NoMemory> {
    write!(out, "{count} ")?;
    Ok(())
}

/// Adds what a read of one byte and a write of a text give, for each of the texts.
pub fn put_by_turns<C: Conn>(out: &mut String, conn: &mut C, texts: &str) -> Result<(), NoMemory> {
    for text in texts.split(',') {
        put_turn(out, conn, text.as_bytes())?;
    }
    Ok(())
}

fn put_turn<C: Conn>(out: &mut String, conn: &mut C, bytes: &[u8]) -> Result<(), NoMemory> {
    put_read(out, conn, &mut [0])?;
    put_write(out, conn, bytes)
}

/// Adds so many readings of a clock.
pub fn put_readings<C: Clock>(
    out: &mut String,
    clock: &mut C,
    count: usize,
) -> Result<(), NoMemory> {
    for _ in 0..count {
        put_number(out, clock.now())?;
        put(out, " ")?;
    }
    Ok(())
}

/// Draws so many ids and lets them go, and adds so many further ones.
pub fn put_draws<I: Ids>(
    out: &mut String,
    ids: &mut I,
    skipped: usize,
    count: usize,
) -> Result<(), NoMemory> {
    for _ in 0..skipped {
        ids.draw();
    }
    for _ in 0..count {
        put_id(out, &ids.draw())?;
    }
    Ok(())
}

fn put_id(out: &mut String, id: &[u8]) -> Result<(), NoMemory> {
    for byte in id {
        write!(out, "{byte:02x}")?;
    }
    put(out, " ")
}
