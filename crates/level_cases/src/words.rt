//! The words of a call, and how answers are printed.

ghost use Rattle.std.specs.Prelude.{◌≤◌};

use case_lines::{Args, put, split};
use kg_level1::Held;
use kg_text::{List, NoMemory, Text};
use std::alloc::Global;
use std::sync::Arc;

/// The word of a call at a place, counted from 0; nothing where there is none.
pub fn word<'a>(call: &'a str, index: usize) -> &'a str {
    let mut rest = call;
    for _ in 0..index {
        rest = split(rest, " ").1;
    }
    split(rest, " ").0
}

/// The same as a number; 0 where it is none.
pub fn number(call: &str, index: usize) -> u64 {
    word(call, index).parse().unwrap_or(0)
}

/// The same as a key.
pub fn key(alloc: Global, call: &str, index: usize) -> Result<Text, NoMemory> {
    Text::from_str(alloc, word(call, index))
}

/// The same as a value.
pub fn value(alloc: Global, call: &str, index: usize) -> Result<Arc<Text>, NoMemory> {
    let text = Text::from_str(alloc, word(call, index))?;
    Ok(Arc::new(alloc, text)?)
}

/// The same as the keys that commits touch.
pub fn touched(alloc: Global, call: &str, index: usize) -> Result<List<List<Text>>, NoMemory> {
    let mut lists = List::new(alloc);
    for list in word(call, index).split('/') {
        lists.push(keys_of(alloc, list)?)?;
    }
    Ok(lists)
}

fn keys_of(alloc: Global, text: &str) -> Result<List<Text>, NoMemory> {
    let mut keys = List::new(alloc);
    for key in text.split('+') {
        keys.push(Text::from_str(alloc, key)?)?;
    }
    Ok(keys)
}

/// The number of a line's part; `least` where it is less, or none.
pub fn part(args: &Args, index: usize, least: u64) -> u64
    ensures { least ≤ result }
{
    args.text(index).parse().unwrap_or(least).max(least)
}

/// The same for a number of entries: 1 where it is less, or none.
pub fn room(args: &Args, index: usize) -> u32
    ensures { 1 ≤ result }
{
    args.text(index).parse().unwrap_or(1).max(1)
}

/// Adds a value with its position and its end.
pub fn put_held(out: &mut String, held: &Held<Text>) -> Result<(), NoMemory> {
    write!(
        out,
        "{} at {} until {}",
        held.val.as_str(),
        held.at,
        held.expires
    )?;
    Ok(())
}

/// Adds the mark between two answers.
pub fn put_mark(out: &mut String, is_first: bool) -> Result<(), NoMemory> {
    put(out, if is_first { "" } else { " -> " })
}
