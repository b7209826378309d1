//! Calls that are drawn, in the words of a line. Keys and values are numbers.

use crate::dice::Dice;
use case_lines::put;
use kg_text::NoMemory;

// How many keys there are.
const KEYS: u64 = 7;
// Readings of the clock are below this.
const LATEST: u64 = 24;

/// Adds a call of a worker's level that stands at this position.
pub fn put_local_call(out: &mut String, dice: &mut Dice, pos: u64) -> Result<(), NoMemory> {
    match dice.roll(40) {
        0..=15 => put_words(out, "get", &[dice.roll(KEYS), dice.roll(LATEST)]),
        16..=31 => {
            put_words(out, "put", &[dice.roll(KEYS), dice.roll(1000)])?;
            put_words(out, "", &[near(dice, pos).max(pos), dice.roll(LATEST)])
        }
        32..=38 => put_commits(out, dice, "sync", pos),
        _ => put_words(out, "jump", &[near(dice, pos)]),
    }
}

/// Adds a call of the shared table that stands at this position, by one of two workers.
pub fn put_table_call(out: &mut String, dice: &mut Dice, pos: u64) -> Result<(), NoMemory> {
    let who = dice.roll(2).saturating_add(1);
    let at = near(dice, pos);
    let now = dice.roll(LATEST);
    match dice.roll(40) {
        0..=13 => put_words(out, "look", &[who, dice.roll(KEYS), at, now]),
        14..=22 => put_words(out, "settle", &[who, dice.roll(1000), at, now]),
        23..=25 => put_words(out, "negative", &[who, dice.roll(1000), at, now]),
        26..=28 => put_words(out, "abandon", &[who, now]),
        29 => put_words(out, "release", &[who]),
        30..=38 => put_commits(out, dice, "catchup", pos),
        _ => put_words(out, "jump", &[at]),
    }
}

// A position: two below this one at least, two above it at most.
fn near(dice: &mut Dice, pos: u64) -> u64 {
    pos.saturating_add(dice.roll(5)).saturating_sub(2)
}

fn put_words(out: &mut String, word: &str, numbers: &[u64]) -> Result<(), NoMemory> {
    put(out, word)?;
    for number in numbers {
        write!(out, " {number}")?;
    }
    Ok(())
}

// Adds a call with the keys that up to three commits touch.
fn put_commits(out: &mut String, dice: &mut Dice, word: &str, pos: u64) -> Result<(), NoMemory> {
    let from = pos.saturating_sub(dice.roll(3));
    put_words(out, word, &[from, dice.roll(KEYS)])?;
    for _ in 0..dice.roll(3) {
        write!(out, "/{}+{}", dice.roll(KEYS), dice.roll(KEYS))?;
    }
    Ok(())
}
