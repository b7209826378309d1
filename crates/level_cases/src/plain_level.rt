//! A worker's level as one list that is searched whole, to compare the real one with. Keys and values are numbers.

use crate::words::{number, word};
use case_lines::{put, put_number, put_unknown};
use kg_text::NoMemory;
use std::alloc::Global;

/// An entry of a plain level.
#[derive(Clone, Copy)]
pub struct PlainEntry {
    pub key: u64,
    pub value: u64,
    pub stamp: u64,
    pub expires: u64,
}

/// A level as a list, the entry used last first.
#[derive(Drop)]
pub struct PlainLevel {
    room: usize,
    pos: u64,
    entries: Vec<PlainEntry>,
}

impl PlainLevel {
    pub fn new(alloc: Global, room: u32, pos: u64) -> PlainLevel {
        PlainLevel {
            room: room as usize,
            pos,
            entries: Vec::new(alloc),
        }
    }

    pub fn pos(&self) -> u64 {
        self.pos
    }

    /// Adds what a call in the words of a line gives.
    pub fn put_call(&mut self, out: &mut String, call: &str) -> Result<(), NoMemory> {
        match word(call, 0) {
            "get" => match self.find(number(call, 1), 0, number(call, 2))? {
                Some(entry) => put_entry(out, entry),
                None => put(out, "none"),
            },
            "put" => {
                self.keep(PlainEntry {
                    key: number(call, 1),
                    value: number(call, 2),
                    stamp: number(call, 3),
                    expires: number(call, 4),
                })?;
                put(out, "kept")
            }
            "sync" => {
                self.sync(number(call, 1), word(call, 2));
                put_number(out, self.pos)
            }
            "jump" => {
                self.jump(number(call, 1));
                put_number(out, self.pos)
            }
            _ => put_unknown(out),
        }
    }

    /// The key's live entry, if it holds at `least` or later, with the position at which it holds.
    pub fn find(&mut self, key: u64, least: u64, now: u64) -> Result<Option<PlainEntry>, NoMemory> {
        let Some(entry) = self.entry(key) else {
            return Ok(None);
        };
        let is_over = entry.expires != 0 && entry.expires <= now;
        let at = self.holds_at(entry);
        if is_over || at < least {
            return Ok(None);
        }
        self.move_to_front(entry)?;
        Ok(Some(PlainEntry { stamp: at, ..entry }))
    }

    /// The key's entry with another end, if there is one.
    pub fn revive(&mut self, key: u64, until: u64) -> Result<Option<PlainEntry>, NoMemory> {
        let Some(entry) = self.entry(key) else {
            return Ok(None);
        };
        let revived = PlainEntry {
            expires: until,
            ..entry
        };
        self.move_to_front(revived)?;
        Ok(Some(PlainEntry {
            stamp: self.holds_at(entry),
            ..revived
        }))
    }

    pub fn keep(&mut self, entry: PlainEntry) -> Result<(), NoMemory> {
        self.move_to_front(entry)?;
        self.entries.truncate(self.room);
        Ok(())
    }

    /// Drops what the commits touch whose keys stand in `lists`, as in a line.
    pub fn sync(&mut self, from: u64, lists: &str) {
        let pos = self.pos;
        self.entries.retain(|entry| last_touch(
            lists,
            from,
            entry.stamp.max(pos),
            entry.key,
        ).is_none());
        self.pos = pos.max(from.saturating_add(lists.split('/').count() as u64));
    }

    pub fn jump(&mut self, to: u64) {
        if to > self.pos {
            self.entries.clear();
            self.pos = to;
        }
    }

    fn entry(&self, key: u64) -> Option<PlainEntry> {
        self.entries.iter().find(|entry| entry.key == key).copied()
    }

    fn holds_at(&self, entry: PlainEntry) -> u64 {
        entry.stamp.max(self.pos)
    }

    fn move_to_front(&mut self, entry: PlainEntry) -> Result<(), NoMemory> {
        self.entries.retain(|other| other.key != entry.key);
        self.entries.insert(0, entry)?;
        Ok(())
    }
}

/// The number of the last commit above `above` that touches the key. `lists` has the keys that each commit touches, the
/// first of them commit number `from` + 1.
pub fn last_touch(lists: &str, from: u64, above: u64, key: u64) -> Option<u64> {
    let mut number = from;
    let mut last = None;
    for list in lists.split('/') {
        number = number.saturating_add(1);
        if number > above && list.split('+').any(|other| is_number(other, key)) {
            last = Some(number);
        }
    }
    last
}

fn is_number(text: &str, number: u64) -> bool {
    match text.parse::<u64>() {
        Ok(other) => other == number,
        Err(_) => false,
    }
}

/// Adds an entry as a level's answer is printed.
pub fn put_entry(out: &mut String, entry: PlainEntry) -> Result<(), NoMemory> {
    write!(
        out,
        "{} at {} until {}",
        entry.value, entry.stamp, entry.expires
    )?;
    Ok(())
}
