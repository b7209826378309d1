//! The shared table as lists that are searched whole, to compare the real one with. Keys and values are numbers.

use crate::plain_level::{PlainEntry, PlainLevel, last_touch, put_entry};
use crate::words::{number, word};
use case_lines::{put, put_number, put_unknown};
use kg_text::NoMemory;
use std::alloc::Global;

// A claim that is out.
#[derive(Clone, Copy)]
struct PlainClaim {
    key: u64,
    who: u64,
    start: u64,
    touch: u64,
}

/// How long values live, in milliseconds.
#[derive(Clone, Copy)]
pub struct Lives {
    pub ttl: u64,
    pub neg_ttl: u64,
    pub stale: u64,
}

/// A table as two lists. A worker has at most one claim: one that it takes gives back the one of before.
#[derive(Drop)]
pub struct PlainTable {
    level: PlainLevel,
    claims: Vec<PlainClaim>,
    lives: Lives,
}

impl PlainTable {
    pub fn new(alloc: Global, room: u32, pos: u64, lives: Lives) -> PlainTable {
        PlainTable {
            level: PlainLevel::new(alloc, room, pos),
            claims: Vec::new(alloc),
            lives,
        }
    }

    /// Adds what a call in the words of a line gives.
    pub fn put_call(&mut self, out: &mut String, call: &str) -> Result<(), NoMemory> {
        match word(call, 0) {
            "look" => self.look(out, call),
            "settle" => self.settle(out, self.lives.ttl, call),
            "negative" => self.settle(out, self.lives.neg_ttl, call),
            "abandon" => self.abandon(out, number(call, 1), number(call, 2)),
            "release" => {
                self.take(number(call, 1));
                put(out, "released")
            }
            "catchup" => {
                self.catch_up(number(call, 1), word(call, 2));
                put_number(out, self.level.pos())
            }
            "jump" => {
                self.jump(number(call, 1));
                put_number(out, self.level.pos())
            }
            _ => put_unknown(out),
        }
    }

    fn look(&mut self, out: &mut String, call: &str) -> Result<(), NoMemory> {
        let (who, key) = (number(call, 1), number(call, 2));
        if let Some(claim) = self.claims.iter().find(|claim| claim.key == key) {
            write!(out, "busy {}", claim.who)?;
            return Ok(());
        }
        if let Some(entry) = self.level.find(key, number(call, 3), number(call, 4))? {
            return put_entry(out, entry);
        }
        self.take(who);
        self.claims.push(PlainClaim {
            key,
            who,
            start: self.level.pos(),
            touch: 0,
        })?;
        put(out, "claimed")
    }

    fn settle(&mut self, out: &mut String, life: u64, call: &str) -> Result<(), NoMemory> {
        let (value, at) = (number(call, 2), number(call, 3));
        let Some(claim) = self.take(number(call, 1)) else {
            return put(out, "no claim");
        };
        if at < claim.start {
            return put(out, "stranger");
        }
        if at < claim.touch {
            write!(out, "overtaken {}", claim.touch)?;
            return Ok(());
        }
        let expires = end_of(life, number(call, 4));
        self.level.keep(PlainEntry {
            key: claim.key,
            value,
            stamp: at,
            expires,
        })?;
        write!(out, "kept until {expires}")?;
        Ok(())
    }

    fn abandon(&mut self, out: &mut String, who: u64, now: u64) -> Result<(), NoMemory> {
        let Some(claim) = self.take(who) else {
            return put(out, "no claim");
        };
        if self.lives.stale == 0 {
            return put(out, "nothing");
        }
        match self.level.revive(claim.key, end_of(self.lives.stale, now))? {
            Some(entry) => put_entry(out, entry),
            None => put(out, "nothing"),
        }
    }

    fn catch_up(&mut self, from: u64, lists: &str) {
        let above = self.level.pos();
        for claim in self.claims.iter_mut() {
            claim.touch = last_touch(lists, from, above, claim.key).unwrap_or(claim.touch);
        }
        self.level.sync(from, lists);
    }

    fn jump(&mut self, to: u64) {
        if to > self.level.pos() {
            for claim in self.claims.iter_mut() {
                claim.touch = to;
            }
            self.level.jump(to);
        }
    }

    // Takes a worker's claim out.
    fn take(&mut self, who: u64) -> Option<PlainClaim> {
        let claim = self.claims.iter().find(|claim| claim.who == who).copied();
        self.claims.retain(|claim| claim.who != who);
        claim
    }
}

fn end_of(life: u64, now: u64) -> u64 {
    if life == 0 {
        0
    } else {
        now.saturating_add(life)
    }
}
