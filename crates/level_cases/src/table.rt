//! Calls of the shared table, by two workers.

ghost use Rattle.std.specs.Prelude.{◌≤◌};

use crate::plain_table::Lives;
use crate::words::{key, number, part, put_held, put_mark, room, touched, value, word};
use case_lines::{Args, put, put_number, put_unknown};
use kg_level2::{Abandoned, Claim, Found, Settled, Table};
use kg_text::{NoMemory, Text};
use std::alloc::Global;
use std::mem;

/// The table, and the claim that each of two workers has.
pub struct Node {
    table: Table<Text, Text>,
    first: Option<Claim<Text>>,
    second: Option<Claim<Text>>,
}

impl Node {
    pub fn new(alloc: Global, room: u32, pos: u64, lives: Lives) -> Result<Node, NoMemory>
        requires { 1 ≤ room }
    {
        let Lives {
            ttl,
            neg_ttl,
            stale,
        } = lives;
        Ok(Node {
            table: Table::new(alloc, room, pos, ttl, neg_ttl, stale)?,
            first: None,
            second: None,
        })
    }

    pub fn pos(&self) -> u64 {
        self.table.pos()
    }

    /// Adds what a call gives: `look W KEY POS NOW`, `settle W VALUE AT NOW`, `negative` likewise, `abandon W NOW`,
    /// `release W`, `catchup FROM LISTS` or `jump TO`. A worker that takes a claim gives back the one of before.
    pub fn put_answer(
        &mut self,
        alloc: Global,
        out: &mut String,
        call: &str,
    ) -> Result<(), NoMemory> {
        match (word(call, 0), word(call, 1)) {
            ("catchup", _) => catch_up(alloc, out, &mut self.table, call),
            ("jump", _) => {
                self.table.jump(number(call, 1));
                put_number(out, self.table.pos())
            }
            (word, "1") => put_step(alloc, out, &mut self.table, &mut self.first, word, call),
            (word, _) => put_step(alloc, out, &mut self.table, &mut self.second, word, call),
        }
    }

    /// Gives back the claims that are out.
    pub fn close(self) {
        let Node {
            mut table,
            first,
            second,
        } = self;
        give_back(&mut table, first);
        give_back(&mut table, second);
    }
}

/// Adds what each of the calls gives, behind none.
pub fn put_table(alloc: Global, out: &mut String, args: &Args) -> Result<(), NoMemory> {
    let lives = Lives {
        ttl: part(args, 2, 0),
        neg_ttl: part(args, 3, 0),
        stale: part(args, 4, 0),
    };
    let mut node = Node::new(alloc, room(args, 0), part(args, 1, 0), lives)?;
    let told = put_calls(alloc, out, &mut node, args.text(5));
    node.close();
    told
}

fn put_calls(
    alloc: Global,
    out: &mut String,
    node: &mut Node,
    calls: &str,
) -> Result<(), NoMemory> {
    let mut is_first = true;
    for call in calls.split(", ") {
        put_mark(out, is_first)?;
        is_first = false;
        node.put_answer(alloc, out, call)?;
    }
    Ok(())
}

fn put_step(
    alloc: Global,
    out: &mut String,
    table: &mut Table<Text, Text>,
    seat: &mut Option<Claim<Text>>,
    word: &str,
    call: &str,
) -> Result<(), NoMemory> {
    match word {
        "look" => look(alloc, out, table, seat, call),
        "settle" => settle(alloc, out, table, seat, false, call),
        "negative" => settle(alloc, out, table, seat, true, call),
        "abandon" => abandon(out, table, seat, call),
        "release" => {
            give_back(table, mem::replace(seat, None));
            put(out, "released")
        }
        _ => put_unknown(out),
    }
}

fn look(
    alloc: Global,
    out: &mut String,
    table: &mut Table<Text, Text>,
    seat: &mut Option<Claim<Text>>,
    call: &str,
) -> Result<(), NoMemory> {
    let key = key(alloc, call, 2)?;
    let who = word(call, 1).parse().unwrap_or(0);
    match table.lookup(alloc, &key, number(call, 3), number(call, 4), who)? {
        Found::Hit(held) => put_held(out, &held),
        Found::Claimed(claim) => {
            give_back(table, mem::replace(seat, Some(claim)));
            put(out, "claimed")
        }
        Found::Busy { who } => {
            write!(out, "busy {who}")?;
            Ok(())
        }
    }
}

fn settle(
    alloc: Global,
    out: &mut String,
    table: &mut Table<Text, Text>,
    seat: &mut Option<Claim<Text>>,
    negative: bool,
    call: &str,
) -> Result<(), NoMemory> {
    let value = value(alloc, call, 2)?;
    match mem::replace(seat, None) {
        Some(claim) => {
            let settled = table.settle(claim, value, negative, number(call, 3), number(call, 4));
            put_settled(out, settled)
        }
        None => put(out, "no claim"),
    }
}

/// Adds what became of a loaded value.
pub fn put_settled(out: &mut String, settled: Settled) -> Result<(), NoMemory> {
    match settled {
        Settled::Kept { expires } => write!(out, "kept until {expires}")?,
        Settled::Overtaken { by } => write!(out, "overtaken {by}")?,
        Settled::Unkept => put(out, "unkept")?,
        Settled::Stranger => put(out, "stranger")?,
    }
    Ok(())
}

fn abandon(
    out: &mut String,
    table: &mut Table<Text, Text>,
    seat: &mut Option<Claim<Text>>,
    call: &str,
) -> Result<(), NoMemory> {
    match mem::replace(seat, None) {
        Some(claim) => match table.abandon(claim, number(call, 2)) {
            Abandoned::Stale(held) => put_held(out, &held),
            Abandoned::Nothing => put(out, "nothing"),
            Abandoned::NoMemory => Err(NoMemory),
        },
        None => put(out, "no claim"),
    }
}

/// Tells the table what commits touched, where that is allowed.
pub fn catch_up(
    alloc: Global,
    out: &mut String,
    table: &mut Table<Text, Text>,
    call: &str,
) -> Result<(), NoMemory> {
    let lists = touched(alloc, call, 2)?;
    let from = number(call, 1);
    if from > table.pos() || lists.len() as u64 > u64::MAX - from {
        return put(out, "not allowed");
    }
    put_number(out, table.catch_up(from, &lists))
}

fn give_back(table: &mut Table<Text, Text>, claim: Option<Claim<Text>>) {
    match claim {
        Some(claim) => table.release(claim),
        None => {}
    }
}
