//! A fetch that is driven a step at a time.

ghost use Rattle.kg_layers.specs.Stages.{HoldsClaim, IsAbandoning, IsBetweenSteps, IsLoading, IsLooking, IsSettling};

use crate::table::put_settled;
use crate::words::{number, value, word};
use case_lines::put;
use kg_layers::{Ask, Fetch, Level, Ready};
use kg_level2::{Abandoned, Found, Table};
use kg_text::{NoMemory, Text};
use std::alloc::Global;
use std::marker::Model;

/// A fetch between two steps.
pub struct Driven {
    fetch: Fetch<Text, Text>,
}

impl Model for Driven {
    ghost use Rattle.std.specs.Prelude.{List, ℕ};
    ghost use Rattle.kg_layers.specs.Stages.{Fetching, IsBetweenSteps};

    ghost Value = { Fetching (List ℕ) (List ℕ) };

    ghost view = { λ driven. driven.fetch };

    ghost invariant = { λ driven. IsBetweenSteps driven.fetch.stage };
}

impl Driven {
    pub fn begin(key: Text, pos: u64) -> Driven {
        Driven {
            fetch: Fetch::begin(key, pos),
        }
    }

    /// Takes the next step, and adds what it gives. A call is `turn W NOW`, and behind that for a load what it gives:
    /// a value and its position, or `fault`.
    pub fn turn(
        &mut self,
        alloc: Global,
        out: &mut String,
        table: &mut Table<Text, Text>,
        call: &str,
    ) -> Result<(), NoMemory> {
        match self.fetch.want() {
            Ask::Table => look_up(alloc, out, &mut self.fetch, table, call),
            Ask::Load => load(alloc, out, &mut self.fetch, call),
            Ask::Settle => settle(alloc, out, &mut self.fetch, table, number(call, 2)),
            Ask::Abandon => abandon(out, &mut self.fetch, table, number(call, 2)),
            Ask::Ready => put(out, "ready"),
            Ask::Failed => put(out, "failed"),
        }
    }

    /// Ends the fetch, and adds the value that it came to.
    pub fn end(self, out: &mut String, table: &mut Table<Text, Text>) -> Result<(), NoMemory> {
        let Driven { fetch } = self;
        match fetch.want() {
            Ask::Ready => put_ready(out, &fetch.ready()),
            _ => match fetch.give_up() {
                Some(claim) => {
                    table.release(claim);
                    put(out, "released")
                }
                None => put(out, "no value"),
            },
        }
    }
}

fn look_up(
    alloc: Global,
    out: &mut String,
    fetch: &mut Fetch<Text, Text>,
    table: &mut Table<Text, Text>,
    call: &str,
) -> Result<(), NoMemory>
    requires { IsLooking fetch.old.stage }
    ensures { IsBetweenSteps fetch.new.stage }
{
    let who = word(call, 1).parse().unwrap_or(0);
    let found = table.lookup(alloc, fetch.key(), fetch.pos(), number(call, 2), who)?;
    let what = match &found {
        Found::Hit(_) => "hit",
        Found::Claimed(_) => "claimed",
        Found::Busy { .. } => "busy",
    };
    fetch.give_found(found);
    put(out, what)
}

fn load(
    alloc: Global,
    out: &mut String,
    fetch: &mut Fetch<Text, Text>,
    call: &str,
) -> Result<(), NoMemory>
    requires { IsLoading fetch.old.stage }
    ensures { IsBetweenSteps fetch.new.stage }
{
    match word(call, 3) {
        "fault" => {
            fetch.give_fault();
            put(out, "fault")
        }
        _ => {
            let val = value(alloc, call, 3)?;
            fetch.give_loaded(val, number(call, 4));
            put(out, "loaded")
        }
    }
}

fn settle(
    alloc: Global,
    out: &mut String,
    fetch: &mut Fetch<Text, Text>,
    table: &mut Table<Text, Text>,
    now: u64,
) -> Result<(), NoMemory>
    requires loaded { IsSettling fetch.old.stage }
    requires claim { HoldsClaim fetch.old.stage }
    ensures { IsBetweenSteps fetch.new.stage }
{
    let (val, at) = fetch.loaded(alloc)?;
    let claim = fetch.take_claim();
    let settled = table.settle(claim, val, false, at, now);
    fetch.give_settled(settled);
    put_settled(out, settled)
}

fn abandon(
    out: &mut String,
    fetch: &mut Fetch<Text, Text>,
    table: &mut Table<Text, Text>,
    now: u64,
) -> Result<(), NoMemory>
    requires { IsAbandoning fetch.old.stage }
    ensures { IsBetweenSteps fetch.new.stage }
{
    let claim = fetch.take_claim();
    match table.abandon(claim, now) {
        Abandoned::Stale(held) => {
            fetch.give_abandoned(Some(held));
            put(out, "stale")
        }
        Abandoned::Nothing => {
            fetch.give_abandoned(None);
            put(out, "nothing")
        }
        Abandoned::NoMemory => {
            fetch.give_abandoned(None);
            Err(NoMemory)
        }
    }
}

fn put_ready(out: &mut String, ready: &Ready<Text>) -> Result<(), NoMemory> {
    let level = match ready.level {
        Level::Local => "local",
        Level::Shared => "shared",
        Level::Loaded => "loaded",
        Level::Stale => "stale",
    };
    write!(out, "{} at {} {level}", ready.val.as_str(), ready.at)?;
    match ready.keep {
        Some(end) => write!(out, " keep until {end}")?,
        None => put(out, " keep not")?,
    }
    Ok(())
}
