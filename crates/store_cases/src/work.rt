//! What a thread does with its seat.

ghost use Rattle.std.specs.Prelude.{◌≤◌, IfSome, length};

use crate::draft::{draft_of, key_of, number_of, number_of_row};
use kg_entities::{Key, Kind};
use kg_keeper::{Events, Keeper, PageAsk};
use kg_text::{List, NoMemory};
use std::alloc::Global;

/// What all threads do in each of their turns.
#[derive(Clone, Copy, PartialEq, Eq)]
pub enum Work {
    /// Each commits a service.
    Services,
    /// Each commits a consumer, looks, loads its own consumer and its neighbour's, and asks for a page and for events.
    Consumers,
    /// The first commits a consumer, each other one loads the consumer of this turn.
    Meanwhile,
    /// Each looks.
    Looks,
    /// The first commits so many consumers in its first turn; else each loads the first of them.
    Loads(u64),
}

/// The part of one thread: which one it is, from 0, of how many, and how many turns it has.
#[derive(Clone, Copy)]
pub struct Part {
    pub number: u64,
    pub of: u64,
    pub turns: u64,
    pub work: Work,
}

/// What a thread was answered, and how many commits the answer counts.
#[derive(Clone, Copy)]
pub struct Answer {
    pub at: u64,
    pub what: What,
}

/// What was answered.
#[derive(Clone, Copy)]
pub enum What {
    /// The row of this number was committed.
    Committed(u64),
    /// The length of the history.
    Looked,
    /// Whether the consumer of this number is there.
    Loaded(u64, bool),
    /// How many consumers there are, and the sum of their numbers.
    Paged(u64, u64),
    /// What the commits after the first so many touched: of how many it is told, and the sum of the numbers of their
    /// consumers.
    Told(u64, u64, u64),
    /// A fault, a refusal or a gap.
    Failed,
}

/// How many rows a page has at most.
const PAGE: u32 = 1_000_000;

impl Part {
    /// The number of the row that the thread of a number commits in a turn.
    pub fn row(&self, number: u64, turn: u64) -> u64 {
        number.saturating_mul(self.turns).saturating_add(turn)
    }
}

/// Has all turns of a part, and adds the answers.
pub fn all_turns<K: Keeper>(
    alloc: Global,
    keeper: &mut K,
    part: Part,
    answers: &mut Vec<Answer>,
) -> Result<(), NoMemory> {
    let mut last = 0;
    for turn in 0..part.turns {
        last = one_turn(alloc, keeper, part, turn, last, answers)?;
    }
    Ok(())
}

// Has one turn, and answers how many commits were seen by then, where that is needed in the next one.
fn one_turn<K: Keeper>(
    alloc: Global,
    keeper: &mut K,
    part: Part,
    turn: u64,
    last: u64,
    answers: &mut Vec<Answer>,
) -> Result<u64, NoMemory> {
    let own = part.row(part.number, turn);
    match part.work {
        Work::Services => answers.push(commit(alloc, keeper, Kind::Service, own)?)?,
        Work::Consumers => return all_calls(alloc, keeper, part, turn, last, answers),
        Work::Meanwhile if part.number == 0 => {
            answers.push(commit(alloc, keeper, Kind::Consumer, own)?)?;
        }
        Work::Meanwhile => answers.push(load(alloc, keeper, part.row(0, turn))?)?,
        Work::Looks => {
            keeper.look();
        }
        Work::Loads(rows) if own == 0 => commit_all(alloc, keeper, rows, answers)?,
        Work::Loads(_) => {
            load(alloc, keeper, 0)?;
        }
    }
    Ok(last)
}

// Makes each call of a store once. The events are those since the last turn.
fn all_calls<K: Keeper>(
    alloc: Global,
    keeper: &mut K,
    part: Part,
    turn: u64,
    last: u64,
    answers: &mut Vec<Answer>,
) -> Result<u64, NoMemory> {
    let own = part.row(part.number, turn);
    let neighbour = part.row(
        if part.number == 0 {
            part.of.saturating_sub(1)
        } else {
            part.number - 1
        },
        turn,
    );
    answers.push(commit(alloc, keeper, Kind::Consumer, own)?)?;
    answers.push(load(alloc, keeper, own)?)?;
    answers.push(load(alloc, keeper, neighbour)?)?;
    answers.push(page(alloc, keeper)?)?;
    let at = keeper.look();
    answers.push(Answer {
        at,
        what: What::Looked,
    })?;
    answers.push(events(alloc, keeper, last.min(at), at)?)?;
    Ok(at)
}

// Commits the consumers of all numbers below this one.
fn commit_all<K: Keeper>(
    alloc: Global,
    keeper: &mut K,
    rows: u64,
    answers: &mut Vec<Answer>,
) -> Result<(), NoMemory> {
    for row in 0..rows {
        answers.push(commit(alloc, keeper, Kind::Consumer, row)?)?;
    }
    Ok(())
}

/// Commits the row of a number.
pub fn commit<K: Keeper>(
    alloc: Global,
    keeper: &mut K,
    kind: Kind,
    row: u64,
) -> Result<Answer, NoMemory> {
    let draft = draft_of(alloc, kind, row)?;
    let done = keeper.commit(alloc, &draft);
    drop(draft); // let go by name: a short proof
    let answer = match &done {
        Ok(done) => Answer {
            at: done.at,
            what: What::Committed(row),
        },
        Err(_) => FAILED,
    };
    drop(done); // let go by name: a short proof
    Ok(answer)
}

/// An answer that tells nothing.
pub const FAILED: Answer = Answer {
    at: 0,
    what: What::Failed,
};

/// Loads the consumer of a number.
pub fn load<K: Keeper>(alloc: Global, keeper: &mut K, row: u64) -> Result<Answer, NoMemory> {
    let key = key_of(alloc, row)?;
    let loaded = keeper.load(alloc, &key);
    drop(key); // let go by name: a short proof
    let answer = match &loaded {
        Ok(loaded) => Answer {
            at: loaded.at,
            what: What::Loaded(row, !loaded.value.is_none()),
        },
        Err(_) => FAILED,
    };
    drop(loaded); // let go by name: a short proof
    Ok(answer)
}

// Asks for all consumers.
fn page<K: Keeper>(alloc: Global, keeper: &mut K) -> Result<Answer, NoMemory> {
    let ask = PageAsk {
        kind: Kind::Consumer,
        parent: None,
        after: None,
        size: PAGE,
    };
    let got = keeper.page(alloc, &ask);
    drop(ask); // let go by name: a short proof
    let answer = match &got {
        Ok(got) => Answer {
            at: got.at,
            what: What::Paged(
                got.rows.len() as u64,
                got.rows
                    .as_slice()
                    .iter()
                    .fold(0, |sum: u64, row| sum.wrapping_add(number_of_row(row))),
            ),
        },
        Err(_) => FAILED,
    };
    drop(got); // let go by name: a short proof
    Ok(answer)
}

// Asks what the commits after the first `from` touched, up to number `to`.
fn events<K: Keeper>(alloc: Global, keeper: &mut K, from: u64, to: u64) -> Result<Answer, NoMemory>
    requires order { from ≤ to }
    requires seen { IfSome (K.observed keeper.old).seen (λ seen. to ≤ length seen) }
{
    let told = keeper.events(alloc, from, to);
    let answer = match &told {
        Ok(Events::Since { keys, gens: _ }) => Answer {
            at: to,
            what: What::Told(from, keys.len() as u64, sum_of(keys)),
        },
        _ => FAILED,
    };
    drop(told); // let go by name: a short proof
    Ok(answer)
}

// The sum of the numbers of the consumers that the lists name by their ids.
fn sum_of(lists: &List<List<Key>>) -> u64 {
    let mut sum: u64 = 0;
    for keys in lists.as_slice() {
        for key in keys.as_slice() {
            match key {
                Key::Consumer(id) => sum = sum.wrapping_add(number_of(*id)),
                _ => {}
            }
        }
    }
    sum
}
