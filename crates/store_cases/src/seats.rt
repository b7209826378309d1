//! Threads with a seat each.

ghost use Rattle.std.specs.Prelude.{◌≡◌, ◌<◌};

use crate::check::{Tally, order_of, wrong_of};
use crate::work::{Answer, Part, Work, all_turns};
use kg_history::{Blank, HistoryName};
use kg_keeper::Keeper;
use kg_rows::Command;
use kg_store_shared::{StoreSeat, make};
use kg_text::{List, NoMemory};
use std::alloc::Global;
use std::sync::Wait;
use std::thread;
use std::thread::{JoinHandle, Threads};

/// How many rows a kind may have.
pub const ROWS: u32 = 1_000_000;
/// Of how many last commits it is told what they touched.
pub const FEED: u32 = 1_000_000;

/// What a thread gives back.
#[derive(Drop)]
struct Worked<R: Wait + Clone + Drop, N: HistoryName> {
    seat: StoreSeat<R, N>,
    answers: Vec<Answer>,
    done: Result<(), NoMemory>,
}

/// Each of so many threads has all turns of its part; then the seats tell each other by notes what they have seen.
pub fn work_together<
    N: HistoryName + Send + Sync + 'static,
    R: Wait + Clone + Drop + Threads + Send + Sync + 'static,
>(
    rt: &R,
    alloc: Global,
    blank: Blank<Command>,
    seats: u32,
    turns: u64,
    doing: Work,
) -> Result<Tally, NoMemory>
    requires name { blank.history ≡ N.history }
    requires seats { (0 < seats) × (blank.passes ≡ seats) }
{
    let none = List::new(alloc);
    let (seats, _) = make::<R, N>(rt, alloc, blank, ROWS, FEED, seats, &none)?;
    let worked = join_all(rt, alloc, start_all(rt, alloc, seats, turns, doing)?)?;
    tally_of(alloc, worked, turns, doing)
}

// Starts a thread for each seat. One that can't be started is a want of memory.
fn start_all<
    N: HistoryName + Send + Sync + 'static,
    R: Wait + Clone + Drop + Threads + Send + Sync + 'static,
>(
    rt: &R,
    alloc: Global,
    seats: List<StoreSeat<R, N>>,
    turns: u64,
    doing: Work,
) -> Result<Vec<JoinHandle<Worked<R, N>>>, NoMemory> {
    let of = seats.len() as u64;
    let mut number = 0;
    let mut running = Vec::new(alloc);
    for seat in seats.into_vec() {
        let part = Part {
            number,
            of,
            turns,
            work: doing,
        };
        let Ok(thread) = thread::spawn(rt, move || with_seat(alloc, seat, part)) else {
            return Err(NoMemory);
        };
        running.push(thread)?;
        number = number.saturating_add(1);
    }
    Ok(running)
}

// What one thread does.
fn with_seat<N: HistoryName, R: Wait + Clone + Drop>(
    alloc: Global,
    seat: StoreSeat<R, N>,
    part: Part,
) -> Worked<R, N> {
    let mut seat = seat;
    let mut answers = Vec::new(alloc);
    let done = all_turns(alloc, &mut seat, part, &mut answers);
    Worked {
        seat,
        answers,
        done,
    }
}

fn join_all<
    N: HistoryName + Send + Sync + 'static,
    R: Wait + Clone + Drop + Threads + Send + Sync + 'static,
>(
    rt: &R,
    alloc: Global,
    running: Vec<JoinHandle<Worked<R, N>>>,
) -> Result<Vec<Worked<R, N>>, NoMemory> {
    let mut all = Vec::new(alloc);
    for thread in running {
        all.push(thread.join(rt))?;
    }
    Ok(all)
}

// Lets the seats tell each other what they have seen, and checks all answers.
fn tally_of<N: HistoryName, R: Wait + Clone + Drop>(
    alloc: Global,
    worked: Vec<Worked<R, N>>,
    turns: u64,
    doing: Work,
) -> Result<Tally, NoMemory> {
    let mut worked = worked;
    let mut all = Vec::new(alloc);
    for one in worked.iter() {
        one.done?;
        for answer in one.answers.as_slice() {
            all.push(*answer)?;
        }
    }
    let seats = worked.len() as u64;
    let (order, mut wrong) = order_of(alloc, all.as_slice(), commits_of(seats, turns, doing))?;
    for one in worked.iter() {
        wrong = wrong.saturating_add(wrong_of(order.as_slice(), one.answers.as_slice()));
    }
    let learned = exchange_notes(alloc, &mut worked)?;
    Ok(Tally {
        learned,
        looked: look_all(alloc, &mut worked)?,
        answers: all.len() as u64,
        wrong,
    })
}

// How many commits all threads make.
fn commits_of(seats: u64, turns: u64, doing: Work) -> u64 {
    match doing {
        Work::Services | Work::Consumers => seats.saturating_mul(turns),
        Work::Meanwhile => turns,
        Work::Loads(rows) if turns > 0 => rows,
        Work::Loads(_) | Work::Looks => 0,
    }
}

// The last seat learns from each other one, and then each other one from it; what each has then seen.
fn exchange_notes<N: HistoryName, R: Wait + Clone + Drop>(
    alloc: Global,
    worked: &mut Vec<Worked<R, N>>,
) -> Result<Vec<u64>, NoMemory> {
    let mut learned = Vec::new(alloc);
    let Some(mut last) = worked.pop() else {
        return Ok(learned);
    };
    let mut seen = 0;
    for one in worked.iter_mut() {
        seen = last.seat.learn(one.seat.note());
    }
    for one in worked.iter_mut() {
        learned.push(one.seat.learn(last.seat.note()))?;
    }
    learned.push(seen)?;
    worked.push(last)?;
    Ok(learned)
}

fn look_all<N: HistoryName, R: Wait + Clone + Drop>(
    alloc: Global,
    worked: &mut Vec<Worked<R, N>>,
) -> Result<Vec<u64>, NoMemory> {
    let mut looked = Vec::new(alloc);
    for one in worked.iter_mut() {
        looked.push(one.seat.look())?;
    }
    Ok(looked)
}
