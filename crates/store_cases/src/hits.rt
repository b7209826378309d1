//! Threads that count hits under one lock.

ghost use Rattle.std.specs.Prelude.{◌≡◌};

use crate::draft::id_of;
use kg_counters::{Counters, make_counters};
use kg_history::{Blank, HistoryName};
use kg_limit::{Hit, Limits, Verdict, Window};
use kg_text::{Bytes, NoMemory};
use std::alloc::{AllocError, Global};
use std::sync::{Arc, Mutex, Wait};
use std::thread;
use std::thread::Threads;

/// What was judged of all hits: how many are let through, how many places aren't those of one list, and how many hits a
/// pass has seen in the end.
#[derive(Drop)]
pub struct Judged {
    pub let_through: u64,
    pub wrong: u64,
    pub seen: u64,
}

/// Each of so many threads counts so many hits of one identity at one time.
pub fn hits_shared<
    M: HistoryName + Send + Sync + 'static,
    R: Wait + Clone + Drop + Threads + Send + Sync + 'static,
>(
    rt: &R,
    alloc: Global,
    blank: Blank<Hit>,
    threads: usize,
    turns: usize,
    limit: u64,
) -> Result<Judged, NoMemory>
    requires name { blank.history ≡ M.history }
    requires passes { blank.passes ≡ 1 }
{
    let (counters, mut passes) = make_counters::<M>(alloc, blank)?;
    let Some(mut pass) = passes.pop() else {
        unreachable!()
    };
    let shared = Arc::new(alloc, Mutex::new(counters))?;
    let mut running = Vec::new(alloc);
    for _ in 0..threads {
        let share = Arc::try_clone(&shared)?;
        let handle = copy_of(rt)?;
        let Ok(thread) = thread::spawn(rt, move || count(&handle, alloc, &share, turns, limit))
        else {
            return Err(NoMemory);
        };
        running.push(thread)?;
    }
    let mut places = Vec::new(alloc);
    let mut let_through = 0;
    for thread in running {
        for judged in thread.join(rt)?.as_slice() {
            places.push(judged.0)?;
            let_through = more(let_through, judged.1);
        }
    }
    Ok(Judged {
        let_through,
        wrong: wrong_places(places.as_slice()),
        seen: pass.look(),
    })
}

// A copy of the handle.
fn copy_of<R: Clone>(rt: &R) -> Result<R, NoMemory> {
    let copy: Result<R, AllocError> = rt.clone();
    match copy {
        Ok(copy) => Ok(copy),
        Err(_) => Err(NoMemory),
    }
}

fn more(count: u64, one: bool) -> u64 {
    if one { count.saturating_add(1) } else { count }
}

// What one thread does: the place of each of its hits, and whether it was let through.
fn count<M: HistoryName, R: Wait>(
    rt: &R,
    alloc: Global,
    counters: &Mutex<Counters<M>>,
    turns: usize,
    limit: u64,
) -> Result<Vec<(u64, bool)>, NoMemory> {
    let mut judged = Vec::new(alloc);
    let hit = hit_of(alloc, limit)?;
    for _ in 0..turns {
        let verdict = one_hit(rt, alloc, counters, &hit)?;
        judged.push((verdict.place, verdict.let_through))?;
    }
    Ok(judged)
}

// Takes the memory and counts the hit under one hold of the lock.
fn one_hit<M: HistoryName, R: Wait>(
    rt: &R,
    alloc: Global,
    counters: &Mutex<Counters<M>>,
    hit: &Hit,
) -> Result<Verdict, NoMemory> {
    let mut held = counters.lock(rt);
    held.reserve(alloc, hit)?;
    Ok(held.hit(hit))
}

fn hit_of(alloc: Global, limit: u64) -> Result<Hit, NoMemory> {
    let identity = Bytes::from_slice(alloc, b"i127.0.0.1")?;
    let mut limits = Limits::new();
    limits.push((Window::Minute, limit));
    Ok(Hit {
        row: id_of(7),
        identity,
        limits,
        now: 0,
        who: 1,
    })
}

// How many of the numbers from 1 to their count aren't there.
fn wrong_places(places: &[u64]) -> u64 {
    let mut wrong: u64 = 0;
    for place in 1..=places.len() as u64 {
        if !places.contains(&place) {
            wrong = wrong.saturating_add(1);
        }
    }
    wrong
}
