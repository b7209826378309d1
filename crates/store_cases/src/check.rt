//! Whether what threads were answered is what one history gives.

use crate::work::{Answer, What};
use kg_text::NoMemory;
use std::alloc::Global;

/// What all threads come to: what each seat learned and looked at, how many answers there were, and how many of them
/// aren't those of one history.
#[derive(Drop)]
pub struct Tally {
    pub learned: Vec<u64>,
    pub looked: Vec<u64>,
    pub answers: u64,
    pub wrong: u64,
}

/// A place of which no commit is told.
const NOBODY: u64 = u64::MAX;

/// The numbers of the rows in the order in which they were committed, and how many commits don't fit: one that has the
/// place of another, or none.
pub fn order_of(
    alloc: Global,
    answers: &[Answer],
    commits: u64,
) -> Result<(Vec<u64>, u64), NoMemory> {
    let mut order = Vec::new(alloc);
    for _ in 0..commits {
        order.push(NOBODY)?;
    }
    let mut wrong: u64 = 0;
    for answer in answers {
        match answer.what {
            What::Committed(row) if put_at(&mut order, answer.at, row) => {}
            What::Committed(_) => wrong = wrong.saturating_add(1),
            _ => {}
        }
    }
    Ok((order, wrong))
}

// Puts a row at its place, where the place is there and free.
fn put_at(order: &mut Vec<u64>, at: u64, row: u64) -> bool {
    if at == 0 {
        return false;
    }
    match order.get_mut((at - 1) as usize) {
        Some(place) if *place == NOBODY => {
            *place = row;
            true
        }
        _ => false,
    }
}

/// How many of a thread's answers aren't those of the history, or count fewer commits than the one before.
pub fn wrong_of(order: &[u64], answers: &[Answer]) -> u64 {
    let mut wrong: u64 = 0;
    let mut last = 0;
    for answer in answers {
        if answer.at < last || !is_right(order, answer) {
            wrong = wrong.saturating_add(1);
        }
        last = answer.at;
    }
    wrong
}

// Is it what the first commits give that it counts?
fn is_right(order: &[u64], answer: &Answer) -> bool {
    let at = answer.at as usize;
    match answer.what {
        What::Committed(_) | What::Looked => at <= order.len(),
        What::Loaded(row, found) => order.iter().take(at).any(|known| *known == row) == found,
        What::Paged(rows, sum) => rows == answer.at && sum == sum_of(order, 0, at),
        What::Told(from, lists, sum) => {
            from <= answer.at
                && lists == answer.at - from
                && sum == sum_of(order, from as usize, lists as usize)
        }
        What::Failed => false,
    }
}

// The sum of so many rows after the first `from`.
fn sum_of(order: &[u64], from: usize, count: usize) -> u64 {
    order
        .iter()
        .skip(from)
        .take(count)
        .fold(0, |sum: u64, row| sum.wrapping_add(*row))
}
