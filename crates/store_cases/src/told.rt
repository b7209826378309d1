//! Two seats, in one thread.

ghost use Rattle.std.specs.Prelude.{◌≡◌};

use crate::draft::draft_of;
use crate::seats::{FEED, ROWS};
use crate::work::{What, commit, load};
use case_lines::{Args, numbers_of, put};
use kg_entities::Kind;
use kg_history::{Blank, HistoryName};
use kg_keeper::{CommitError, Keeper};
use kg_rows::{Command, Refusal};
use kg_store_shared::{StoreSeat, make};
use kg_text::{List, NoMemory};
use std::alloc::Global;
use std::marker::Brand;
use std::sync::Wait;

/// Adds the place of a commit of one seat, what another learns of it by a note, and what that one looks at.
pub fn put_told<R: Wait + Clone + Drop>(
    rt: &R,
    alloc: Global,
    out: &mut String,
) -> Result<(), NoMemory> {
    let blank = kg_history::make::<Command>(alloc, 2)?;
    let (at, learned, looked) = told::<Brand, R>(rt, alloc, blank)?;
    write!(out, "committed {at}, learned {learned}, looked at {looked}")?;
    Ok(())
}

fn told<N: HistoryName, R: Wait + Clone + Drop>(
    rt: &R,
    alloc: Global,
    blank: Blank<Command>,
) -> Result<(u64, u64, u64), NoMemory>
    requires name { blank.history ≡ N.history }
    requires passes { blank.passes ≡ 2 }
{
    let (mut one, mut two) = two_seats::<N, R>(rt, alloc, blank, ROWS)?;
    let answer = commit(alloc, &mut one, Kind::Service, 1)?;
    let learned = two.learn(one.note());
    Ok((answer.at, learned, two.look()))
}

fn two_seats<N: HistoryName, R: Wait + Clone + Drop>(
    rt: &R,
    alloc: Global,
    blank: Blank<Command>,
    rows: u32,
) -> Result<(StoreSeat<R, N>, StoreSeat<R, N>), NoMemory>
    requires name { blank.history ≡ N.history }
    requires passes { blank.passes ≡ 2 }
{
    let none = List::new(alloc);
    let (mut seats, passes) = make::<R, N>(rt, alloc, blank, rows, FEED, 2, &none)?;
    drop(passes); // let go by name: a short proof
    let Some(one) = seats.pop() else {
        unreachable!()
    };
    let Some(two) = seats.pop() else {
        unreachable!()
    };
    Ok((one, two))
}

/// Adds what the first commit is answered where a kind may have no rows.
pub fn put_full<R: Wait + Clone + Drop>(
    rt: &R,
    alloc: Global,
    out: &mut String,
) -> Result<(), NoMemory> {
    let blank = kg_history::make::<Command>(alloc, 2)?;
    put(
        out,
        if is_full::<Brand, R>(rt, alloc, blank)? {
            "full"
        } else {
            "not full"
        },
    )
}

fn is_full<N: HistoryName, R: Wait + Clone + Drop>(
    rt: &R,
    alloc: Global,
    blank: Blank<Command>,
) -> Result<bool, NoMemory>
    requires name { blank.history ≡ N.history }
    requires passes { blank.passes ≡ 2 }
{
    let (mut one, _) = two_seats::<N, R>(rt, alloc, blank, 0)?;
    let draft = draft_of(alloc, Kind::Service, 1)?;
    let done = one.commit(alloc, &draft);
    drop(draft); // let go by name: a short proof
    let is_full = matches!(
        &done,
        Err(CommitError::Refused {
            why: Refusal::Full,
            at: 0
        })
    );
    drop(done); // let go by name: a short proof
    Ok(is_full)
}

/// Adds which of so many calls of a seat fail, and whether one of another seat does.
pub fn put_planned<R: Wait + Clone + Drop>(
    rt: &R,
    alloc: Global,
    out: &mut String,
    args: &Args,
) -> Result<(), NoMemory> {
    let blank = kg_history::make::<Command>(alloc, 2)?;
    let fails = numbers_of(alloc, args.text(0))?;
    let failed = failed::<Brand, R>(rt, alloc, blank, fails, args.number(1))?;
    put(out, "calls:")?;
    for one in &failed {
        put(out, if *one { " fault" } else { " ok" })?;
    }
    Ok(())
}

// Whether each of a seat's calls failed, and last one of another's. It looks before each call.
fn failed<N: HistoryName, R: Wait + Clone + Drop>(
    rt: &R,
    alloc: Global,
    blank: Blank<Command>,
    fails: List<u64>,
    calls: usize,
) -> Result<Vec<bool>, NoMemory>
    requires name { blank.history ≡ N.history }
    requires passes { blank.passes ≡ 2 }
{
    let (mut one, mut two) = two_seats::<N, R>(rt, alloc, blank, ROWS)?;
    one.plan_faults(fails);
    let mut failed = Vec::new(alloc);
    for _ in 0..calls {
        one.look();
        failed.push(is_failed(alloc, &mut one)?)?;
    }
    failed.push(is_failed(alloc, &mut two)?)?;
    Ok(failed)
}

fn is_failed<K: Keeper>(alloc: Global, keeper: &mut K) -> Result<bool, NoMemory> {
    Ok(matches!(load(alloc, keeper, 1)?.what, What::Failed))
}
