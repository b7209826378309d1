//! Making a shared store.

ghost use Rattle.std.specs.Prelude.{◌≡◌, ℕ, ◌<◌, ◌≤◌, ◌+◌, [], ◌∷◌, ◌++◌, All, IfOk, OnOk, length};
ghost use Rattle.kg_history.specs.Sights.{IsFresh};
ghost use Rattle.kg_keeper.specs.Answers.{most_commits};
ghost use Rattle.kg_row_changes.specs.ValidCommands.{AreAllowed};
ghost use Rattle.kg_row_types.specs.RowLists.{no_rows};
ghost use Rattle.kg_store_shared.specs.Seated.{new_seat};

use crate::hand::Hand;
use crate::seat::StoreSeat;
use crate::store::Store;
use kg_history::{Blank, HistoryName, Pass};
use kg_rows::Command;
use kg_text::{List, NoMemory};
use std::alloc::{AllocError, Global};
use std::sync::{Arc, Mutex, Wait};

/// A store with so many seats, whose first commits are these commands, and the history's further passes. Each seat and
/// each pass has seen all of them. A kind may have at most `rows` rows, and what the last `feed` commits touched is
/// told. Without memory the history is gone. It waits for nobody.
pub fn make<R: Wait + Clone + Drop, N: HistoryName>(
    rt: &R,
    alloc: Global,
    blank: Blank<Command>,
    rows: u32,
    feed: u32,
    seats: u32,
    commands: &List<Command>,
) -> Result<(List<StoreSeat<R, N>>, Vec<Pass<Command, N>>), NoMemory>
    requires name { blank.history ≡ N.history }
    requires seats { (0 < seats) × (seats ≤ blank.passes) }
    requires feed { 0 < feed }
    requires allowed { AreAllowed no_rows commands.now rows }
    requires room { length commands.now ≤ most_commits }
    ensures seats { IfOk result (λ made. length made.0 ≡ seats) }
    ensures passes { IfOk result (λ made. length made.1.items + seats ≡ blank.passes) }
    ensures seated { IfOk result (λ made. All (λ seat. seat ≡ new_seat commands.now rows feed) made.0) }
    ensures seen { IfOk result (λ made. All (λ pass. IsFresh pass commands.now) made.1.items) }
{
    let (store, mut passes) = filled(alloc, blank, commands.as_slice())?;
    let mut all = List::new(alloc);
    let Ok(shared) = Arc::new(alloc, Mutex::new(store)) else {
        drop(passes); // let go by name: a short proof
        drop(all);
        return Err(NoMemory);
    };
    for _ in 0..seats {
        let Some(pass) = passes.pop() else {
            unreachable!()
        };
        let hand = Hand::new(alloc, pass, rows, feed);
        if add_seat(rt, &shared, hand, &mut all).is_err() {
            drop(shared); // let go by name: a short proof
            drop(passes);
            drop(all);
            return Err(NoMemory);
        }
    }
    drop(shared); // each seat has a share
    Ok((all, passes))
}

// A store with these commits, and the passes of its history, which have seen them.
fn filled<N: HistoryName>(
    alloc: Global,
    blank: Blank<Command>,
    commands: &[Command],
) -> Result<(Store<N>, Vec<Pass<Command, N>>), NoMemory>
    requires name { blank.history ≡ N.history }
    requires allowed { (limit : ℕ) × AreAllowed no_rows commands.now limit }
    requires room { length commands.now ≤ most_commits }
    ensures store { IfOk result (λ made. made.0 ≡ commands.now) }
    ensures passes { IfOk result (λ made. length made.1.items ≡ blank.passes) }
    ensures seen { IfOk result (λ made. All (λ pass. IsFresh pass commands.now) made.1.items) }
{
    let (writer, fresh) = blank.open::<N>(alloc)?;
    let mut store = Store::new(alloc, writer);
    let mut passes = Vec::new(alloc);
    match fill(alloc, &mut store, commands, fresh, &mut passes) {
        Ok(()) => Ok((store, passes)),
        Err(NoMemory) => {
            drop(store); // let go by name: a short proof
            drop(passes);
            Err(NoMemory)
        }
    }
}

// Commits the commands, and lets the passes see them.
fn fill<N: HistoryName>(
    alloc: Global,
    store: &mut Store<N>,
    commands: &[Command],
    fresh: Vec<Pass<Command, N>>,
    passes: &mut Vec<Pass<Command, N>>,
) -> Result<(), NoMemory>
    requires none { (store.old ≡ []) × (passes.old.items ≡ []) }
    requires allowed { (limit : ℕ) × AreAllowed no_rows commands.now limit }
    requires room { length commands.now ≤ most_commits }
    requires fresh { All (λ pass. IsFresh pass []) fresh.items }
    ensures store { OnOk result (store.new ≡ commands.now) }
    ensures count { OnOk result (length passes.new.items ≡ length fresh.items) }
    ensures seen { OnOk result (All (λ pass. IsFresh pass commands.now) passes.new.items) }
{
    match admit_all(alloc, store, commands) {
        Ok(()) => show_all(store, fresh, passes),
        Err(NoMemory) => {
            drop(fresh); // let go by name: a short proof
            Err(NoMemory)
        }
    }
}

// Commits the commands, one after another.
fn admit_all<N: HistoryName>(
    alloc: Global,
    store: &mut Store<N>,
    commands: &[Command],
) -> Result<(), NoMemory>
    requires none { store.old ≡ [] }
    requires allowed { (limit : ℕ) × AreAllowed no_rows commands.now limit }
    requires room { length commands.now ≤ most_commits }
    ensures { OnOk result (store.new ≡ commands.now) }
{
    for command in commands {
        store.admit(alloc, command)?;
    }
    Ok(())
}

// Lets the passes see the commits, and adds them.
fn show_all<N: HistoryName>(
    store: &mut Store<N>,
    fresh: Vec<Pass<Command, N>>,
    passes: &mut Vec<Pass<Command, N>>,
) -> Result<(), NoMemory>
    requires none { passes.old.items ≡ [] }
    requires fresh { All (λ pass. IsFresh pass []) fresh.items }
    ensures count { OnOk result (length passes.new.items ≡ length fresh.items) }
    ensures seen { OnOk result (All (λ pass. IsFresh pass store.old) passes.new.items) }
    ensures same { store.new ≡ store.old }
{
    for pass in fresh {
        passes.push(with_commits(store, pass))?;
    }
    Ok(())
}

// A pass, once it has seen the commits.
#[tactic(auto, using(crate::proofs::HandLemmas::fresh_of))]
fn with_commits<N: HistoryName>(store: &mut Store<N>, pass: Pass<Command, N>) -> Pass<Command, N>
    requires { IsFresh pass [] }
    ensures seen { IsFresh result store.old }
    ensures same { store.new ≡ store.old }
{
    let mut pass = pass;
    store.show(&mut pass);
    pass
}

// Adds a seat with a share of the store.
fn add_seat<R: Wait + Clone + Drop, N: HistoryName>(
    rt: &R,
    shared: &Arc<Mutex<Store<N>>, Global>,
    hand: Hand<N>,
    all: &mut List<StoreSeat<R, N>>,
) -> Result<(), NoMemory>
    ensures { OnOk result (all.new ≡ all.old ++ hand ∷ []) }
{
    match shares(rt, shared) {
        Ok((rt, shared)) => all.push(StoreSeat::new(rt, shared, hand)),
        Err(NoMemory) => {
            drop(hand); // let go by name: a short proof
            Err(NoMemory)
        }
    }
}

// A share of the runtime and one of the store.
fn shares<R: Wait + Clone + Drop, N: HistoryName>(
    rt: &R,
    shared: &Arc<Mutex<Store<N>>, Global>,
) -> Result<(R, Arc<Mutex<Store<N>>, Global>), NoMemory> {
    let rt: Result<R, AllocError> = rt.clone();
    let Ok(rt) = rt else {
        return Err(NoMemory);
    };
    match Arc::try_clone(shared) {
        Ok(shared) => Ok((rt, shared)),
        Err(_) => {
            drop(rt); // let go by name: a short proof
            Err(NoMemory)
        }
    }
}
