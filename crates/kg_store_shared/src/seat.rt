//! Seats at the shared store.

ghost use Rattle.std.specs.Prelude.{◌≡◌, ◌≤◌, ◌+◌, length, IfErr, IfOk, IfSome, OnErr};
ghost use mathlib.Core.List.{IsPrefix};
ghost use Rattle.kg_keeper.specs.Answers.{AnswersCommit, AnswersEvents, AnswersFind, AnswersLoad, AnswersPage, AnswersRefusal, AnswersRows, AreFromValidRows, is_commit_fault, is_fault};
ghost use Rattle.kg_keeper.specs.Observed.{HasFaults, IsCall, IsLook, Stays};
ghost use Rattle.kg_keeper.specs.Plans.{coming};
ghost use Rattle.kg_rows.specs.Decision.{CanStandUnder, IsProper};
ghost use Rattle.kg_store_shared.specs.Seated.{HasNotLooked, observed};

use crate::hand::Hand;
use crate::store::Store;
use kg_entities::{GenKey, Key, Kind};
use kg_history::{HistoryName, Note};
use kg_keeper::{
    CommitError, Committed, Events, KeepError, Keeper, Loaded, LoadedRows, PageAsk, PageGot, Seen,
};
use kg_rows::{Command, Draft, Parent, Select};
use kg_text::List;
use std::alloc::Global;
use std::marker::Model;
use std::sync::{Arc, Mutex, Wait};

/// One thread's seat. Its calls other than `look`, `learn`, `note` and `plan_faults` wait for the store's lock.
#[derive(Drop)]
pub struct StoreSeat<R: Wait + Clone + Drop, N: HistoryName> {
    rt: R,
    shared: Arc<Mutex<Store<N>>, Global>,
    hand: Hand<N>,
}

impl<R: Wait + Clone + Drop, N: HistoryName> Model for StoreSeat<R, N> {
    ghost use Rattle.kg_store_shared.specs.Seated.{Seated};

    ghost Value = { Seated };

    ghost view = { λ seat. seat.hand };
}

impl<R: Wait + Clone + Drop, N: HistoryName> StoreSeat<R, N> {
    pub(crate) fn new(rt: R, shared: Arc<Mutex<Store<N>>, Global>, hand: Hand<N>) -> StoreSeat<R, N>
        ensures { result ≡ hand }
    {
        StoreSeat { rt, shared, hand }
    }

    /// Takes a note of what another has seen, and answers how many commits it has then seen. It waits for nobody.
    pub fn learn(&mut self, note: Note<Command, N>) -> u64
        ensures seen { IsPrefix self.old.sight.seen self.new.sight.seen }
        ensures note { IsPrefix note self.new.sight.seen }
        ensures length { result ≡ length self.new.sight.seen }
        ensures looks { HasNotLooked self.old.sight self.new.sight }
        ensures rest { self.new ≡ record self.old { sight = self.new.sight } }
    {
        self.hand.learn(note)
    }

    /// Tells what it has seen. It waits for nobody.
    pub fn note(&mut self) -> Note<Command, N>
        ensures note { result ≡ self.old.sight.seen }
        ensures same { self.new ≡ self.old }
    {
        self.hand.note()
    }

    /// Of its later calls other than `look` those fail whose numbers, counted from 1 after this call, are listed, and
    /// no others. An earlier plan is dropped.
    pub fn plan_faults(&mut self, fails: List<u64>)
        ensures { self.new ≡ record self.old { plan = record { calls = 0; faults = self.old.plan.faults; announced = 0; listed = coming 0 fails } } }
    {
        self.hand.plan_faults(fails);
    }
}

impl<R: Wait + Clone + Drop, N: HistoryName> Keeper for StoreSeat<R, N> {
    ghost observed = { observed };

    fn look(&mut self) -> u64
        ensures look { IsLook (observed self.old) (observed self.new) result }
        ensures counted { (self.new.sight.looks ≡ self.old.sight.looks + 1) × (self.new.sight.last ≡ result) }
    {
        self.hand.look()
    }

    fn load(&mut self, alloc: Global, key: &Key) -> Result<Loaded, KeepError>
        ensures answer { IfOk result (AnswersLoad (observed self.new) key.now) }
        ensures call { IsCall (observed self.old) (observed self.new) }
        ensures stays { Stays (observed self.old) (observed self.new) }
        ensures faults { HasFaults (observed self.old) (observed self.new) (is_fault result) }
        ensures looks { HasNotLooked self.old.sight self.new.sight }
    {
        let StoreSeat { rt, shared, hand } = self;
        shared.lock(rt).load(alloc, hand, key)
    }

    fn load_rows(&mut self, alloc: Global, which: GenKey) -> Result<LoadedRows, KeepError>
        ensures answer { IfOk result (AnswersRows (observed self.new) which) }
        ensures valid { IfOk result (λ loaded. AreFromValidRows which loaded.rows) }
        ensures call { IsCall (observed self.old) (observed self.new) }
        ensures stays { Stays (observed self.old) (observed self.new) }
        ensures faults { HasFaults (observed self.old) (observed self.new) (is_fault result) }
        ensures looks { HasNotLooked self.old.sight self.new.sight }
    {
        let StoreSeat { rt, shared, hand } = self;
        shared.lock(rt).load_rows(alloc, hand, which)
    }

    fn events(&mut self, alloc: Global, from: u64, to: u64) -> Result<Events, KeepError>
        requires order { from ≤ to }
        requires seen { IfSome (observed self.old).seen (λ seen. to ≤ length seen) }
        ensures answer { IfOk result (AnswersEvents (observed self.new) from to) }
        ensures call { IsCall (observed self.old) (observed self.new) }
        ensures stays { Stays (observed self.old) (observed self.new) }
        ensures faults { HasFaults (observed self.old) (observed self.new) (is_fault result) }
        ensures looks { HasNotLooked self.old.sight self.new.sight }
    {
        let StoreSeat { rt, shared, hand } = self;
        shared.lock(rt).events(alloc, hand, from, to)
    }

    fn commit(&mut self, alloc: Global, draft: &Draft) -> Result<Committed, CommitError>
        requires { IsProper draft.now }
        ensures committed { IfOk result (AnswersCommit (observed self.old) (observed self.new) draft.now) }
        ensures refused { IfErr result (AnswersRefusal (observed self.new) draft.now) }
        ensures stays { OnErr result (Stays (observed self.old) (observed self.new)) }
        ensures call { IsCall (observed self.old) (observed self.new) }
        ensures faults { HasFaults (observed self.old) (observed self.new) (is_commit_fault result) }
        ensures looks { HasNotLooked self.old.sight self.new.sight }
    {
        let StoreSeat { rt, shared, hand } = self;
        shared.lock(rt).commit(alloc, hand, draft)
    }

    fn find(
        &mut self,
        alloc: Global,
        kind: Kind,
        parent: &Option<Parent>,
        select: &Select,
    ) -> Result<Seen, KeepError>
        requires { CanStandUnder kind parent.now }
        ensures answer { IfOk result (AnswersFind (observed self.new) kind parent.now select.now) }
        ensures call { IsCall (observed self.old) (observed self.new) }
        ensures stays { Stays (observed self.old) (observed self.new) }
        ensures faults { HasFaults (observed self.old) (observed self.new) (is_fault result) }
        ensures looks { HasNotLooked self.old.sight self.new.sight }
    {
        let StoreSeat { rt, shared, hand } = self;
        shared.lock(rt).find(alloc, hand, kind, parent, select)
    }

    fn page(&mut self, alloc: Global, ask: &PageAsk) -> Result<PageGot, KeepError>
        requires { CanStandUnder ask.now.kind ask.now.parent }
        ensures answer { IfOk result (AnswersPage (observed self.new) ask.now) }
        ensures call { IsCall (observed self.old) (observed self.new) }
        ensures stays { Stays (observed self.old) (observed self.new) }
        ensures faults { HasFaults (observed self.old) (observed self.new) (is_fault result) }
        ensures looks { HasNotLooked self.old.sight self.new.sight }
    {
        let StoreSeat { rt, shared, hand } = self;
        shared.lock(rt).page(alloc, hand, ask)
    }
}
