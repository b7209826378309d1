//! What a seat holds that no lock guards.

ghost use Rattle.std.specs.Prelude.{◌≡◌, ◌≤◌, ◌+◌, length};
ghost use mathlib.Core.List.{IsPrefix};
ghost use Rattle.kg_keeper.specs.Observed.{IsLook};
ghost use Rattle.kg_keeper.specs.Plans.{coming};
ghost use Rattle.kg_store_shared.specs.Seated.{HasNotLooked, IsLockedCall, new_seat, observed};

use kg_history::{HistoryName, Note, Pass, Writer};
use kg_keeper::Plan;
use kg_rows::Command;
use kg_text::List;
use std::alloc::Global;
use std::marker::Model;

/// What a seat has seen, and which of its calls fail.
#[derive(Drop)]
pub(crate) struct Hand<N: HistoryName> {
    pass: Pass<Command, N>,
    calls: u64,
    plan: Plan,
    limit: u32,
    feed: u32,
}

impl<N: HistoryName> Model for Hand<N> {
    ghost use Rattle.kg_store_shared.specs.Seated.{Seated};

    ghost Value = { Seated };

    ghost view = { λ hand. record {
      sight = hand.pass;
      calls = hand.calls;
      plan = hand.plan;
      limit = hand.limit;
      feed = hand.feed;
    } };
}

impl<N: HistoryName> Hand<N> {
    /// No call yet, and none planned to fail.
    pub(crate) fn new(alloc: Global, pass: Pass<Command, N>, limit: u32, feed: u32) -> Hand<N>
        ensures { result ≡ record (new_seat pass.seen limit feed) { sight = pass } }
    {
        Hand {
            pass,
            calls: 0,
            plan: Plan::new(List::new(alloc)),
            limit,
            feed,
        }
    }

    /// How many rows a kind may have.
    pub(crate) fn limit(&self) -> u32
        ensures { result ≡ self.now.limit }
    {
        self.limit
    }

    /// Of how many last commits it is told what they touched.
    pub(crate) fn feed(&self) -> u32
        ensures { result ≡ self.now.feed }
    {
        self.feed
    }

    /// Sees what there is, and answers how many commits that are. It is one atomic load.
    pub(crate) fn look(&mut self) -> u64
        ensures look { IsLook (observed self.old) (observed self.new) result }
        ensures counted { (self.new.sight.looks ≡ self.old.sight.looks + 1) × (self.new.sight.last ≡ result) }
    {
        self.pass.look()
    }

    /// Takes a note, and answers how many commits it has then seen.
    pub(crate) fn learn(&mut self, note: Note<Command, N>) -> u64
        ensures seen { IsPrefix self.old.sight.seen self.new.sight.seen }
        ensures note { IsPrefix note self.new.sight.seen }
        ensures length { result ≡ length self.new.sight.seen }
        ensures looks { HasNotLooked self.old.sight self.new.sight }
        ensures rest { self.new ≡ record self.old { sight = self.new.sight } }
    {
        self.pass.meet(note)
    }

    /// Tells what it has seen.
    pub(crate) fn note(&mut self) -> Note<Command, N>
        ensures note { result ≡ self.old.sight.seen }
        ensures same { self.new ≡ self.old }
    {
        self.pass.note()
    }

    /// Those of the coming calls whose numbers from 1 are listed will fail, and no others.
    pub(crate) fn plan_faults(&mut self, fails: List<u64>)
        ensures { self.new ≡ record self.old { plan = record { calls = 0; faults = self.old.plan.faults; announced = 0; listed = coming 0 fails } } }
    {
        self.plan.plan_anew(fails);
    }

    /// Begins a call under the lock: the call is counted, all commits are seen, and it is told whether it fails.
    pub(crate) fn begin(&mut self, writer: &mut Writer<Command, N>) -> bool
        ensures call { IsLockedCall writer.old self.old self.new result }
        ensures front { IsPrefix self.old.sight.seen writer.old }
        ensures more { length self.old.sight.seen ≤ length writer.old }
        ensures limits { (self.new.limit ≡ self.old.limit) × (self.new.feed ≡ self.old.feed) }
        ensures writer { writer.new ≡ writer.old }
    {
        self.calls = self.calls.saturating_add(1);
        writer.show(&mut self.pass);
        self.plan.next()
    }

    /// Sees all commits.
    pub(crate) fn see(&mut self, writer: &mut Writer<Command, N>)
        ensures seen { self.new.sight.seen ≡ writer.old }
        ensures looks { HasNotLooked self.old.sight self.new.sight }
        ensures rest { self.new ≡ record self.old { sight = self.new.sight } }
        ensures writer { writer.new ≡ writer.old }
    {
        writer.show(&mut self.pass);
    }
}
