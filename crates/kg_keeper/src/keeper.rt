//! The store of rows as a trait.

ghost use Rattle.std.specs.Prelude.{◌≤◌, length, IfOk, IfErr, IfSome, OnErr};
ghost use Rattle.kg_keeper.specs.Answers.{AnswersCommit, AnswersEvents, AnswersFind, AnswersLoad, AnswersPage, AnswersRefusal, AnswersRows, AreFromValidRows, is_commit_fault, is_fault};
ghost use Rattle.kg_keeper.specs.Observed.{HasFaults, IsCall, IsLook, Observed, Stays};
ghost use Rattle.kg_rows.specs.Decision.{CanStandUnder, IsProper};

use crate::answer::{
    CommitError, Committed, Events, KeepError, Loaded, LoadedRows, PageAsk, PageGot, Seen,
};
use kg_entities::{GenKey, Key, Kind};
use kg_rows::{Draft, Parent, Select};
use std::alloc::Global;

/// A store of rows. Its history is the list of commands that were committed; what it answers is told of
/// the commands that it has seen by then, and `at` is their number.
///
/// Each call but `look` is counted and may fail. A fault is counted too, and changes nothing else.
pub trait Keeper {
    ghost observed: { Self → Observed };

    /// How many commits there are. It never fails.
    fn look(&mut self) -> u64
        ensures { IsLook (observed self.old) (observed self.new) result };

    /// The value of a key.
    fn load(&mut self, alloc: Global, key: &Key) -> Result<Loaded, KeepError>
        ensures answer { IfOk result (AnswersLoad (observed self.new) key.now) }
        ensures call { IsCall (observed self.old) (observed self.new) }
        ensures stays { Stays (observed self.old) (observed self.new) }
        ensures faults { HasFaults (observed self.old) (observed self.new) (is_fault result) };

    /// The rows of a generation. They are valid.
    fn load_rows(&mut self, alloc: Global, which: GenKey) -> Result<LoadedRows, KeepError>
        ensures answer { IfOk result (AnswersRows (observed self.new) which) }
        ensures valid { IfOk result (λ loaded. AreFromValidRows which loaded.rows) }
        ensures call { IsCall (observed self.old) (observed self.new) }
        ensures stays { Stays (observed self.old) (observed self.new) }
        ensures faults { HasFaults (observed self.old) (observed self.new) (is_fault result) };

    /// What the commits after the first `from`, up to number `to`, touched; a gap where that isn't kept.
    fn events(&mut self, alloc: Global, from: u64, to: u64) -> Result<Events, KeepError>
        requires order { from ≤ to }
        requires seen { IfSome (observed self.old).seen (λ seen. to ≤ length seen) }
        ensures answer { IfOk result (AnswersEvents (observed self.new) from to) }
        ensures call { IsCall (observed self.old) (observed self.new) }
        ensures stays { Stays (observed self.old) (observed self.new) }
        ensures faults { HasFaults (observed self.old) (observed self.new) (is_fault result) };

    /// Decides a change, and commits the command that makes it. Without a commit nothing changes.
    fn commit(&mut self, alloc: Global, draft: &Draft) -> Result<Committed, CommitError>
        requires { IsProper draft.now }
        ensures committed { IfOk result (AnswersCommit (observed self.old) (observed self.new) draft.now) }
        ensures refused { IfErr result (AnswersRefusal (observed self.new) draft.now) }
        ensures stays { OnErr result (Stays (observed self.old) (observed self.new)) }
        ensures call { IsCall (observed self.old) (observed self.new) }
        ensures faults { HasFaults (observed self.old) (observed self.new) (is_commit_fault result) };

    /// One row of a kind, among all or among those under a parent.
    fn find(
        &mut self,
        alloc: Global,
        kind: Kind,
        parent: &Option<Parent>,
        select: &Select,
    ) -> Result<Seen, KeepError>
        requires { CanStandUnder kind parent.now }
        ensures answer { IfOk result (AnswersFind (observed self.new) kind parent.now select.now) }
        ensures call { IsCall (observed self.old) (observed self.new) }
        ensures stays { Stays (observed self.old) (observed self.new) }
        ensures faults { HasFaults (observed self.old) (observed self.new) (is_fault result) };

    /// A page of rows, in the order of their ids.
    fn page(&mut self, alloc: Global, ask: &PageAsk) -> Result<PageGot, KeepError>
        requires { CanStandUnder ask.now.kind ask.now.parent }
        ensures answer { IfOk result (AnswersPage (observed self.new) ask.now) }
        ensures call { IsCall (observed self.old) (observed self.new) }
        ensures stays { Stays (observed self.old) (observed self.new) }
        ensures faults { HasFaults (observed self.old) (observed self.new) (is_fault result) };
}
