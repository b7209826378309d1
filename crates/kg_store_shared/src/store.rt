//! What lies under the lock.

ghost use Rattle.std.specs.Prelude.{◌≡◌, ◌<◌, ◌≤◌, ◌+◌, [], ◌∷◌, ◌++◌, IfErr, IfOk, IsTrue, OnErr, OnOk, length};
ghost use mathlib.Core.List.{IsPrefix};
ghost use Rattle.kg_keeper.specs.Answers.{AnswersCommit, AnswersEvents, AnswersFind, AnswersLoad, AnswersPage, AnswersRefusal, AnswersRows, AreFromValidRows, is_commit_fault, is_fault, most_commits};
ghost use Rattle.kg_keeper.specs.Histories.{IsAdded};
ghost use Rattle.kg_row_changes.specs.Allowed.{is_consistent};
ghost use Rattle.kg_row_changes.specs.ValidCommands.{IsValidCommand};
ghost use Rattle.kg_row_values.specs.Rows.{rows_after};
ghost use Rattle.kg_rows.specs.Decision.{CanStandUnder, IsProper};
ghost use Rattle.kg_store_shared.specs.Seated.{HasNotLooked, IsLockedCall, observed};

use crate::hand::Hand;
use kg_entities::{GenKey, Key, Kind};
use kg_history::{HistoryName, Pass, Writer};
use kg_keeper::{
    CommitError, Committed, Events, History, KeepError, Loaded, LoadedRows, PageAsk, PageGot, Seen,
};
use kg_rows::{Command, DecideError, Draft, Parent, Select};
use kg_text::{NoMemory, TryClone};
use std::alloc::Global;
use std::marker::Model;

/// The rows and what each commit touched, and the writer of the history whose commits these are. Contracts see the
/// commits. Whenever the lock is free, the rows are those after the writer's list.
#[derive(Drop)]
pub(crate) struct Store<N: HistoryName> {
    history: History,
    writer: Writer<Command, N>,
}

impl<N: HistoryName> Model for Store<N> {
    ghost use Rattle.std.specs.Prelude.{◌≡◌, List as Sequence};
    ghost use Rattle.kg_row_values.specs.declared.command.Command.{Command as ACommand};

    ghost Value = { Sequence ACommand };

    ghost view = { λ store. store.writer };

    ghost invariant = { λ store. store.history ≡ store.writer };
}

impl<N: HistoryName> Store<N> {
    /// No commits yet. It takes no memory.
    pub(crate) fn new(alloc: Global, writer: Writer<Command, N>) -> Store<N>
        requires { writer ≡ [] }
        ensures { result ≡ [] }
    {
        Store {
            history: History::new(alloc),
            writer,
        }
    }

    /// Commits a command as it stands. Without memory nothing changes.
    pub(crate) fn admit(&mut self, alloc: Global, command: &Command) -> Result<(), NoMemory>
        requires valid { IsValidCommand command.now }
        requires consistent { IsTrue (is_consistent (rows_after self.old) command.now) }
        requires room { length self.old < most_commits }
        ensures ok { OnOk result (self.new ≡ self.old ++ command.now ∷ []) }
        ensures err { OnErr result (self.new ≡ self.old) }
    {
        self.history.append(alloc, command.try_clone(alloc)?)?;
        self.writer.append(command);
        Ok(())
    }

    /// Lets a pass see all commits.
    pub(crate) fn show(&mut self, pass: &mut Pass<Command, N>)
        ensures seen { pass.new.seen ≡ self.old }
        ensures looks { HasNotLooked pass.old pass.new }
        ensures same { self.new ≡ self.old }
    {
        self.writer.show(pass);
    }

    /// The value of a key.
    pub(crate) fn load(
        &mut self,
        alloc: Global,
        hand: &mut Hand<N>,
        key: &Key,
    ) -> Result<Loaded, KeepError>
        ensures answer { IfOk result (AnswersLoad (observed hand.new) key.now) }
        ensures call { IsLockedCall self.old hand.old hand.new (is_fault result) }
        ensures same { self.new ≡ self.old }
    {
        if hand.begin(&mut self.writer) {
            return Err(KeepError::Fault);
        }
        Ok(self.history.load(alloc, key)?)
    }

    /// The rows of a generation. They are valid.
    pub(crate) fn load_rows(
        &mut self,
        alloc: Global,
        hand: &mut Hand<N>,
        which: GenKey,
    ) -> Result<LoadedRows, KeepError>
        ensures answer { IfOk result (AnswersRows (observed hand.new) which) }
        ensures valid { IfOk result (λ loaded. AreFromValidRows which loaded.rows) }
        ensures call { IsLockedCall self.old hand.old hand.new (is_fault result) }
        ensures same { self.new ≡ self.old }
    {
        if hand.begin(&mut self.writer) {
            return Err(KeepError::Fault);
        }
        Ok(self.history.load_rows(alloc, which)?)
    }

    /// What the commits after the first `from` touched, up to number `to`.
    pub(crate) fn events(
        &mut self,
        alloc: Global,
        hand: &mut Hand<N>,
        from: u64,
        to: u64,
    ) -> Result<Events, KeepError>
        requires order { from ≤ to }
        requires seen { to ≤ length hand.old.sight.seen }
        ensures answer { IfOk result (AnswersEvents (observed hand.new) from to) }
        ensures call { IsLockedCall self.old hand.old hand.new (is_fault result) }
        ensures same { self.new ≡ self.old }
    {
        if hand.begin(&mut self.writer) {
            return Err(KeepError::Fault);
        }
        let floor = self.history.len().saturating_sub(hand.feed() as u64);
        if from < floor {
            return Ok(Events::Gap { floor });
        }
        let (keys, gens) = self.history.events(alloc, from, to)?;
        Ok(Events::Since { keys, gens })
    }

    /// Decides a change, and commits the command that makes it. On any error nothing is committed: the writer's list
    /// is as it was when the lock was taken.
    pub(crate) fn commit(
        &mut self,
        alloc: Global,
        hand: &mut Hand<N>,
        draft: &Draft,
    ) -> Result<Committed, CommitError>
        requires { IsProper draft.now }
        ensures committed { IfOk result (AnswersCommit (observed hand.old) (observed hand.new) draft.now) }
        ensures added { IfOk result (IsAdded self.old self.new hand.old.limit draft.now) }
        ensures refused { IfErr result (AnswersRefusal (observed hand.new) draft.now) }
        ensures nothing { OnErr result (self.new ≡ self.old) }
        ensures call { IsLockedCall self.new hand.old hand.new (is_commit_fault result) }
    {
        if hand.begin(&mut self.writer) {
            return Err(CommitError::Fault);
        }
        match self.history.commit(alloc, draft, hand.limit()) {
            Ok(done) => {
                add_last(&mut self.writer, &self.history);
                hand.see(&mut self.writer);
                Ok(done)
            }
            Err(DecideError::Refused(why)) => Err(CommitError::Refused {
                why,
                at: self.history.len(),
            }),
            Err(DecideError::NoMemory) => Err(CommitError::NoMemory),
        }
    }

    /// One row of a kind, among all or among those under a parent.
    pub(crate) fn find(
        &mut self,
        alloc: Global,
        hand: &mut Hand<N>,
        kind: Kind,
        parent: &Option<Parent>,
        select: &Select,
    ) -> Result<Seen, KeepError>
        requires { CanStandUnder kind parent.now }
        ensures answer { IfOk result (AnswersFind (observed hand.new) kind parent.now select.now) }
        ensures call { IsLockedCall self.old hand.old hand.new (is_fault result) }
        ensures same { self.new ≡ self.old }
    {
        if hand.begin(&mut self.writer) {
            return Err(KeepError::Fault);
        }
        Ok(self.history.find(alloc, kind, parent, select)?)
    }

    /// A page of rows.
    pub(crate) fn page(
        &mut self,
        alloc: Global,
        hand: &mut Hand<N>,
        ask: &PageAsk,
    ) -> Result<PageGot, KeepError>
        requires { CanStandUnder ask.now.kind ask.now.parent }
        ensures answer { IfOk result (AnswersPage (observed hand.new) ask.now) }
        ensures call { IsLockedCall self.old hand.old hand.new (is_fault result) }
        ensures same { self.new ≡ self.old }
    {
        if hand.begin(&mut self.writer) {
            return Err(KeepError::Fault);
        }
        Ok(self.history.page(alloc, ask)?)
    }
}

// Adds the last commit to the list that the seats see. It takes no memory.
fn add_last<N: HistoryName>(writer: &mut Writer<Command, N>, history: &History)
    requires front { IsPrefix writer.old history.now }
    requires last { length history.now ≡ length writer.old + 1 }
    ensures { writer.new ≡ history.now }
{
    let last = history.len() as usize - 1;
    writer.append(&history.commands()[last]);
}
