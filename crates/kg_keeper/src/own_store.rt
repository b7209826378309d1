//! A store in memory with one owner.

ghost use Rattle.std.specs.Prelude.{◌≡◌, ◌<◌, ◌+◌, [], ◌∷◌, ◌++◌, IfOk, IsTrue, OnErr, OnOk, length, max};
ghost use Rattle.kg_keeper.specs.Answers.{floor_of, most_commits};
ghost use Rattle.kg_keeper.specs.Observed.{HasFaults, IsCall};
ghost use Rattle.kg_keeper.specs.Plans.{coming};
ghost use Rattle.kg_keeper.specs.Stores.{observed};
ghost use Rattle.kg_row_changes.specs.Allowed.{is_allowed};
ghost use Rattle.kg_row_changes.specs.ValidCommands.{IsValidCommand};
ghost use Rattle.kg_row_values.specs.Rows.{rows_after};

use crate::answer::{
    CommitError, Committed, Events, KeepError, Loaded, LoadedRows, PageAsk, PageGot, Seen,
};
use crate::history::History;
use crate::keeper::Keeper;
use crate::plan::Plan;
use kg_entities::{GenKey, Key, Kind};
use kg_rows::{Command, DecideError, Draft, Parent, Select};
use kg_text::{List, NoMemory, TryClone};
use std::alloc::Global;
use std::marker::Model;

/// A store in memory. Nobody but its owner commits, and its calls fail only where that was planned.
#[derive(Drop)]
pub struct OwnStore {
    history: History,
    plan: Plan,
    limit: u32,
    feed: u32,
}

impl Model for OwnStore {
    ghost use Rattle.kg_keeper.specs.Stores.{Store};

    ghost Value = { Store };

    ghost view = { λ store. record {
      commands = store.history;
      limit = store.limit;
      feed = store.feed;
      plan = store.plan;
    } };
}

impl OwnStore {
    /// No commits yet. A kind may have at most `rows` rows, and what the last `feed` commits touched is
    /// told. The calls other than `look` fail whose numbers from 1 are listed, and no others unless they
    /// are announced.
    pub fn new(alloc: Global, rows: u32, feed: u32, fails: List<u64>) -> Result<OwnStore, NoMemory>
        ensures { IfOk result (λ store. store ≡ record { commands = []; limit = rows; feed = feed; plan = record { calls = 0; faults = 0; announced = 0; listed = coming 0 fails } }) }
    {
        Ok(OwnStore {
            history: History::new(alloc),
            plan: Plan::new(fails),
            limit: rows,
            feed,
        })
    }

    /// Commits a command as it stands, and answers the number of commits. It is none of the calls that may
    /// fail. Without memory nothing changes.
    #[tactic(auto, using(crate::proofs::KeptLemmas::consistent_of_allowed))]
    pub fn admit(&mut self, alloc: Global, command: &Command) -> Result<u64, NoMemory>
        requires valid { IsValidCommand command.now }
        requires allowed { IsTrue (is_allowed (rows_after self.old.commands) command.now self.old.limit) }
        requires room { length self.old.commands < most_commits }
        ensures ok { OnOk result (self.new ≡ record self.old { commands = self.old.commands ++ command.now ∷ [] }) }
        ensures place { IfOk result (λ at. at ≡ length self.old.commands + 1) }
        ensures err { OnErr result (self.new ≡ self.old) }
    {
        self.history.append(alloc, command.try_clone(alloc)?)?;
        Ok(self.history.len())
    }

    /// The number of commits below which it isn't told any more what later ones touched.
    pub fn floor(&self) -> u64
        ensures { result ≡ floor_of self.now.feed self.now.commands }
    {
        self.history.len().saturating_sub(self.feed as u64)
    }

    /// At least the next `calls` calls other than `look` fail. What was announced before stays.
    pub fn fail_next(&mut self, calls: u32)
        ensures { self.new ≡ record self.old { plan = record self.old.plan { announced = max self.old.plan.announced calls } } }
    {
        self.plan.announce(calls);
    }

    // Counts a call, and tells whether it fails.
    fn begin(&mut self) -> bool
        ensures call { IsCall (observed self.old) (observed self.new) }
        ensures faults { HasFaults (observed self.old) (observed self.new) result }
        ensures same { self.new ≡ record self.old { plan = self.new.plan } }
    {
        self.plan.next()
    }
}

impl Keeper for OwnStore {
    ghost observed = { observed };

    fn look(&mut self) -> u64 {
        self.history.len()
    }

    fn load(&mut self, alloc: Global, key: &Key) -> Result<Loaded, KeepError> {
        if self.begin() {
            return Err(KeepError::Fault);
        }
        Ok(self.history.load(alloc, key)?)
    }

    fn load_rows(&mut self, alloc: Global, which: GenKey) -> Result<LoadedRows, KeepError> {
        if self.begin() {
            return Err(KeepError::Fault);
        }
        Ok(self.history.load_rows(alloc, which)?)
    }

    fn events(&mut self, alloc: Global, from: u64, to: u64) -> Result<Events, KeepError> {
        if self.begin() {
            return Err(KeepError::Fault);
        }
        let floor = self.floor();
        if from < floor {
            return Ok(Events::Gap { floor });
        }
        let (keys, gens) = self.history.events(alloc, from, to)?;
        Ok(Events::Since { keys, gens })
    }

    fn commit(&mut self, alloc: Global, draft: &Draft) -> Result<Committed, CommitError> {
        if self.begin() {
            return Err(CommitError::Fault);
        }
        match self.history.commit(alloc, draft, self.limit) {
            Ok(done) => Ok(done),
            Err(DecideError::Refused(why)) => Err(CommitError::Refused {
                why,
                at: self.history.len(),
            }),
            Err(DecideError::NoMemory) => Err(CommitError::NoMemory),
        }
    }

    fn find(
        &mut self,
        alloc: Global,
        kind: Kind,
        parent: &Option<Parent>,
        select: &Select,
    ) -> Result<Seen, KeepError> {
        if self.begin() {
            return Err(KeepError::Fault);
        }
        Ok(self.history.find(alloc, kind, parent, select)?)
    }

    fn page(&mut self, alloc: Global, ask: &PageAsk) -> Result<PageGot, KeepError> {
        if self.begin() {
            return Err(KeepError::Fault);
        }
        Ok(self.history.page(alloc, ask)?)
    }
}
