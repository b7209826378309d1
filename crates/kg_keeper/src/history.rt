//! The commands of a store, the rows after them, and what each touched.

ghost use Rattle.std.specs.Prelude.{◌≡◌, ◌<◌, ◌≤◌, ◌+◌, [], ◌∷◌, ◌++◌, IfErr, IfOk, IsTrue, OnErr, OnOk, length};
ghost use Rattle.std.specs.Vec.{vec_capacity, vec_len};
ghost use Rattle.kg_keeper.specs.Answers.{AreEvents, AreFromValidRows, decision_at, generation_in, most_commits, page_got, row_put};
ghost use Rattle.kg_keeper.specs.Histories.{IsAdded};
ghost use Rattle.kg_row_changes.specs.Allowed.{is_allowed, is_consistent};
ghost use Rattle.kg_row_changes.specs.ValidCommands.{IsValidCommand};
ghost use Rattle.kg_row_queries.specs.Pages.{page_of};
ghost use Rattle.kg_row_queries.specs.Selections.{found};
ghost use Rattle.kg_row_values.specs.Rows.{rows_after};
ghost use Rattle.kg_row_values.specs.Values.{generation_at, value_at};
ghost use Rattle.kg_rows.specs.Decision.{Decides, IsProper, Refuses};

use crate::answer::{Committed, Loaded, LoadedRows, PageAsk, PageGot, Seen};
use crate::feed::{Feed, gens_of, keys_of, put_last};
use crate::generation::rows_of;
use kg_entities::{Entity, GenKey, Key, Kind, Rows};
use kg_rows::{
    Command, DecideError, Draft, Page, Parent, Refusal, Select, apply, decide, found, page_of,
    value_of,
};
use kg_text::{List, NoMemory, TryClone};
use std::alloc::Global;
use std::marker::Model;

/// How many commits a history may have.
const MOST_COMMITS: u64 = 4_294_967_295;

/// The commands of a store, the rows after them, and what each touched. Contracts see the commands.
#[derive(Drop)]
pub struct History {
    rows: Rows,
    commands: Vec<Command>,
    feed: Feed,
}

impl Model for History {
    ghost use Rattle.std.specs.Prelude.{List as Sequence};
    ghost use Rattle.kg_keeper.specs.Histories.{IsKept};
    ghost use Rattle.kg_row_values.specs.declared.command.Command.{Command as ACommand};

    ghost Value = { Sequence ACommand };

    ghost view = { λ history. history.commands.items };

    ghost invariant = { λ history. IsKept history.commands.items history.rows history.feed.touched.items };
}

impl History {
    /// No commands yet. It takes no memory.
    pub fn new(alloc: Global) -> History
        ensures { result ≡ [] }
    {
        History {
            rows: Rows::new(alloc),
            commands: Vec::new(alloc),
            feed: Feed::new(alloc),
        }
    }

    /// How many commands there are.
    pub fn len(&self) -> u64
        ensures len { result ≡ length self.now }
        ensures most { result ≤ most_commits }
    {
        self.commands.len() as u64
    }

    /// The commands, from the first commit on.
    pub fn commands(&self) -> &[Command]
        ensures { result.now ≡ self.now }
    {
        self.commands.as_slice()
    }

    /// The value of a key.
    pub fn load(&self, alloc: Global, key: &Key) -> Result<Loaded, NoMemory>
        ensures { IfOk result (λ loaded. loaded ≡ record { value = value_at key.now self.now; at = length self.now }) }
    {
        let value = value_of(alloc, &self.rows, key)?;
        Ok(Loaded {
            value,
            at: self.len(),
        })
    }

    /// The rows of a generation.
    pub fn load_rows(&self, alloc: Global, which: GenKey) -> Result<LoadedRows, NoMemory>
        ensures place { IfOk result (λ loaded. loaded.at ≡ length self.now) }
        ensures rows { IfOk result (λ loaded. generation_in loaded.rows ≡ generation_at which self.now) }
        ensures valid { IfOk result (λ loaded. AreFromValidRows which loaded.rows) }
    {
        let rows = rows_of(alloc, &self.rows, which)?;
        Ok(LoadedRows {
            rows,
            at: self.len(),
        })
    }

    /// The keys and the generations that the commits after the first `from` touched, up to number `to`.
    pub fn events(
        &self,
        alloc: Global,
        from: u64,
        to: u64,
    ) -> Result<(List<List<Key>>, List<List<GenKey>>), NoMemory>
        requires order { from ≤ to }
        requires within { to ≤ length self.now }
        ensures { IfOk result (λ lists. AreEvents self.now from to lists.0 lists.1) }
    {
        let touched = self.feed.between(from as usize, to as usize);
        let keys = keys_of(alloc, touched)?;
        match gens_of(alloc, touched) {
            Ok(gens) => Ok((keys, gens)),
            Err(NoMemory) => {
                drop(keys); // let go by name: a short proof
                Err(NoMemory)
            }
        }
    }

    /// One row of a kind, among all or among those under a parent.
    pub fn find(
        &self,
        alloc: Global,
        kind: Kind,
        parent: &Option<Parent>,
        select: &Select,
    ) -> Result<Seen, NoMemory>
        ensures { IfOk result (λ seen. seen ≡ record { row = found kind parent.now select.now (rows_after self.now); at = length self.now }) }
    {
        let at = self.len();
        // no `?` beside a row: a short proof
        match found(alloc, &self.rows, kind, parent, select) {
            Ok(row) => Ok(Seen { row, at }),
            Err(NoMemory) => Err(NoMemory),
        }
    }

    /// A page of rows.
    pub fn page(&self, alloc: Global, ask: &PageAsk) -> Result<PageGot, NoMemory>
        ensures { IfOk result (λ got. got ≡ page_got (page_of ask.now.kind ask.now.parent ask.now.after ask.now.size (rows_after self.now)) (length self.now)) }
    {
        let at = self.len();
        match page_of(
            alloc,
            &self.rows,
            ask.kind,
            &ask.parent,
            ask.after,
            ask.size,
        ) {
            Ok(page) => Ok(page_got(alloc, page, at)),
            Err(NoMemory) => Err(NoMemory),
        }
    }

    /// Decides a change where a kind may have so many rows, and adds the command that makes it. Without one
    /// nothing changes.
    #[tactic(auto, using(crate::proofs::KeptLemmas::consistent_of_allowed))]
    pub fn commit(
        &mut self,
        alloc: Global,
        draft: &Draft,
        limit: u32,
    ) -> Result<Committed, DecideError>
        requires { IsProper draft.now }
        ensures ok { IfOk result (IsAdded self.old self.new limit draft.now) }
        ensures refused { IfErr result (λ e. Refuses e (decision_at self.old draft.now limit)) }
        ensures err { OnErr result (self.new ≡ self.old) }
    {
        match self.decided(alloc, draft, limit) {
            Ok(command) => match self.put(alloc, command) {
                Ok(done) => Ok(done),
                Err(NoMemory) => Err(DecideError::NoMemory),
            },
            Err(e) => Err(e),
        }
    }

    // The command that makes a change, which may then be added, or why there is none.
    fn decided(&self, alloc: Global, draft: &Draft, limit: u32) -> Result<Command, DecideError>
        requires { IsProper draft.now }
        ensures decided { Decides result (decision_at self.now draft.now limit) }
        ensures allowed { IfOk result (λ command. IsTrue (is_allowed (rows_after self.now) command limit)) }
        ensures valid { IfOk result IsValidCommand }
        ensures room { OnOk result (length self.now < most_commits) }
    {
        match decide(alloc, &self.rows, draft, limit) {
            Ok(command) => {
                if self.len() < MOST_COMMITS {
                    return Ok(command);
                }
                drop(command); // let go by name: a short proof
                Err(DecideError::Refused(Refusal::HistoryFull))
            }
            Err(e) => Err(e),
        }
    }

    // Adds a command, and copies the row that it puts.
    fn put(&mut self, alloc: Global, command: Command) -> Result<Committed, NoMemory>
        requires valid { IsValidCommand command }
        requires consistent { IsTrue (is_consistent (rows_after self.old) command) }
        requires room { length self.old < most_commits }
        ensures ok { OnOk result (self.new ≡ self.old ++ command ∷ []) }
        ensures answer { IfOk result (λ done. done ≡ record { at = length self.old + 1; row = row_put command }) }
        ensures err { OnErr result (self.new ≡ self.old) }
    {
        match row_put(alloc, &command) {
            Ok(row) => match self.append(alloc, command) {
                Ok(()) => Ok(Committed {
                    at: self.len(),
                    row,
                }),
                Err(NoMemory) => {
                    drop(row); // let go by name: a short proof
                    Err(NoMemory)
                }
            },
            Err(NoMemory) => {
                drop(command); // let go by name: a short proof
                Err(NoMemory)
            }
        }
    }

    /// Adds a command at the end. Without memory nothing changes.
    pub fn append(&mut self, alloc: Global, command: Command) -> Result<(), NoMemory>
        requires valid { IsValidCommand command }
        requires consistent { IsTrue (is_consistent (rows_after self.old) command) }
        requires room { length self.old < most_commits }
        ensures ok { OnOk result (self.new ≡ self.old ++ command ∷ []) }
        ensures err { OnErr result (self.new ≡ self.old) }
    {
        // the memory first: the command is kept once the rows have changed
        if reserve(&mut self.commands, &mut self.feed).is_err() {
            drop(command); // let go by name: a short proof
            return Err(NoMemory);
        }
        match apply(alloc, &mut self.rows, &command) {
            Ok(touched) => {
                self.feed.push(touched);
                put_last(&mut self.commands, command);
                Ok(())
            }
            Err(NoMemory) => {
                drop(command); // let go by name: a short proof
                Err(NoMemory)
            }
        }
    }
}

// Takes the memory for one more command and for what it touches.
fn reserve(commands: &mut Vec<Command>, feed: &mut Feed) -> Result<(), NoMemory>
    ensures command { OnOk result (vec_len commands.new < vec_capacity commands.new) }
    ensures touched { OnOk result (vec_len feed.new.touched < vec_capacity feed.new.touched) }
    ensures commands { commands.new.items ≡ commands.old.items }
    ensures feed { feed.new.touched.items ≡ feed.old.touched.items }
{
    commands.reserve(1)?;
    feed.reserve()
}

// A copy of the row that a command puts.
fn row_put(alloc: Global, command: &Command) -> Result<Option<Entity>, NoMemory>
    ensures { IfOk result (λ row. row ≡ row_put command.now) }
{
    match command {
        Command::Insert(row) => Ok(Some(row.try_clone(alloc)?)),
        Command::Update(row) => Ok(Some(row.try_clone(alloc)?)),
        Command::Delete { .. } => Ok(None),
    }
}

// The page and its place; none where the parent is missing.
fn page_got(alloc: Global, page: Option<Page>, at: u64) -> PageGot
    ensures { result ≡ page_got page at }
{
    match page {
        Some(page) => {
            let Page { rows, more } = page;
            PageGot {
                rows,
                more,
                parent_missing: false,
                at,
            }
        }
        None => PageGot {
            rows: List::new(alloc),
            more: false,
            parent_missing: true,
            at,
        },
    }
}
