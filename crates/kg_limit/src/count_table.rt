//! How many hits were let through, of each row and identity.

ghost use Rattle.std.specs.Prelude.{◌≡◌, ◌<◌, IfNone, IfOk, IfSome, None, Some, slice_get};
ghost use Rattle.indexmap.specs.IndexMap.{index_map_len};
ghost use Rattle.kg_limit.specs.Counting.{GoesOn, Sets, StandsAt, TellsSame, kept, key_of};
ghost use Rattle.kg_limit.specs.declared.count_table.CountKey.{CountKey as AKey};

use crate::counts::Counts;
use indexmap::IndexMap;
use kg_row_types::id::Id;
use kg_text::{Bytes, CopyKey, NoMemory};
use std::alloc::Global;

/// The hits that are counted together.
#[derive(PartialEq, Eq, Hash, Drop)]
pub(crate) struct CountKey {
    /// The id of the plugin row.
    pub(crate) row: Id,
    pub(crate) identity: Bytes,
}

/// How many hits were let through, of each row and identity of which there may be some in a window that isn't over.
#[derive(Drop)]
pub(crate) struct CountTable {
    pub(crate) entries: IndexMap<CountKey, Counts>,
    /// The index of the entry that is looked at next, if there is one.
    pub(crate) hand: usize,
}

impl CountTable {
    /// No hits. It takes no memory.
    pub(crate) fn new(alloc: Global) -> CountTable
        ensures { (key : AKey) → kept result key ≡ None }
    {
        CountTable {
            entries: IndexMap::new(alloc),
            hand: 0,
        }
    }

    /// The index of the entry of a row and an identity, which is made if there is none.
    pub(crate) fn place_of(
        &mut self,
        alloc: Global,
        row: Id,
        identity: &Bytes,
    ) -> Result<usize, NoMemory>
        ensures same { TellsSame 0 self.old self.new }
        ensures there { IfOk result (StandsAt self.new (key_of row identity.now)) }
    {
        let key = CountKey {
            row,
            identity: identity.copy(alloc)?,
        };
        match self.find(&key) {
            Some(at) => Ok(at),
            None => self.add(key),
        }
    }

    fn find(&self, key: &CountKey) -> Option<usize>
        ensures found { IfSome result (StandsAt self.now key.now) }
        ensures none { IfNone result (kept self.now key.now ≡ None) }
    {
        match self.entries.get_full(key) {
            Some((at, _, _)) => Some(at),
            None => None,
        }
    }

    // A new entry, of no hits.
    fn add(&mut self, key: CountKey) -> Result<usize, NoMemory>
        requires { kept self.old key ≡ None }
        ensures same { TellsSame 0 self.old self.new }
        ensures there { IfOk result (StandsAt self.new key) }
    {
        let at = self.entries.len();
        self.entries.insert(key, Counts::none())?;
        Ok(at)
    }

    /// What is kept at an index.
    pub(crate) fn at(&self, index: usize) -> Counts
        requires { index < index_map_len self.now.entries }
        ensures entry { (key : AKey) × (slice_get self.now.entries.entries index ≡ Some (key, result)) }
        ensures kept { (key : AKey) → StandsAt self.now key index → kept self.now key ≡ Some result }
    {
        let Some((_, counts)) = self.entries.get_index(index) else {
            unreachable!()
        };
        *counts
    }

    /// Keeps something else at an index.
    pub(crate) fn set(&mut self, index: usize, counts: Counts)
        requires { index < index_map_len self.old.entries }
        ensures { (key : AKey) → StandsAt self.old key index → Sets self.old self.new key (Some counts) }
    {
        let (_, kept) = self.entries.pair_mut(index);
        *kept = counts;
    }

    /// Looks at one entry, each in its turn, and gives its memory back where all its windows are over by this time.
    /// A round, in which it looks at each, takes as many calls as there are entries when it begins and come in it.
    pub(crate) fn give_back(&mut self, time: u64)
        ensures same { TellsSame time self.old self.new }
        ensures gives { GoesOn time self.old self.new }
    {
        if self.hand >= self.entries.len() {
            self.hand = 0;
        } else if self.at(self.hand).is_over(time) {
            self.entries.swap_remove_index(self.hand);
            self.give_room_back();
        } else {
            self.hand += 1;
        }
    }

    // Gives back room of which less than an eighth is used, and keeps room for as many entries again.
    fn give_room_back(&mut self)
        ensures entries { self.new.entries.entries ≡ self.old.entries.entries }
        ensures hand { self.new.hand ≡ self.old.hand }
    {
        let count = self.entries.len();
        if count < self.entries.capacity() / 8 {
            self.entries.shrink_to(count * 2);
        }
    }
}
