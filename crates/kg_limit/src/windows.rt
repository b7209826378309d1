//! Counting hits and judging them.

ghost use Rattle.std.specs.Prelude.{◌≡◌, ◌<◌, List as Sequence, [], ◌∷◌, ◌++◌, IfOk, OnOk};
ghost use Rattle.std.specs.List.{list_all};
ghost use Rattle.indexmap.specs.IndexMap.{index_map_len};
ghost use Rattle.kg_limit.specs.Counting.{Counted, TellsSame, is_free};
ghost use Rattle.kg_limit.specs.Judging.{verdict_after};
ghost use Rattle.kg_limit.specs.Representing.{HasRoom, IsRoomFor, Represents};
ghost use Rattle.kg_limit.specs.declared.hit.Hit.{Hit as AHit};

use crate::count_table::CountTable;
use crate::counts::Counts;
use crate::hit::{Hit, Verdict};
use crate::limits::Limits;
use crate::window::Window;
use kg_text::NoMemory;
use std::alloc::Global;

/// The greatest number of hits.
const MOST_HITS: u64 = 1 << 62;

/// Memory for one hit.
#[derive(Drop)]
pub(crate) struct Room {
    /// The index of the hit's entry.
    pub(crate) at: usize,
    /// The hit's limits, in whose place comes what is left of them.
    pub(crate) left: Limits,
}

/// The hits so far, as numbers: how many of each row and identity were let through in each window. Contracts say of
/// which list of hits they are, by `Represents`.
///
/// For each row and identity there is one entry, of the windows in which its last hit lies. Once its day is over it
/// gives its memory back when its turn comes: each `reserve` looks at two entries, so each comes to its turn again
/// after at most as many hits as there are entries, and no hit pays for all.
#[derive(Drop)]
pub struct Windows {
    table: CountTable,
    /// The time of the last hit, in milliseconds.
    time: u64,
    /// The number of hits.
    place: u64,
    /// Memory for the hit for which it was taken last.
    room: Option<Room>,
}

impl Windows {
    /// No hits. It takes no memory.
    pub fn new(alloc: Global) -> Windows
        ensures { Represents result [] }
    {
        Windows {
            table: CountTable::new(alloc),
            time: 0,
            place: 0,
            room: None,
        }
    }

    /// Takes the memory that a hit needs. It answers `NoMemory` where 2^62 hits were counted, too.
    pub fn reserve(&mut self, alloc: Global, hit: &Hit) -> Result<(), NoMemory>
        ensures same { (hits : Sequence AHit) → Represents self.old hits → Represents self.new hits }
        ensures room { OnOk result (HasRoom self.new hit.entry.now) }
    {
        if self.place >= MOST_HITS {
            return Err(NoMemory);
        }
        let room = room_for(alloc, &mut self.table, self.time, hit)?;
        self.room = Some(room);
        Ok(())
    }

    /// Counts a hit and judges it. It takes no memory: `reserve` took it.
    pub fn hit(&mut self, hit: &Hit) -> Verdict
        requires { HasRoom self.old hit.now }
        ensures { (hits : Sequence AHit) → Represents self.old hits → (result ≡ verdict_after hits hit.entry.now) × Represents self.new (hits ++ hit.entry.now ∷ []) }
    {
        let Some(Room { at, mut left }) = self.room.take() else {
            unreachable!()
        };
        let time = self.time.max(hit.now);
        let counts = self.table.at(at);
        let let_through = is_let_through(&counts, time, left.as_slice());
        count(&mut self.table, at, &counts, time, let_through);
        left.count_down(&counts, time, let_through);
        self.time = time;
        self.place += 1;
        Verdict {
            place: self.place,
            time,
            let_through,
            left,
        }
    }
}

// Makes room for a hit, and gives some back that isn't needed any more.
fn room_for(alloc: Global, table: &mut CountTable, time: u64, hit: &Hit) -> Result<Room, NoMemory>
    ensures same { TellsSame time table.old table.new }
    ensures room { IfOk result (IsRoomFor table.new hit.entry.now) }
{
    table.give_back(time);
    table.give_back(time);
    let at = table.place_of(alloc, hit.row, &hit.identity)?;
    Ok(Room {
        at,
        left: hit.limits.copy(),
    })
}

// Were fewer let through than may be, in each window in which a time lies?
fn is_let_through(counts: &Counts, time: u64, limits: &[(Window, u64)]) -> bool
    ensures { result ≡ list_all (is_free counts.now time) limits.now }
{
    limits
        .iter()
        .all(|limit| counts.used(limit.0, time) < limit.1)
}

// Counts a hit at the index of its entry, if it is let through.
fn count(table: &mut CountTable, at: usize, counts: &Counts, time: u64, let_through: bool)
    requires { at < index_map_len table.old.entries }
    ensures { Counted let_through at counts.now time table.old table.new }
{
    if let_through {
        table.set(at, counts.with_hit(time));
    }
}
