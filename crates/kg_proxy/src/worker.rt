//! A worker.

ghost use Rattle.std.specs.Prelude.{◌≡◌, ◌+◌, ◌≤◌, false, IfOk, IfSome, IsOk, IsTrue, None, OnErr, OnOk, length, option_map};
ghost use Rattle.std.specs.Arc.{arc_value};
ghost use Rattle.kg_level1.specs.Changing.{after_put};
ghost use Rattle.kg_level1.specs.Reading.{HasSameEntries, after_answer, live_entry, shown};
ghost use Rattle.kg_generation.specs.Generations.{is_of_kind};
ghost use Rattle.kg_row_types.specs.Values.{answers_key};
ghost use Rattle.kg_visit.specs.Told.{want_after};
ghost use Rattle.kg_proxy.specs.Advancing.{Advances, IsLeft, IsStopAt, OwnUse, local_use};
ghost use Rattle.kg_proxy.specs.Workers.{HasSameHolding, TellsAll, after_events, empty_worker, key_eq, kind_eq};

use crate::stop::{Stop, stop_at};
use kg_course::Want;
use kg_generation::Gen;
use kg_keeper::Events;
use kg_level::Level;
use kg_level1::{Held, Local};
use kg_row_types::key::{GenKey, Key};
use kg_row_types::value::Value;
use kg_settings::Settings;
use kg_text::{CopyKey, NoMemory, TryClone};
use kg_visit::{Used, Visit};
use std::alloc::Global;
use std::marker::Model;
use std::sync::Arc;

// The services and routes, and the plugin rows.
const GENERATIONS: u32 = 2;

/// What one worker keeps for itself: values of keys, and the two generations. Contracts see its number and both levels.
#[derive(Drop)]
pub struct Worker {
    number: u32,
    keys: Local<Key, Value>,
    gens: Local<GenKey, Gen>,
}

impl Model for Worker {
    ghost use Rattle.kg_proxy.specs.Workers.{Holding, IsWorker};

    ghost Value = { Holding };

    ghost view = { λ worker. record { number = worker.number; keys = worker.keys; gens = worker.gens } };

    ghost invariant = { λ worker. IsWorker (record { number = worker.number; keys = worker.keys; gens = worker.gens }) };
}

impl Worker {
    /// A worker that keeps nothing yet and stands at this position.
    pub fn new(
        alloc: Global,
        number: u32,
        settings: &Settings,
        pos: u64,
    ) -> Result<Worker, NoMemory>
        requires { 1 ≤ settings.now.local }
        ensures { IfOk result (λ worker. worker ≡ empty_worker number settings.now.local pos) }
    {
        Ok(Worker {
            number,
            keys: Local::new(alloc, settings.local, pos)?,
            gens: Local::new(alloc, GENERATIONS, pos)?,
        })
    }

    pub fn number(&self) -> u32
        ensures { result ≡ self.now.number }
    {
        self.number
    }

    /// The position up to which it knows what the commits touched.
    pub fn pos(&self) -> u64
        ensures { result ≡ self.now.keys.pos }
    {
        self.keys.pos()
    }

    /// The generation of this kind that it keeps, if its life isn't over. It takes a share.
    pub fn held(
        &mut self,
        alloc: Global,
        which: GenKey,
        now: u64,
    ) -> Result<Option<Held<Gen>>, NoMemory>
        ensures found { IfOk result (λ held. option_map shown held ≡ live_entry kind_eq self.old.gens which now) }
        ensures after { OnOk result (self.new ≡ record self.old { gens = after_answer kind_eq self.old.gens which (live_entry kind_eq self.old.gens which now) }) }
        ensures same { OnErr result (self.new ≡ self.old) }
        ensures succeeds { live_entry kind_eq self.old.gens which now ≡ None → IsOk result }
        ensures kind { IfOk result (λ held. IfSome held (λ gen. IsTrue (is_of_kind which (arc_value gen.val)))) }
    {
        self.gens.get(alloc, &which, now)
    }

    /// Keeps a value that a request used until `expires`, a reading of the clock in milliseconds, or without an end where
    /// that is 0.
    pub fn keep(&mut self, alloc: Global, used: &Used, expires: u64) -> Result<(), NoMemory>
        requires late { self.old.keys.pos ≤ used.now.at }
        requires fits { IsTrue (answers_key used.now.key used.now.value) }
        ensures ok { OnOk result (self.new ≡ record self.old { keys = after_put key_eq self.old.keys used.now.key (record { val = used.now.value; stamp = used.now.at; expires = expires }) }) }
        ensures err { OnErr result (self.new ≡ self.old) }
    {
        let key = used.key.try_clone(alloc)?;
        let val = Arc::try_clone(&used.value)?;
        self.keys.put(alloc, key, val, used.at, expires)
    }

    /// Keeps a generation that was built of the rows at position `at`, without an end.
    pub fn keep_gen(
        &mut self,
        alloc: Global,
        which: GenKey,
        built: Arc<Gen>,
        at: u64,
    ) -> Result<(), NoMemory>
        requires late { self.old.gens.pos ≤ at }
        requires kind { IsTrue (is_of_kind which (arc_value built)) }
        ensures ok { OnOk result (self.new ≡ record self.old { gens = after_put kind_eq self.old.gens which (record { val = arc_value built; stamp = at; expires = 0 }) }) }
        ensures err { OnErr result (self.new ≡ self.old) }
    {
        self.gens.put(alloc, which, built, at, 0)
    }

    /// Drops what the commits after the first `from` touch, of which it is told up to number `to`; all where that isn't
    /// kept any more.
    pub fn sync(&mut self, from: u64, events: &Events, to: u64)
        requires start { from ≤ self.old.keys.pos }
        requires order { from ≤ to }
        requires all { TellsAll from events.now to }
        ensures { self.new ≡ after_events from events.now to self.old }
    {
        match events {
            Events::Since { keys, gens } => {
                self.keys.sync(from, keys);
                self.gens.sync(from, gens);
            }
            Events::Gap { .. } => {
                self.keys.jump(to);
                self.gens.jump(to);
            }
        }
    }

    /// Answers each key that the request wants and of which it keeps a live value, and says what the request waits for
    /// then. Nothing but the order of what it keeps changes.
    pub fn advance(&mut self, alloc: Global, visit: &mut Visit, now: u64) -> Result<Stop, NoMemory>
        requires whole { visit.old.lost ≡ false }
        ensures same { HasSameHolding self.old self.new }
        ensures uses { OnOk result (Advances self.old.keys now visit.old visit.new) }
        ensures left { OnOk result (IsLeft self.old.keys now (want_after visit.new)) }
        ensures stop { IfOk result (λ stop. IsStopAt (want_after visit.new) stop) }
        ensures whole { OnOk result (visit.new.lost ≡ false) }
    {
        while let Some(used) = self.own_use(alloc, visit.want(), now)? {
            visit.give_entity(alloc, used)?;
        }
        stop_at(alloc, visit.want())
    }

    // The value of the key that is wanted, if it keeps a live one.
    fn own_use(&mut self, alloc: Global, want: &Want, now: u64) -> Result<Option<Used>, NoMemory>
        ensures same { HasSameHolding self.old self.new }
        ensures used { IfOk result (λ used. OwnUse self.old.keys now want.now used) }
        ensures fits { IfOk result (λ used. IfSome used (λ u. IsTrue (answers_key u.key u.value))) }
    {
        let Want::Entity(key) = want else {
            return Ok(None);
        };
        let Some(held) = self.keys.get(alloc, key, now)? else {
            return Ok(None);
        };
        Ok(Some(own_value(alloc, key, held)?))
    }
}

// The use of a key's entry.
fn own_value(alloc: Global, key: &Key, held: Held<Value>) -> Result<Used, NoMemory>
    ensures { IfOk result (λ used. used ≡ local_use key.now (shown held)) }
{
    let Held { val, at, .. } = held;
    match key.try_clone(alloc) {
        Ok(key) => Ok(Used {
            key,
            value: val,
            at,
            level: Level::Local,
        }),
        Err(e) => {
            drop(val); // let go by name: a short proof
            Err(e)
        }
    }
}
