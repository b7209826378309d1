//! The way of one key through the shared level.

ghost use Rattle.std.specs.Prelude.{◌≡◌, IfOk, Some, option_map};
ghost use Rattle.std.specs.Arc.{arc_value};
ghost use Rattle.kg_level1.specs.Reading.{shown};
ghost use Rattle.kg_layers.specs.Fetching.{after_abandoned, after_claim, after_fault, after_found, after_load, after_settled, ask_of, begun, claim_of, got_of, keep_of, loaded_of, shown_ready};
ghost use Rattle.kg_layers.specs.Stages.{HoldsClaim, IsAbandoned, IsGot, IsHanded, IsLoading, IsLooking, IsSettling};

use crate::step::{Step, put};
use kg_level::Level;
use kg_level1::Held;
use kg_level2::{Claim, Found, Settled};
use kg_text::{CopyKey, NoMemory};
use std::alloc::Global;
use std::marker::Model;
use std::mem;
use std::sync::Arc;

/// What a fetch wants next.
#[derive(Clone, Copy, Debug, PartialEq, Eq)]
pub enum Ask {
    /// A look-up of its key in the shared table.
    Table,
    /// A load of its key.
    Load,
    /// Its claim settled, with the value that was loaded.
    Settle,
    /// Its claim abandoned.
    Abandon,
    /// Nothing: there is a value.
    Ready,
    /// Nothing: there is no value.
    Failed,
}

/// The value that a fetch came to.
#[derive(Drop)]
pub struct Ready<V> {
    pub val: Arc<V>,
    /// A position at which the key has this value.
    pub at: u64,
    /// Where the value was found.
    pub level: Level,
    /// The end of life with which the worker's own level may keep it, stamped `at`; none where it may not.
    pub keep: Option<u64>,
}

/// The way of one key through the shared level: looked up there, and where it isn't found loaded and settled, or
/// abandoned. Contracts see the key, the position that the value must have, and how far the fetch has come. It may
/// hold a claim, so it can't be dropped: `ready` or `give_up` ends it.
#[must_use]
pub struct Fetch<K: CopyKey, V> {
    key: K,
    pos: u64,
    step: Step<K, V>,
}

impl<K: CopyKey, V> Model for Fetch<K, V> {
    ghost use Rattle.kg_layers.specs.Stages.{Fetching};
    ghost use Rattle.kg_layers.specs.Steps.{stage_of};

    ghost Value = { Fetching K V };

    ghost view = { λ fetch. record { key = fetch.key; pos = fetch.pos; stage = stage_of fetch.step } };
}

impl<K: CopyKey, V: Drop> Fetch<K, V> {
    /// A fetch of a value that holds at position `pos` or later.
    pub fn begin(key: K, pos: u64) -> Fetch<K, V>
        ensures { result ≡ begun key pos }
    {
        Fetch {
            key,
            pos,
            step: Step::Looking,
        }
    }

    /// What it wants next.
    pub fn want(&self) -> Ask
        ensures { result ≡ ask_of self.now.stage }
    {
        match &self.step {
            Step::Looking => Ask::Table,
            Step::Loading(_) => Ask::Load,
            Step::Settling { .. } | Step::Handed { .. } => Ask::Settle,
            Step::Abandoning(_) | Step::Left => Ask::Abandon,
            Step::Got(_) => Ask::Ready,
            Step::Lost => Ask::Failed,
        }
    }

    /// The key that is fetched.
    pub fn key(&self) -> &K
        ensures { result.now ≡ self.now.key }
    {
        &self.key
    }

    /// The position that the value must have, or a later one.
    pub fn pos(&self) -> u64
        ensures { result ≡ self.now.pos }
    {
        self.pos
    }

    /// Hands in what the look-up gave: a value ends the fetch, a claim is loaded, and a busy key is to be looked up
    /// again.
    pub fn give_found(&mut self, found: Found<K, V>)
        requires { IsLooking self.old.stage }
        ensures { self.new ≡ record self.old { stage = after_found found } }
    {
        match mem::replace(&mut self.step, Step::Lost) {
            Step::Looking => {}
            _ => unreachable!(),
        }
        let next = match found {
            Found::Hit(Held { val, at, expires }) => Step::Got(Ready {
                val,
                at,
                level: Level::Shared,
                keep: Some(expires),
            }),
            Found::Claimed(claim) => Step::Loading(claim),
            Found::Busy { who: _ } => Step::Looking,
        };
        put(&mut self.step, next);
    }

    /// Hands in the value that was loaded, and the position at which it was read.
    pub fn give_loaded(&mut self, val: Arc<V>, at: u64)
        requires { IsLoading self.old.stage }
        ensures { self.new ≡ record self.old { stage = after_load (arc_value val) at self.old.stage } }
    {
        match mem::replace(&mut self.step, Step::Lost) {
            Step::Loading(claim) => put(&mut self.step, Step::Settling { claim, val, at }),
            _ => unreachable!(),
        }
    }

    /// Says that the value couldn't be loaded.
    pub fn give_fault(&mut self)
        requires { IsLoading self.old.stage }
        ensures { self.new ≡ record self.old { stage = after_fault self.old.stage } }
    {
        match mem::replace(&mut self.step, Step::Lost) {
            Step::Loading(claim) => put(&mut self.step, Step::Abandoning(claim)),
            _ => unreachable!(),
        }
    }

    /// Takes the claim out, once, to settle or to abandon it.
    pub fn take_claim(&mut self) -> Claim<K>
        requires { HoldsClaim self.old.stage }
        ensures claim { claim_of self.old.stage ≡ Some result }
        ensures after { self.new ≡ record self.old { stage = after_claim self.old.stage } }
    {
        match mem::replace(&mut self.step, Step::Lost) {
            Step::Settling { claim, val, at } => {
                put(&mut self.step, Step::Handed { val, at });
                claim
            }
            Step::Abandoning(claim) => {
                put(&mut self.step, Step::Left);
                claim
            }
            _ => unreachable!(),
        }
    }

    /// The value that was loaded and its position. It takes a share of the value: to be called before `take_claim`, so
    /// that the claim is still here where that share can't be had.
    pub fn loaded(&self, alloc: Global) -> Result<(Arc<V>, u64), NoMemory>
        requires { IsSettling self.now.stage }
        ensures { IfOk result (λ read. loaded_of self.now.stage ≡ Some (arc_value read.0, read.1)) }
    {
        match &self.step {
            Step::Settling { val, at, .. } | Step::Handed { val, at } => {
                Ok((Arc::try_clone(val)?, *at))
            }
            _ => unreachable!(),
        }
    }

    /// Hands in what became of the loaded value. It ends the fetch with that value in each case.
    pub fn give_settled(&mut self, settled: Settled)
        requires { IsHanded self.old.stage }
        ensures { self.new ≡ record self.old { stage = after_settled settled self.old.stage } }
    {
        match mem::replace(&mut self.step, Step::Lost) {
            Step::Handed { val, at } => put(
                &mut self.step,
                Step::Got(Ready {
                    val,
                    at,
                    level: Level::Loaded,
                    keep: keep_of(settled),
                }),
            ),
            _ => unreachable!(),
        }
    }

    /// Hands in what the abandoned claim left: the value of before, or none.
    pub fn give_abandoned(&mut self, held: Option<Held<V>>)
        requires { IsAbandoned self.old.stage }
        ensures { self.new ≡ record self.old { stage = after_abandoned (option_map shown held) } }
    {
        let next = match held {
            Some(Held { val, at, expires }) => Step::Got(Ready {
                val,
                at,
                level: Level::Stale,
                keep: Some(expires),
            }),
            None => Step::Lost,
        };
        match mem::replace(&mut self.step, Step::Lost) {
            Step::Left => put(&mut self.step, next),
            _ => unreachable!(),
        }
    }

    /// Ends the fetch. A claim that wasn't taken out comes back.
    pub fn give_up(self) -> Option<Claim<K>>
        ensures { result ≡ claim_of self.stage }
    {
        let Fetch { key, pos: _, step } = self;
        drop(key);
        step.into_claim()
    }

    /// Ends the fetch with its value.
    pub fn ready(self) -> Ready<V>
        requires { IsGot self.stage }
        ensures { got_of self.stage ≡ Some (shown_ready result) }
    {
        let Fetch { key, pos: _, step } = self;
        drop(key);
        match step {
            Step::Got(ready) => ready,
            _ => unreachable!(),
        }
    }
}

// The end of life with which a worker may keep a value that was settled so.
fn keep_of(settled: Settled) -> Option<u64>
    ensures { result ≡ keep_of settled }
{
    match settled {
        Settled::Kept { expires } => Some(expires),
        Settled::Overtaken { .. } | Settled::Unkept | Settled::Stranger => None,
    }
}
