//! The table that all workers share.

ghost use Rattle.std.specs.Prelude.{◌≡◌, ◌+◌, ◌≤◌, ◌<◌, ◌^◌, None, IfOk, IsOk, IsSome, OnOk, OnErr, length, option_and_then, nat_lt, Some, if◌then◌else◌};
ghost use Rattle.std.specs.Arc.{arc_value};
ghost use Rattle.kg_level2.specs.Answers.{Abandons, LooksUp, Settles};
ghost use Rattle.kg_level2.specs.Changing.{after_catch_up, after_jump, closed, end_of, taken};
ghost use Rattle.kg_level1.specs.Changing.{after_put};
ghost use Rattle.kg_level2.specs.Claims.{claim_on};
ghost use Rattle.kg_level2.specs.Shared.{empty_table};

use crate::claim::{Abandoned, Claim, Found, Settled};
use crate::notes::{OpenClaim, claim_on, close, touch_all, touch_each};
use kg_level1::Local;
use kg_text::{CopyKey, List, NoMemory};
use std::alloc::Global;
use std::marker::Model;
use std::sync::Arc;

/// The shared cache level, with the claims that are out. Contracts see its level, these claims in the order in which
/// they were taken, and its life times.
#[derive(Drop)]
pub struct Table<K: CopyKey, V> {
    alloc: Global,
    level: Local<K, V>,
    out: Vec<OpenClaim<K>>,
    /// The life of a value, in milliseconds, 0 for one without an end.
    ttl: u64,
    /// The life of a value that says that there is no row.
    neg_ttl: u64,
    /// How long a value is used past its life where it can't be loaded, 0 for not at all.
    stale: u64,
}

impl<K: CopyKey, V> Model for Table<K, V> {
    ghost use Rattle.kg_level2.specs.Shared.{Shared, shared_code};

    ghost Value = { Shared K V };

    ghost coded = { shared_code K.code V.code };

    ghost view = { λ t. record { level = t.level; out = t.out.items; ttl = t.ttl; neg_ttl = t.neg_ttl; stale = t.stale } };
}

impl<K: CopyKey, V: Drop> Table<K, V> {
    /// A table without entries and claims. Its memory comes with the entries, however large the room is. The life
    /// times are in milliseconds.
    pub fn new(
        alloc: Global,
        room: u32,
        pos: u64,
        ttl: u64,
        neg_ttl: u64,
        stale: u64,
    ) -> Result<Table<K, V>, NoMemory>
        requires { 1 ≤ room }
        ensures { IfOk result (λ table. table ≡ empty_table room pos ttl neg_ttl stale) }
    {
        Ok(Table {
            alloc,
            level: Local::new(alloc, room, pos)?,
            out: Vec::new(alloc),
            ttl,
            neg_ttl,
            stale,
        })
    }

    /// The position up to which the table knows what the commits touched.
    pub fn pos(&self) -> u64
        ensures { result ≡ self.now.level.pos }
    {
        self.level.pos()
    }

    /// Looks a key up for worker `who`, which asks for a value that holds at position `pos` or later, at a reading of
    /// the clock in milliseconds. A hit takes a share of the value, a claim memory for two copies of the key.
    pub fn lookup(
        &mut self,
        alloc: Global,
        key: &K,
        pos: u64,
        now: u64,
        who: u32,
    ) -> Result<Found<K, V>, NoMemory>
        ensures ok { IfOk result (λ found. LooksUp K.eq self.old key.now pos now who found self.new) }
        ensures err { OnErr result (self.new ≡ self.old) }
        ensures succeeds { IsSome (claim_on K.eq key.now self.old.out) → IsOk result }
    {
        if let Some(claim) = claim_on(self.out.as_slice(), key) {
            return Ok(Found::Busy { who: claim.taker() });
        }
        if let Some(held) = self.level.find(alloc, key, pos, now)? {
            return Ok(Found::Hit(held));
        }
        let claim = self.take(alloc, key, who)?;
        Ok(Found::Claimed(claim))
    }

    /// Takes a claim on a key.
    fn take(&mut self, alloc: Global, key: &K, who: u32) -> Result<Claim<K>, NoMemory>
        ensures ok { IfOk result (λ claim. (claim.key ≡ key.now) × (claim.start ≡ self.old.level.pos)) }
        ensures taken { OnOk result (self.new ≡ taken K.eq key.now who self.old) }
        ensures err { OnErr result (self.new ≡ self.old) }
    {
        let start = self.level.pos();
        let noted = OpenClaim {
            key: key.copy(alloc)?,
            who,
            start,
            touch: 0,
        };
        let key = key.copy(alloc)?;
        self.out.push(noted)?;
        Ok(Claim { key, start })
    }

    /// Takes back a claim with the value that was loaded, whether that is negative (there is no row), and the position
    /// at which it was read. The value is kept unless a commit touched the key since. It takes memory.
    pub fn settle(
        &mut self,
        claim: Claim<K>,
        val: Arc<V>,
        negative: bool,
        at: u64,
        now: u64,
    ) -> Settled
        ensures { Settles K.eq self.old claim.key (arc_value val) negative at now result self.new }
    {
        let Claim { key, start: _ } = claim;
        let touch = self.last_touch(&key, at);
        self.close(&key);
        let Some(touch) = touch else {
            return Settled::Stranger;
        };
        if at < touch {
            return Settled::Overtaken { by: touch };
        }
        match self.keep(key, val, negative, at, now) {
            Ok(expires) => Settled::Kept { expires },
            Err(NoMemory) => Settled::Unkept,
        }
    }

    /// Keeps a value that was read at position `at`, and answers the end of its life.
    fn keep(
        &mut self,
        key: K,
        val: Arc<V>,
        negative: bool,
        at: u64,
        now: u64,
    ) -> Result<u64, NoMemory>
        ensures end { IfOk result (λ expires. expires ≡ end_of (if negative then self.old.neg_ttl else self.old.ttl) now) }
        ensures ok { IfOk result (λ expires. self.new ≡ record self.old { level = after_put K.eq self.old.level key (record { val = arc_value val; stamp = at; expires = expires }) }) }
        ensures err { OnErr result (self.new ≡ self.old) }
    {
        let life = if negative { self.neg_ttl } else { self.ttl };
        let expires = end_of(life, now);
        self.level.put(self.alloc, key, val, at, expires)?;
        Ok(expires)
    }

    /// Takes back a claim whose value couldn't be loaded, and answers the key's last value where it may be used past
    /// its life. It takes a share of that value.
    pub fn abandon(&mut self, claim: Claim<K>, now: u64) -> Abandoned<V>
        ensures { Abandons K.eq self.old claim.key now result self.new }
    {
        let Claim { key, start: _ } = claim;
        self.close(&key);
        if self.stale == 0 {
            return Abandoned::Nothing;
        }
        match self.level.revive(self.alloc, &key, end_of(self.stale, now)) {
            Ok(Some(held)) => Abandoned::Stale(held),
            Ok(None) => Abandoned::Nothing,
            Err(NoMemory) => Abandoned::NoMemory,
        }
    }

    /// Takes back a claim that wasn't used.
    pub fn release(&mut self, claim: Claim<K>)
        ensures { self.new ≡ closed K.eq claim.key self.old }
    {
        let Claim { key, start: _ } = claim;
        self.close(&key);
    }

    /// Drops what the commits above the table's position touch, and notes at each claim the last that touched its key.
    /// `touched` has the keys that each commit touches, the first of them commit number `from` + 1. It answers the
    /// position after it, and takes no memory.
    pub fn catch_up(&mut self, from: u64, touched: &List<List<K>>) -> u64
        requires start { from ≤ self.old.level.pos }
        requires end { from + length touched.now < 2 ^ 64 }
        ensures position { result ≡ self.new.level.pos }
        ensures after { self.new ≡ after_catch_up K.eq from touched.now self.old }
    {
        touch_all(&mut self.out, from, self.level.pos(), touched.as_slice());
        self.level.sync(from, touched);
        self.level.pos()
    }

    /// Drops every entry and touches every claimed key, where `to` is above the table's position.
    pub fn jump(&mut self, to: u64)
        ensures { self.new ≡ after_jump to self.old }
    {
        if self.level.pos() < to {
            touch_each(&mut self.out, to);
            self.level.jump(to);
        }
    }

    /// The last touch of the claim that is out on a key, if it was taken at position `at` or before.
    fn last_touch(&self, key: &K, at: u64) -> Option<u64>
        ensures { result ≡ option_and_then (λ o. if nat_lt at o.start then None else Some o.touch) (claim_on K.eq key.now self.now.out) }
    {
        let claim = claim_on(self.out.as_slice(), key)?;
        if at < claim.start {
            None
        } else {
            Some(claim.touch)
        }
    }

    fn close(&mut self, key: &K)
        ensures { self.new ≡ closed K.eq key.now self.old }
    {
        close(&mut self.out, key);
    }
}

/// When a life that begins now ends, in milliseconds. A life of 0 has no end.
fn end_of(life: u64, now: u64) -> u64
    ensures { result ≡ end_of life now }
{
    if life == 0 {
        0
    } else {
        now.saturating_add(life)
    }
}
