//! The level of one worker.

ghost use Rattle.std.specs.Prelude.{◌≡◌, ◌+◌, ◌≤◌, ◌<◌, ◌^◌, None, IfOk, IsOk, OnOk, OnErr, length};
ghost use Rattle.std.specs.Arc.{arc_value};
ghost use Rattle.std.specs.Map.{lookup};
ghost use Rattle.std.specs.Option.{option_map};
ghost use Rattle.kg_level1.specs.Changing.{after_extend, after_jump, after_put, after_sync};
ghost use Rattle.kg_level1.specs.Commits.{after_commit};
ghost use Rattle.kg_level1.specs.Entries.{empty_level};
ghost use Rattle.kg_level1.specs.Reading.{after_answer, found_entry, live_entry, revived_entry, shown};

use crate::dropping::drop_keys;
use crate::held::{Held, Stored};
use kg_text::{CopyKey, List, NoMemory};
use lru::LruCache;
use std::alloc::Global;
use std::marker::Model;
use std::num::NonZeroUsize;
use std::sync::Arc;

/// A cache level: at most as many entries as it has room for, each a key's value with the position at which it was
/// read and the end of its life. Contracts see its room, its position and its entries, the one used last first.
#[derive(Drop)]
pub struct Local<K: CopyKey, V> {
    cache: LruCache<K, Stored<V>>,
    /// The position up to which the level knows what the commits touched.
    pos: u64,
}

impl<K: CopyKey, V> Model for Local<K, V> {
    ghost use Rattle.kg_level1.specs.Entries.{Level, level_code};

    ghost Value = { Level K V };

    ghost coded = { level_code K.code V.code };

    ghost view = { λ l. record { room = l.cache.cap; pos = l.pos; entries = l.cache.entries } };
}

impl<K: CopyKey, V: Drop> Local<K, V> {
    /// A level without entries. Its memory comes with the entries, however large the room is.
    pub fn new(alloc: Global, room: u32, pos: u64) -> Result<Local<K, V>, NoMemory>
        requires { 1 ≤ room }
        ensures { IfOk result (λ level. level ≡ empty_level room pos) }
    {
        let Some(cap) = NonZeroUsize::new(room as usize) else {
            unreachable!()
        };
        Ok(Local {
            cache: LruCache::sparse(alloc, cap)?,
            pos,
        })
    }

    /// The position up to which the level knows what the commits touched.
    pub fn pos(&self) -> u64
        ensures { result ≡ self.now.pos }
    {
        self.pos
    }

    /// The key's live entry at a reading of the clock, in milliseconds. Its position is the greater of its stamp and
    /// the level's position. It takes a share of the value.
    pub fn get(&mut self, alloc: Global, key: &K, now: u64) -> Result<Option<Held<V>>, NoMemory>
        ensures found { IfOk result (λ held. option_map shown held ≡ live_entry K.eq self.old key.now now) }
        ensures after { OnOk result (self.new ≡ after_answer K.eq self.old key.now (live_entry K.eq self.old key.now now)) }
        ensures same { OnErr result (self.new ≡ self.old) }
        ensures succeeds { live_entry K.eq self.old key.now now ≡ None → IsOk result }
    {
        self.find(alloc, key, 0, now)
    }

    /// The same, where the entry's position is at least `least`.
    pub fn find(
        &mut self,
        alloc: Global,
        key: &K,
        least: u64,
        now: u64,
    ) -> Result<Option<Held<V>>, NoMemory>
        ensures found { IfOk result (λ held. option_map shown held ≡ found_entry K.eq self.old key.now least now) }
        ensures after { OnOk result (self.new ≡ after_answer K.eq self.old key.now (found_entry K.eq self.old key.now least now)) }
        ensures same { OnErr result (self.new ≡ self.old) }
        ensures succeeds { found_entry K.eq self.old key.now least now ≡ None → IsOk result }
    {
        let pos = self.pos;
        let Some(entry) = self.cache.peek(key) else {
            return Ok(None);
        };
        let at = entry.stamp.max(pos);
        if !entry.is_live(now) || at < least {
            return Ok(None);
        }
        let expires = entry.expires;
        let val = Arc::try_clone(&entry.val)?;
        self.cache.promote(key);
        Ok(Some(Held { val, at, expires }))
    }

    /// Keeps a value that was read at the position `stamp` until `expires`, a reading of the clock in milliseconds, or
    /// without an end where that is 0. A new key takes memory, and in a full level it takes the place of the entry not
    /// used for longest.
    pub fn put(
        &mut self,
        alloc: Global,
        key: K,
        val: Arc<V>,
        stamp: u64,
        expires: u64,
    ) -> Result<(), NoMemory>
        ensures ok { OnOk result (self.new ≡ after_put K.eq self.old key (record { val = arc_value val; stamp = stamp; expires = expires })) }
        ensures err { OnErr result (self.new ≡ self.old) }
    {
        self.cache.put(
            key,
            Stored {
                val,
                stamp,
                expires,
            },
        )?;
        Ok(())
    }

    /// The key's entry, live or not, with a new end of its life. It takes a share of the value, and no entry changes
    /// where there is none.
    pub fn revive(
        &mut self,
        alloc: Global,
        key: &K,
        until: u64,
    ) -> Result<Option<Held<V>>, NoMemory>
        ensures found { IfOk result (λ held. option_map shown held ≡ revived_entry K.eq self.old key.now until) }
        ensures after { OnOk result (self.new ≡ after_extend K.eq self.old key.now until) }
        ensures same { OnErr result (self.new ≡ self.old) }
        ensures succeeds { lookup (K.eq key.now) self.old.entries ≡ None → IsOk result }
    {
        let pos = self.pos;
        let Some(entry) = self.cache.peek(key) else {
            return Ok(None);
        };
        let at = entry.stamp.max(pos);
        let val = Arc::try_clone(&entry.val)?;
        if let Some(entry) = self.cache.get_mut(key) {
            entry.expires = until;
        }
        Ok(Some(Held {
            val,
            at,
            expires: until,
        }))
    }

    /// Drops what the commits above the level's position touch. `touched` has the keys that each commit touches, the
    /// first of them commit number `from` + 1. It takes no memory, and looks at the touched keys alone.
    pub fn sync(&mut self, from: u64, touched: &List<List<K>>)
        requires start { from ≤ self.old.pos }
        requires end { from + length touched.now < 2 ^ 64 }
        ensures { self.new ≡ after_sync K.eq from touched.now self.old }
    {
        let mut number = from;
        let lists = touched.as_slice();
        for keys in lists {
            number += 1;
            self.commit(number, keys);
        }
    }

    /// Drops what a commit touches, if it is above the level's position.
    fn commit(&mut self, number: u64, keys: &List<K>)
        ensures { self.new ≡ after_commit K.eq number keys.now self.old }
    {
        if self.pos < number {
            drop_keys(&mut self.cache, keys.as_slice(), number);
            self.pos = number;
        }
    }

    /// Drops every entry, where `to` is above the level's position.
    pub fn jump(&mut self, to: u64)
        ensures { self.new ≡ after_jump to self.old }
    {
        if self.pos < to {
            self.cache.clear();
            self.pos = to;
        }
    }
}
