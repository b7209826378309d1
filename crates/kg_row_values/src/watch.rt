//! Keys with their values before a change, and which of them differ after it.

ghost use Rattle.std.specs.Prelude.{◌≡◌, ◌≤◌, ◌<◌, ◌+◌, ◌⊎◌, [], ◌∷◌, ◌++◌, IfOk, map, All, Contains, length};
ghost use Rattle.std.specs.Vec.{vec_len, vec_capacity};
ghost use Rattle.indexmap.specs.IndexSet.{spare};
ghost use Rattle.kg_row_values.specs.Watching.{watched_at, IsOrderly, Noted, Differ};

use crate::value::{has_value, value_of};
use indexmap::IndexSet;
use kg_entities::{Key, Rows, Value};
use kg_text::{CopyKey, List, NoMemory};
use std::alloc::Global;

/// A key with its value before a change.
#[derive(Drop)]
pub struct Watched {
    pub key: Key,
    pub before: Value,
}

/// The keys with their values at these rows.
pub fn watch(alloc: Global, rows: &Rows, asked: Vec<Key>) -> Result<Vec<Watched>, NoMemory>
    ensures { IfOk result (λ watched. watched.items ≡ map (watched_at rows.now) asked.items) }
{
    let mut watched = Vec::with_capacity(alloc, asked.len())?;
    for key in asked {
        let before = value_of(alloc, rows, &key)?;
        watched.push(Watched { key, before })?;
    }
    Ok(watched)
}

/// The keys whose value differs from what it was, each once. It takes no memory: the room is given.
pub fn differing(rows: &Rows, watched: Vec<Watched>, room: IndexSet<Key>) -> IndexSet<Key>
    requires empty { room.keys ≡ [] }
    requires room { length watched.items ≤ spare room }
    ensures differ { All (λ w. IsOrderly w.before) watched.items → Differ rows.now watched.items result.keys }
    ensures len { length result.keys ≤ length watched.items }
{
    let mut keys = room;
    for w in watched {
        note(rows, &mut keys, w);
    }
    keys
}

// Keeps the key where its value differs, unless it is kept.
fn note(rows: &Rows, keys: &mut IndexSet<Key>, watched: Watched)
    requires { 0 < spare keys.old }
    ensures noted { IsOrderly watched.before → Noted rows.now watched keys.old.keys keys.new.keys }
    ensures room { spare keys.old ≤ spare keys.new + 1 }
    ensures len { length keys.new.keys ≤ length keys.old.keys + 1 }
{
    if has_value(rows, &watched.key, &watched.before) {
        return;
    }
    keep(keys, watched.key);
}

fn keep<K: CopyKey>(keys: &mut IndexSet<K>, key: K)
    requires { 0 < spare keys.old }
    ensures kept { ((keys.new.keys ≡ keys.old.keys) × Contains keys.old.keys key) ⊎ ((keys.new.keys ≡ keys.old.keys ++ key ∷ []) × (¬ (Contains keys.old.keys key))) }
    ensures room { spare keys.old ≤ spare keys.new + 1 }
{
    let Ok(_) = keys.insert(key) else {
        unreachable!()
    };
}

/// The keys in a list for which there is room. It takes no memory.
pub fn listed(keys: IndexSet<Key>, room: Vec<Key>) -> List<Key>
    requires empty { room.items ≡ [] }
    requires room { length keys.keys ≤ vec_capacity room }
    ensures { result ≡ keys.keys }
{
    let mut list = room;
    for key in keys {
        add(&mut list, key);
    }
    List::from_vec(list)
}

fn add(list: &mut Vec<Key>, key: Key)
    requires { vec_len list.old < vec_capacity list.old }
    ensures items { list.new.items ≡ list.old.items ++ key ∷ [] }
    ensures room { vec_capacity list.old ≤ vec_capacity list.new }
    ensures len { vec_len list.new ≤ vec_len list.old + 1 }
{
    let Ok(()) = list.push(key) else {
        unreachable!()
    };
}
