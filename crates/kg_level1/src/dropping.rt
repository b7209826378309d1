//! Dropping the entries that a commit touches.

ghost use Rattle.std.specs.Prelude.{◌≡◌, ◌&&◌, not, nat_lt, filter};
ghost use Rattle.kg_level1.specs.Commits.{outlasts};

use crate::held::Stored;
use kg_text::CopyKey;
use lru::LruCache;

/// Drops the key's entry, if it was read before commit `number`.
fn drop_key<K: CopyKey, V: Drop>(cache: &mut LruCache<K, Stored<V>>, key: &K, number: u64)
    ensures entries { cache.new.entries ≡ filter (λ e. not (K.eq key.now e.0 && nat_lt e.1.stamp number)) cache.old.entries }
    ensures cap { cache.new.cap ≡ cache.old.cap }
{
    // its contract says that the keys differ
    let _len = cache.len();
    let Some(entry) = cache.peek(key) else {
        return;
    };
    if entry.stamp < number {
        cache.pop(key);
    }
}

/// Drops the entries of these keys that were read before commit `number`.
pub(crate) fn drop_keys<K: CopyKey, V: Drop>(
    cache: &mut LruCache<K, Stored<V>>,
    keys: &[K],
    number: u64,
)
    ensures entries { cache.new.entries ≡ filter (outlasts K.eq number keys.now) cache.old.entries }
    ensures cap { cache.new.cap ≡ cache.old.cap }
{
    for key in keys {
        drop_key(cache, key, number);
    }
}
