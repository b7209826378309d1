//! What a table notes of the claims that are out.

ghost use Rattle.std.specs.Prelude.{◌≡◌, ◌+◌, ◌<◌, ◌^◌, length, map};
ghost use Rattle.std.specs.Option.{option_copied};
ghost use Rattle.kg_level1.specs.Changing.{names};
ghost use Rattle.kg_level2.specs.Claims.{claim_on, touched, touched_by_jump, without};

use kg_text::{CopyKey, List};

/// A claim that is out.
#[derive(Drop)]
pub(crate) struct OpenClaim<K> {
    pub(crate) key: K,
    /// The worker that took it.
    pub(crate) who: u32,
    /// The table's position when it was taken.
    pub(crate) start: u64,
    /// The greatest number of a commit since then that touched the key, 0 where none did.
    pub(crate) touch: u64,
}

impl<K> OpenClaim<K> {
    /// The worker that took it.
    pub(crate) fn taker(&self) -> u32
        ensures { result ≡ self.now.who }
    {
        self.who
    }
}

/// The claim that is out on a key.
pub(crate) fn claim_on<'a, K: CopyKey>(out: &'a [OpenClaim<K>], key: &K) -> Option<&'a OpenClaim<K>>
    ensures { option_copied result ≡ claim_on K.eq key.now out.now }
{
    out.iter().find(|claim| *key == claim.key)
}

/// Takes out the claim on a key.
pub(crate) fn close<K: CopyKey>(out: &mut Vec<OpenClaim<K>>, key: &K)
    ensures { out.new.items ≡ without K.eq key.now out.old.items }
{
    out.retain(|claim| *key != claim.key);
}

/// Notes at each claim a jump to this position.
pub(crate) fn touch_each<K: CopyKey>(out: &mut Vec<OpenClaim<K>>, to: u64)
    ensures { out.new.items ≡ map (touched_by_jump to) out.old.items }
{
    for claim in out.iter_mut() {
        claim.touch = to;
    }
}

/// Notes at each claim the last of these commits that touches its key, as `touch`.
pub(crate) fn touch_all<K: CopyKey>(
    out: &mut Vec<OpenClaim<K>>,
    from: u64,
    above: u64,
    lists: &[List<K>],
)
    requires end { from + length lists.now < 2 ^ 64 }
    ensures { out.new.items ≡ map (touched K.eq from above lists.now) out.old.items }
{
    for claim in out.iter_mut() {
        touch(claim, from, above, lists);
    }
}

// Notes the last of these commits above `above` that touches the claim's key. `lists` has the keys that each commit
// touches, the first of them commit number `from` + 1.
fn touch<K: CopyKey>(claim: &mut OpenClaim<K>, from: u64, above: u64, lists: &[List<K>])
    requires end { from + length lists.now < 2 ^ 64 }
    ensures { claim.new ≡ touched K.eq from above lists.now claim.old }
{
    let mut number = from;
    for keys in lists {
        number += 1;
        if above < number && is_named(keys.as_slice(), &claim.key) {
            claim.touch = number;
        }
    }
}

// Whether the key is among these.
fn is_named<K: CopyKey>(keys: &[K], key: &K) -> bool
    ensures { result ≡ names K.eq keys.now key.now }
{
    keys.iter().any(|other| *other == *key)
}
