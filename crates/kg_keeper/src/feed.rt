//! What commits touched.

ghost use Rattle.std.specs.Prelude.{◌≡◌, ◌-◌, ◌+◌, ◌≤◌, ◌<◌, [], ◌∷◌, ◌++◌, IfOk, OnOk, drop, length, map, take};
ghost use Rattle.std.specs.Vec.{vec_capacity, vec_len};

use kg_entities::{GenKey, Key};
use kg_rows::Touched;
use kg_text::{List, NoMemory, TryClone};
use std::alloc::Global;

/// What each commit touched, from the first one on.
#[derive(Drop)]
pub(crate) struct Feed {
    pub(crate) touched: Vec<Touched>,
}

impl Feed {
    /// There are no commits. It takes no memory.
    pub(crate) fn new(alloc: Global) -> Feed
        ensures { result.touched.items ≡ [] }
    {
        Feed {
            touched: Vec::new(alloc),
        }
    }

    /// Takes the memory for one more commit.
    pub(crate) fn reserve(&mut self) -> Result<(), NoMemory>
        ensures room { OnOk result (vec_len self.new.touched < vec_capacity self.new.touched) }
        ensures same { self.new.touched.items ≡ self.old.touched.items }
    {
        self.touched.reserve(1)?;
        Ok(())
    }

    /// One more commit touched this. It takes no memory: the room is there.
    pub(crate) fn push(&mut self, touched: Touched)
        requires { vec_len self.old.touched < vec_capacity self.old.touched }
        ensures { self.new.touched.items ≡ self.old.touched.items ++ touched ∷ [] }
    {
        put_last(&mut self.touched, touched);
    }

    /// What the commits after the first `from` touched, up to number `to`.
    pub(crate) fn between(&self, from: usize, to: usize) -> &[Touched]
        requires order { from ≤ to }
        requires within { to ≤ length self.now.touched.items }
        ensures { result.now ≡ take (to - from) (drop from self.now.touched.items) }
    {
        &self.touched[from..to]
    }
}

/// Puts an item at the end. It takes no memory: the room is there.
pub(crate) fn put_last<T: Drop>(items: &mut Vec<T>, item: T)
    requires { vec_len items.old < vec_capacity items.old }
    ensures { items.new.items ≡ items.old.items ++ item ∷ [] }
{
    let Ok(()) = items.push(item) else {
        unreachable!()
    };
}

/// The keys that each of them touched.
pub(crate) fn keys_of(alloc: Global, touched: &[Touched]) -> Result<List<List<Key>>, NoMemory>
    ensures { IfOk result (λ keys. keys ≡ map (λ one. one.keys) touched.now) }
{
    let mut keys = List::new(alloc);
    for one in touched {
        keys.push(one.keys.try_clone(alloc)?)?;
    }
    Ok(keys)
}

/// The generations that each of them touched.
pub(crate) fn gens_of(alloc: Global, touched: &[Touched]) -> Result<List<List<GenKey>>, NoMemory>
    ensures { IfOk result (λ gens. gens ≡ map (λ one. one.gens) touched.now) }
{
    let mut gens = List::new(alloc);
    for one in touched {
        gens.push(copied(alloc, one.gens.as_slice())?)?;
    }
    Ok(gens)
}

fn copied(alloc: Global, gens: &[GenKey]) -> Result<List<GenKey>, NoMemory>
    ensures { IfOk result (λ copy. copy ≡ gens.now) }
{
    let mut copy = List::new(alloc);
    for which in gens {
        copy.push(*which)?;
    }
    Ok(copy)
}
