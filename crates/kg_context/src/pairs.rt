//! Changes of lists of query pairs.

ghost use Rattle.std.specs.Prelude.{◌≡◌, IfOk, OnOk, if◌then◌else◌};
ghost use Rattle.kg_context.specs.PairLists.{has_pair, has_pair_name, pair, pair_added, pairs_removed, pairs_renamed, pairs_replaced, with_pair_name};

use kg_text::{List, NoMemory, Pair, Text, TryClone};
use std::alloc::Global;

/// Is there a pair of this name?
pub fn has_pair(pairs: &List<Pair>, name: &[u8]) -> bool
    ensures { result ≡ has_pair name.now pairs.now }
{
    pairs.as_slice().iter().any(|pair| has_name(pair, name))
}

fn has_name(pair: &Pair, name: &[u8]) -> bool
    ensures { result ≡ has_pair_name name.now pair.now }
{
    pair.name.as_bytes() == name
}

/// Drops the pairs of this name.
pub fn remove_pairs(pairs: &mut List<Pair>, name: &[u8])
    ensures { pairs.new ≡ pairs_removed name.now pairs.old }
{
    pairs.retain(|pair| !has_name(pair, name));
}

/// Adds a pair at the end.
pub fn add_pair(
    alloc: Global,
    pairs: &mut List<Pair>,
    name: &str,
    value: &str,
) -> Result<(), NoMemory>
    ensures { OnOk result (pairs.new ≡ pair_added name.now value.now pairs.old) }
{
    pairs.push(made_pair(alloc, name, value)?)
}

fn made_pair(alloc: Global, name: &str, value: &str) -> Result<Pair, NoMemory>
    ensures { IfOk result (λ one. one ≡ pair name.now value.now) }
{
    Ok(Pair {
        name: Text::from_str(alloc, name)?,
        value: Text::from_str(alloc, value)?,
    })
}

/// Gives each pair of the old name the new one, in its place.
pub fn rename_pairs(
    alloc: Global,
    pairs: &mut List<Pair>,
    old: &str,
    new: &str,
) -> Result<(), NoMemory>
    ensures { OnOk result (pairs.new ≡ pairs_renamed old.now new.now pairs.old) }
{
    *pairs = renamed(alloc, pairs, old, new)?;
    Ok(())
}

fn renamed(alloc: Global, pairs: &List<Pair>, old: &str, new: &str) -> Result<List<Pair>, NoMemory>
    ensures { IfOk result (λ made. made ≡ pairs_renamed old.now new.now pairs.now) }
{
    let mut made = List::new(alloc);
    for pair in pairs.as_slice() {
        made.push(renamed_pair(alloc, pair, old, new)?)?;
    }
    Ok(made)
}

fn renamed_pair(alloc: Global, pair: &Pair, old: &str, new: &str) -> Result<Pair, NoMemory>
    ensures { IfOk result (λ one. one ≡ (if has_pair_name old.now pair.now then with_pair_name new.now pair.now else pair.now)) }
{
    if has_name(pair, old.as_bytes()) {
        made_pair(alloc, new, pair.value.as_str())
    } else {
        pair.try_clone(alloc)
    }
}

/// Gives the first pair of this name the value, and drops the others of the name.
pub fn replace_pairs(
    alloc: Global,
    pairs: &mut List<Pair>,
    name: &str,
    value: &str,
) -> Result<(), NoMemory>
    ensures { OnOk result (pairs.new ≡ pairs_replaced name.now value.now pairs.old) }
{
    *pairs = replaced(alloc, pairs, name, value)?;
    Ok(())
}

fn replaced(
    alloc: Global,
    pairs: &List<Pair>,
    name: &str,
    value: &str,
) -> Result<List<Pair>, NoMemory>
    ensures { IfOk result (λ made. made ≡ pairs_replaced name.now value.now pairs.now) }
{
    let mut made = List::new(alloc);
    let mut found = false;
    for pair in pairs.as_slice() {
        if !has_name(pair, name.as_bytes()) {
            made.push(pair.try_clone(alloc)?)?;
        } else if !found {
            found = true;
            made.push(made_pair(alloc, pair.name.as_str(), value)?)?;
        }
    }
    Ok(made)
}
