//! Values that stand alone.

ghost use Rattle.std.specs.Prelude.{◌≡◌, count_by, find, option_map};
ghost use Rattle.std.specs.Option.{option_copied};
ghost use Rattle.kg_message.specs.HeaderLists.{values_named};
ghost use Rattle.kg_context.specs.PairLists.{has_pair_name, pair_values};
ghost use Rattle.kg_auth.specs.Single.{single};

use kg_message::Headers;
use kg_text::{List, Pair};

/// The value of the field of this name, where there is just one.
#[tactic(auto, using(crate::proofs::SingleLemmas::one_passes, crate::proofs::SingleLemmas::others_pass))]
pub fn single_value<'a>(headers: &'a Headers, name: &[u8]) -> Option<&'a [u8]>
    ensures { option_copied result ≡ single (values_named name.now headers.now) }
{
    if headers.count(name) == 1 {
        headers.first(name)
    } else {
        None
    }
}

/// The value of the pair of this name, where there is just one.
#[tactic(auto, using(crate::proofs::SingleLemmas::one_passes, crate::proofs::SingleLemmas::others_pass))]
pub fn single_pair_value<'a>(pairs: &'a List<Pair>, name: &[u8]) -> Option<&'a [u8]>
    ensures { option_copied result ≡ single (pair_values name.now pairs.now) }
{
    if count_pairs(pairs, name) == 1 {
        first_pair_value(pairs, name)
    } else {
        None
    }
}

fn count_pairs(pairs: &List<Pair>, name: &[u8]) -> usize
    ensures { result ≡ count_by (has_pair_name name.now) pairs.now }
{
    pairs
        .as_slice()
        .iter()
        .filter(|pair| pair.name.as_bytes() == name)
        .count()
}

fn first_pair_value<'a>(pairs: &'a List<Pair>, name: &[u8]) -> Option<&'a [u8]>
    ensures { option_copied result ≡ option_map (λ pair. pair.value) (find (has_pair_name name.now) pairs.now) }
{
    match find_pair(pairs, name) {
        Some(pair) => Some(pair.value.as_bytes()),
        None => None,
    }
}

fn find_pair<'a>(pairs: &'a List<Pair>, name: &[u8]) -> Option<&'a Pair>
    ensures { option_copied result ≡ find (has_pair_name name.now) pairs.now }
{
    pairs
        .as_slice()
        .iter()
        .find(|pair| pair.name.as_bytes() == name)
}
