//! How far a fetch has come.

ghost use Rattle.std.specs.Prelude.{◌≡◌};
ghost use Rattle.kg_layers.specs.Fetching.{claim_of};
ghost use Rattle.kg_layers.specs.Steps.{stage_of};
ghost use Rattle.kg_layers.specs.declared.step.Step.TheVariants.{Lost};

use crate::fetch::Ready;
use kg_level2::Claim;
use std::mem;
use std::sync::Arc;

/// How far a fetch has come. One that holds a claim can't be let go.
pub(crate) enum Step<K, V> {
    /// The key is to be looked up.
    Looking,
    /// The value is to be loaded.
    Loading(Claim<K>),
    /// The claim is to be settled with this value, which was read at position `at`.
    Settling {
        claim: Claim<K>,
        val: Arc<V>,
        at: u64,
    },
    /// The claim was taken out, to be settled.
    Handed {
        val: Arc<V>,
        at: u64,
    },
    /// The claim is to be abandoned.
    Abandoning(Claim<K>),
    /// The claim was taken out, to be abandoned.
    Left,
    /// There is a value.
    Got(Ready<V>),
    /// There is none.
    Lost,
}

impl<K, V: Drop> Step<K, V> {
    /// The claim that the step holds.
    pub(crate) fn into_claim(self) -> Option<Claim<K>>
        ensures { result ≡ claim_of (stage_of self) }
    {
        match self {
            Step::Loading(claim) => Some(claim),
            Step::Abandoning(claim) => Some(claim),
            Step::Settling { claim, val, at: _ } => {
                drop(val);
                Some(claim)
            }
            Step::Handed { val, at: _ } => {
                drop(val);
                None
            }
            Step::Got(ready) => {
                drop(ready);
                None
            }
            Step::Looking => None,
            Step::Left => None,
            Step::Lost => None,
        }
    }
}

/// Puts a step in the place of one that was taken out. An assignment would let the old one go.
pub(crate) fn put<K, V: Drop>(step: &mut Step<K, V>, next: Step<K, V>)
    requires { step.old ≡ Lost }
    ensures { step.new ≡ next }
{
    match mem::replace(step, next) {
        Step::Lost => {}
        _ => unreachable!(),
    }
}
