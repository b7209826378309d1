//! What whoever drives fetches may rely on from one step to the next, for every function that tells what a key's value
//! shows after a history's first commits. A driver that holds the table for one step alone needs no more of it than
//! that it is coherent by then.

ghost use Rattle.std.specs.Prelude.{◌≡◌, ◌≢◌, ℕ, ◌≤◌, Bool, List as Sequence, Some};
ghost use Rattle.kg_level1.specs.Coherent.{Agrees, IsCoherentEntry};
ghost use Rattle.kg_level2.specs.Answers.{Settles};
ghost use Rattle.kg_level2.specs.Changing.{after_catch_up, after_jump, closed};
ghost use Rattle.kg_level2.specs.Coherent.{IsCoherentTable};
ghost use Rattle.kg_level2.specs.Shared.{Shared};
ghost use Rattle.kg_level2.specs.declared.claim.Claim.{Claim as AClaim};
ghost use Rattle.kg_level2.specs.declared.claim.Settled.{Settled as ASettled};
ghost use Rattle.kg_level2.specs.declared.claim.Settled.TheVariants as settled;
ghost use Rattle.kg_layers.specs.Coherent.{HasClaimOut, IsCoherentFetch};
ghost use Rattle.kg_layers.specs.Fetching.{begun, claim_of};
ghost use Rattle.kg_layers.specs.Stages.{Came, Fetching, Got, IsAbandoning, Settling};
ghost use Rattle.kg_layers.specs.Turning.{Turns};

use kg_text::CopyKey;

/// A step leaves the table and the fetch coherent, so what a fetch comes to is its key's value at a position of the
/// history that isn't below the one asked, and a worker's level may keep it. A value used past its life is as young as
/// the table, which therefore must know the commits up to the position asked.
pub fn turns_keep_coherence<K: CopyKey, V, X>()
    ensures begun { (shows : V → X) (value : K → ℕ → X) (size : ℕ) (key : K) (pos : ℕ) → pos ≤ size
        → IsCoherentFetch shows value size (begun {K = K} {V = V} key pos) }
    ensures table { (shows : V → X) (value : K → ℕ → X) (size who now : ℕ) (f after : Fetching K V) (t u : Shared K V)
        → Turns shows value size K.eq who now f t after u → IsCoherentFetch shows value size f
        → IsCoherentTable shows value K.eq size t → IsCoherentTable shows value K.eq size u }
    ensures fetch { (shows : V → X) (value : K → ℕ → X) (size who now : ℕ) (f after : Fetching K V) (t u : Shared K V)
        → Turns shows value size K.eq who now f t after u → (IsAbandoning f.stage → f.pos ≤ t.level.pos)
        → IsCoherentTable shows value K.eq size t → IsCoherentFetch shows value size f → IsCoherentFetch shows value size after }
    ensures kept { (shows : V → X) (value : K → ℕ → X) (size : ℕ) (f : Fetching K V) (got : Got V) (expires level : ℕ)
        → f.stage ≡ Came got → level ≤ f.pos → IsCoherentFetch shows value size f
        → IsCoherentEntry shows value size level f.key (record { val = got.val; stamp = got.at; expires = expires }) }
    ensures longer { (shows : V → X) (value longer : K → ℕ → X) (size more : ℕ) → Agrees value longer size → size ≤ more
        → (f : Fetching K V) → IsCoherentFetch shows value size f → IsCoherentFetch shows longer more f }
{}

/// The claim that a fetch holds stays out until it is handed back, whatever other workers' fetches and the commits do.
/// So no settle of a fetch is a stranger's.
pub fn turns_keep_claims<K: CopyKey, V, X>()
    ensures own { (shows : V → X) (value : K → ℕ → X) (size who now : ℕ) (f after : Fetching K V) (t u : Shared K V)
        → Turns shows value size K.eq who now f t after u → HasClaimOut K.eq who f t.out → HasClaimOut K.eq who after u.out }
    ensures others { (shows : V → X) (value : K → ℕ → X) (size who now : ℕ) (f after : Fetching K V) (t u : Shared K V)
        (other : ℕ) (theirs : Fetching K V) → who ≢ other → Turns shows value size K.eq who now f t after u
        → HasClaimOut K.eq who f t.out → HasClaimOut K.eq other theirs t.out → HasClaimOut K.eq other theirs u.out }
    ensures given_up { (who other : ℕ) (f theirs : Fetching K V) (t : Shared K V) (claim : AClaim K) → who ≢ other → claim_of f.stage ≡ Some claim
        → HasClaimOut K.eq who f t.out → HasClaimOut K.eq other theirs t.out → HasClaimOut K.eq other theirs (closed K.eq claim.key t).out }
    ensures caught_up { (from : ℕ) (lists : Sequence (Sequence K)) (t : Shared K V) (who : ℕ) (f : Fetching K V)
        → HasClaimOut K.eq who f t.out → HasClaimOut K.eq who f (after_catch_up K.eq from lists t).out }
    ensures jumped { (to : ℕ) (t : Shared K V) (who : ℕ) (f : Fetching K V)
        → HasClaimOut K.eq who f t.out → HasClaimOut K.eq who f (after_jump to t).out }
    ensures no_stranger { (shows : V → X) (value : K → ℕ → X) (size who : ℕ) (f : Fetching K V) (t u : Shared K V) (claim : AClaim K) (v : V)
        (at now : ℕ) (negative : Bool) (answer : ASettled) → f.stage ≡ Settling claim v at → IsCoherentFetch shows value size f
        → HasClaimOut K.eq who f t.out → Settles K.eq t claim.key v negative at now answer u → answer ≢ settled.Stranger }
{}
