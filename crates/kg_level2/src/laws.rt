//! What coherence with a history gives, and that the calls keep it, for every function that tells what a key's value
//! shows after a history's first commits.

ghost use Rattle.std.specs.Prelude.{◌≡◌, ◌≢◌, ℕ, ◌+◌, ◌≤◌, Bool, List as Sequence, length};
ghost use Rattle.kg_level1.specs.Coherent.{Agrees, Holds, NamesChanges};
ghost use Rattle.kg_level1.specs.Reading.{shown};
ghost use Rattle.kg_level2.specs.Answers.{Abandons, LooksUp, Settles};
ghost use Rattle.kg_level2.specs.Changing.{after_catch_up, after_jump, closed};
ghost use Rattle.kg_level2.specs.Claims.{IsOutFor};
ghost use Rattle.kg_level2.specs.Coherent.{IsCoherentTable};
ghost use Rattle.kg_level2.specs.Shared.{Shared, empty_table};
ghost use Rattle.kg_level2.specs.declared.claim.Abandoned.{Abandoned as AnAbandoned};
ghost use Rattle.kg_level2.specs.declared.claim.Abandoned.TheVariants as abandoned;
ghost use Rattle.kg_level2.specs.declared.claim.Claim.{Claim as AClaim};
ghost use Rattle.kg_level2.specs.declared.claim.Found.{Found as AFound};
ghost use Rattle.kg_level2.specs.declared.claim.Found.TheVariants as found;
ghost use Rattle.kg_level2.specs.declared.claim.Settled.{Settled as ASettled};
ghost use Rattle.kg_level2.specs.declared.claim.Settled.TheVariants as settled;
ghost use Rattle.kg_level1.specs.declared.held.Held.{Held as AHeld};

use kg_text::CopyKey;

/// A hit of a coherent table is the key's value at a position that isn't below the one asked, and a stale value is the
/// key's at a position that isn't below the table's.
pub fn coherent_tables_answer_what_holds<K: CopyKey, V, X>()
    ensures hit { (shows : V → X) (value : K → ℕ → X) (size : ℕ) (t after : Shared K V) → IsCoherentTable shows value K.eq size t
        → (k : K) (pos now who : ℕ) (held : AHeld V) → LooksUp K.eq t k pos now who (found.Hit held) after → Holds shows value size pos k (shown held) }
    ensures stale { (shows : V → X) (value : K → ℕ → X) (size : ℕ) (t after : Shared K V) → IsCoherentTable shows value K.eq size t
        → (k : K) (now : ℕ) (held : AHeld V) → Abandons K.eq t k now (abandoned.Stale held) after → Holds shows value size t.level.pos k (shown held) }
{}

/// Each call leaves a coherent table coherent: `catch_up` where its lists name every key that the commits change.
pub fn coherent_tables_stay_coherent<K: CopyKey, V, X>()
    ensures made { (shows : V → X) (value : K → ℕ → X) (size room pos ttl neg_ttl stale : ℕ) → pos ≤ size
        → IsCoherentTable shows value K.eq size (empty_table {K = K} {V = V} room pos ttl neg_ttl stale) }
    ensures looked_up { (shows : V → X) (value : K → ℕ → X) (size : ℕ) (t after : Shared K V) (k : K) (pos now who : ℕ) (answer : AFound K V)
        → LooksUp K.eq t k pos now who answer after → IsCoherentTable shows value K.eq size t → IsCoherentTable shows value K.eq size after }
    ensures abandoned { (shows : V → X) (value : K → ℕ → X) (size : ℕ) (t after : Shared K V) (k : K) (now : ℕ) (answer : AnAbandoned V)
        → Abandons K.eq t k now answer after → IsCoherentTable shows value K.eq size t → IsCoherentTable shows value K.eq size after }
    ensures released { (shows : V → X) (value : K → ℕ → X) (size : ℕ) (t : Shared K V) (k : K)
        → IsCoherentTable shows value K.eq size t → IsCoherentTable shows value K.eq size (closed K.eq k t) }
    ensures caught_up { (shows : V → X) (value : K → ℕ → X) (size from : ℕ) (lists : Sequence (Sequence K)) (t : Shared K V)
        → from ≤ t.level.pos → from + length lists ≤ size → NamesChanges value K.eq from lists
        → IsCoherentTable shows value K.eq size t → IsCoherentTable shows value K.eq size (after_catch_up K.eq from lists t) }
    ensures jumped { (shows : V → X) (value : K → ℕ → X) (size to : ℕ) (t : Shared K V) → to ≤ size
        → IsCoherentTable shows value K.eq size t → IsCoherentTable shows value K.eq size (after_jump to t) }
    ensures longer { (shows : V → X) (value longer : K → ℕ → X) (size more : ℕ) (t : Shared K V) → Agrees value longer size → size ≤ more
        → IsCoherentTable shows value K.eq size t → IsCoherentTable shows longer K.eq more t }
{}

/// A table stays coherent as a claim is settled with a value that is the key's at the position `at` of the history:
/// a load that was overtaken isn't kept, and one that wasn't is the key's value up to the table's position, however
/// far that has gone since.
pub fn settled_tables_stay_coherent<K: CopyKey, V, X>()
    ensures { (shows : V → X) (value : K → ℕ → X) (size : ℕ) (t after : Shared K V) (k : K) (v : V) (negative : Bool) (at now : ℕ) (answer : ASettled)
        → Settles K.eq t k v negative at now answer after → shows v ≡ value k at → at ≤ size
        → IsCoherentTable shows value K.eq size t → IsCoherentTable shows value K.eq size after }
{}

/// A claim that a worker took is out until that worker hands it back, whatever the others do meanwhile. So none of the
/// others takes a claim on its key, and who settles it with a value that was read since is no stranger.
pub fn claims_stay_out<K: CopyKey, V>()
    ensures taken { (t after : Shared K V) (k : K) (pos now who : ℕ) (claim : AClaim K)
        → LooksUp K.eq t k pos now who (found.Claimed claim) after → IsOutFor K.eq who claim after.out }
    ensures looked_up { (t after : Shared K V) (k : K) (pos now who : ℕ) (answer : AFound K V) → LooksUp K.eq t k pos now who answer after
        → (holder : ℕ) (claim : AClaim K) → IsOutFor K.eq holder claim t.out → IsOutFor K.eq holder claim after.out }
    ensures settled { (t after : Shared K V) (who holder : ℕ) (mine claim : AClaim K) (v : V) (negative : Bool) (at now : ℕ) (answer : ASettled)
        → who ≢ holder → IsOutFor K.eq who mine t.out → IsOutFor K.eq holder claim t.out
        → Settles K.eq t mine.key v negative at now answer after → IsOutFor K.eq holder claim after.out }
    ensures abandoned { (t after : Shared K V) (who holder : ℕ) (mine claim : AClaim K) (now : ℕ) (answer : AnAbandoned V)
        → who ≢ holder → IsOutFor K.eq who mine t.out → IsOutFor K.eq holder claim t.out
        → Abandons K.eq t mine.key now answer after → IsOutFor K.eq holder claim after.out }
    ensures released { (t : Shared K V) (who holder : ℕ) (mine claim : AClaim K) → who ≢ holder → IsOutFor K.eq who mine t.out
        → IsOutFor K.eq holder claim t.out → IsOutFor K.eq holder claim (closed K.eq mine.key t).out }
    ensures caught_up { (from : ℕ) (lists : Sequence (Sequence K)) (t : Shared K V) (holder : ℕ) (claim : AClaim K)
        → IsOutFor K.eq holder claim t.out → IsOutFor K.eq holder claim (after_catch_up K.eq from lists t).out }
    ensures jumped { (to : ℕ) (t : Shared K V) (holder : ℕ) (claim : AClaim K)
        → IsOutFor K.eq holder claim t.out → IsOutFor K.eq holder claim (after_jump to t).out }
    ensures no_stranger { (t after : Shared K V) (who : ℕ) (claim : AClaim K) (v : V) (negative : Bool) (at now : ℕ) (answer : ASettled)
        → IsOutFor K.eq who claim t.out → claim.start ≤ at → Settles K.eq t claim.key v negative at now answer after → answer ≢ settled.Stranger }
{}
