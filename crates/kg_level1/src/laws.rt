//! What coherence with a history gives, and that the calls keep it. A level knows no history: these laws hold for
//! every function that tells what a key's value shows after a history's first commits.

ghost use Rattle.std.specs.Prelude.{◌≡◌, ℕ, ◌+◌, ◌≤◌, List as Sequence, Option, Some, length};
ghost use Rattle.kg_level1.specs.Changing.{after_extend, after_jump, after_put, after_sync};
ghost use Rattle.kg_level1.specs.Coherent.{Agrees, Holds, IsCoherentEntry, IsCoherentLevel, NamesChanges};
ghost use Rattle.kg_level1.specs.Entries.{Kept, Level, empty_level};
ghost use Rattle.kg_level1.specs.Reading.{HasSameEntries, after_answer, found_entry, live_entry};

use kg_text::CopyKey;

/// What a coherent level answers is the key's value at the answer's position, which isn't below what was asked.
pub fn coherent_levels_answer_what_holds<K: CopyKey, V, X>()
    ensures { (shows : V → X) (value : K → ℕ → X) (size : ℕ) (l : Level K V) → IsCoherentLevel shows value size l
        → (k : K) (least now : ℕ) (e : Kept V) → found_entry K.eq l k least now ≡ Some e → Holds shows value size least k e }
{}

/// Each call leaves a coherent level coherent: `put` where the value was read in this history, or else is known to
/// hold from its stamp up to the level's position; `sync` where its lists name every key that the commits change.
pub fn coherent_levels_stay_coherent<K: CopyKey, V, X>()
    ensures made { (shows : V → X) (value : K → ℕ → X) (size room pos : ℕ) → pos ≤ size
        → IsCoherentLevel shows value size (empty_level {K = K} {V = V} room pos) }
    ensures answered { (shows : V → X) (value : K → ℕ → X) (size : ℕ) (l : Level K V) (k : K) (answer : Option (Kept V))
        → IsCoherentLevel shows value size l → IsCoherentLevel shows value size (after_answer K.eq l k answer) }
    ensures read { (shows : V → X) (value : K → ℕ → X) (size pos : ℕ) (k : K) (e : Kept V)
        → pos ≤ e.stamp → e.stamp ≤ size → shows e.val ≡ value k e.stamp → IsCoherentEntry shows value size pos k e }
    ensures put { (shows : V → X) (value : K → ℕ → X) (size : ℕ) (l : Level K V) (k : K) (e : Kept V)
        → IsCoherentEntry shows value size l.pos k e → IsCoherentLevel shows value size l → IsCoherentLevel shows value size (after_put K.eq l k e) }
    ensures extended { (shows : V → X) (value : K → ℕ → X) (size : ℕ) (l : Level K V) (k : K) (until : ℕ)
        → IsCoherentLevel shows value size l → IsCoherentLevel shows value size (after_extend K.eq l k until) }
    ensures synced { (shows : V → X) (value : K → ℕ → X) (size from : ℕ) (lists : Sequence (Sequence K)) (l : Level K V)
        → from ≤ l.pos → from + length lists ≤ size → NamesChanges value K.eq from lists
        → IsCoherentLevel shows value size l → IsCoherentLevel shows value size (after_sync K.eq from lists l) }
    ensures jumped { (shows : V → X) (value : K → ℕ → X) (size to : ℕ) (l : Level K V) → to ≤ size
        → IsCoherentLevel shows value size l → IsCoherentLevel shows value size (after_jump to l) }
    ensures longer { (shows : V → X) (value longer : K → ℕ → X) (size more : ℕ) (l : Level K V) → Agrees value longer size → size ≤ more
        → IsCoherentLevel shows value size l → IsCoherentLevel shows longer more l }
{}

/// An answer moves its entry to the front, and that is all: a level answers the same before and after it. So however
/// many keys a level is asked in between, each is answered as it was before the first.
pub fn answering_levels_hold_the_same<K: CopyKey, V, X>()
    ensures answered { (l : Level K V) (k : K) (answer : Option (Kept V)) → HasSameEntries K.eq l (after_answer K.eq l k answer) }
    ensures unasked { (l : Level K V) → HasSameEntries K.eq l l }
    ensures again { (first second third : Level K V) → HasSameEntries K.eq first second → HasSameEntries K.eq second third → HasSameEntries K.eq first third }
    ensures live { (before after : Level K V) → HasSameEntries K.eq before after
        → (k : K) (now : ℕ) → live_entry K.eq after k now ≡ live_entry K.eq before k now }
    ensures found { (before after : Level K V) → HasSameEntries K.eq before after
        → (k : K) (least now : ℕ) → found_entry K.eq after k least now ≡ found_entry K.eq before k least now }
    ensures coherent { (shows : V → X) (value : K → ℕ → X) (size : ℕ) (before after : Level K V) → HasSameEntries K.eq before after
        → IsCoherentLevel shows value size before → IsCoherentLevel shows value size after }
{}
