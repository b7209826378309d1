//! Laws of the definitions, for proofs.

ghost use Rattle.std.specs.Prelude.{◌≡◌, ◌≢◌, ◌↔◌, ℕ, ◌≤◌, ◌+◌, [], ◌∷◌, ◌++◌, Bool, true, Contains, List, length, take};
ghost use Rattle.kg_row_types.specs.RowLists.{RowLists};
ghost use Rattle.kg_row_types.specs.declared.key.GenKey.{GenKey};
ghost use Rattle.kg_row_types.specs.declared.key.Key.{Key};
ghost use Rattle.kg_row_values.specs.ByteOrder.{IsInByteOrder, in_byte_order};
ghost use Rattle.kg_row_values.specs.Changes.{Changes, ChangesGeneration, NamesChangedGenerations, NamesChangedKeys};
ghost use Rattle.kg_row_values.specs.Commits.{AreSilent, AreTouchedGenerations, AreTouchedKeys, ChangeNamed, LeaveUnnamed, generation_after, value_after};
ghost use Rattle.kg_row_values.specs.Rows.{changed, rows_after, rows_from};
ghost use Rattle.kg_row_values.specs.Values.{generation_at, generation_of, value_at, value_of};
ghost use Rattle.kg_row_values.specs.declared.command.Command.{Command};

/// The rows after one more command are those before it, changed: a law, for proofs.
pub fn one_more_command_changes_the_rows()
    ensures from { (rows : RowLists) (history : List Command) (command : Command) → rows_from rows (history ++ command ∷ []) ≡ changed command (rows_from rows history) }
    ensures after { (history : List Command) (command : Command) → rows_after (history ++ command ∷ []) ≡ changed command (rows_after history) }
{}

/// What the commands up to a place do doesn't depend on later ones: a law, for proofs.
pub fn later_commands_leave_earlier_places()
    ensures values { (history more : List Command) (n : ℕ) (k : Key) → n ≤ length history → value_at k (take n (history ++ more)) ≡ value_at k (take n history) }
    ensures generations { (history more : List Command) (n : ℕ) (g : GenKey) → n ≤ length history → generation_at g (take n (history ++ more)) ≡ generation_at g (take n history) }
    ensures keys { (history more : List Command) (i : ℕ) (k : Key) → i ≤ length history → Changes (history ++ more) i k ↔ Changes history i k }
    ensures gens { (history more : List Command) (i : ℕ) (g : GenKey) → i ≤ length history → ChangesGeneration (history ++ more) i g ↔ ChangesGeneration history i g }
{}

/// A key that isn't named keeps its value, and one that is named changes it, in the form in which caches
/// take what a command touched: a law, for proofs.
pub fn unnamed_keys_keep_their_values()
    ensures keeps { (before after : RowLists) (keys : List Key) (k : Key) → NamesChangedKeys before after keys → ¬ (Contains keys k) → value_of before k ≡ value_of after k }
    ensures changes { (before after : RowLists) (keys : List Key) (k : Key) → NamesChangedKeys before after keys → Contains keys k → value_of before k ≢ value_of after k }
{}

/// A generation that isn't named stays as it was, and one that is named changes: a law, for proofs.
pub fn unnamed_generations_keep_their_values()
    ensures keeps { (before after : RowLists) (gens : List GenKey) (g : GenKey) → NamesChangedGenerations before after gens → ¬ (Contains gens g) → generation_of before g ≡ generation_of after g }
    ensures changes { (before after : RowLists) (gens : List GenKey) (g : GenKey) → NamesChangedGenerations before after gens → Contains gens g → generation_of before g ≢ generation_of after g }
{}

/// The lists of what commits touched name nothing but what each commit changes, under any test of keys
/// that passes only the same ones: a law, for proofs.
pub fn touched_lists_name_what_commits_change()
    ensures keys { (eq : Key → Key → Bool) (history : List Command) (from : ℕ) (lists : List (List Key)) → ((j k : Key) → eq j k ≡ true → j ≡ k) → AreTouchedKeys history from lists → ChangeNamed eq (value_after history) from lists }
    ensures gens { (eq : GenKey → GenKey → Bool) (history : List Command) (from : ℕ) (lists : List (List GenKey)) → ((g h : GenKey) → eq g h ≡ true → g ≡ h) → AreTouchedGenerations history from lists → ChangeNamed eq (generation_after history) from lists }
{}

/// A value stays as it is until a commit's list names its key, commit by commit and over all of them,
/// under any test of keys that passes each key itself: a law, for proofs.
pub fn values_stay_until_a_commit_names_them()
    ensures keys { (eq : Key → Key → Bool) (history : List Command) (from : ℕ) (lists : List (List Key)) → ((k : Key) → eq k k ≡ true) → AreTouchedKeys history from lists → LeaveUnnamed eq (value_after history) from lists }
    ensures gens { (eq : GenKey → GenKey → Bool) (history : List Command) (from : ℕ) (lists : List (List GenKey)) → ((g : GenKey) → eq g g ≡ true) → AreTouchedGenerations history from lists → LeaveUnnamed eq (generation_after history) from lists }
    ensures all_keys { (eq : Key → Key → Bool) (history : List Command) (from : ℕ) (lists : List (List Key)) (k : Key) → ((j : Key) → eq j j ≡ true) → AreTouchedKeys history from lists → AreSilent eq k lists → value_after history k from ≡ value_after history k (from + length lists) }
    ensures all_gens { (eq : GenKey → GenKey → Bool) (history : List Command) (from : ℕ) (lists : List (List GenKey)) (g : GenKey) → ((h : GenKey) → eq h h ≡ true) → AreTouchedGenerations history from lists → AreSilent eq g lists → generation_after history g from ≡ generation_after history g (from + length lists) }
{}

/// Texts in byte order have exactly the texts, and stand in that order without repeats: a law, for proofs.
pub fn texts_in_byte_order_are_the_texts()
    ensures order { (texts : List (List ℕ)) → IsInByteOrder (in_byte_order texts) }
    ensures texts { (texts : List (List ℕ)) (text : List ℕ) → Contains (in_byte_order texts) text ↔ Contains texts text }
{}
