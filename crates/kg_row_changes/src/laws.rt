//! Laws of the definitions, for proofs.

ghost use Rattle.std.specs.Prelude.{◌≢◌, ◌↔◌, ℕ, ◌+◌, [], ◌∷◌, ◌++◌, List, IsTrue, length};
ghost use Rattle.kg_row_types.specs.RowLists.{RowLists, no_rows};
ghost use Rattle.kg_row_types.specs.ValidRows.{AreValidRows, HasDistinctRows, HasReferences};
ghost use Rattle.kg_row_types.specs.declared.key.GenKey.{GenKey};
ghost use Rattle.kg_row_types.specs.declared.key.Key.{Key};
ghost use Rattle.kg_row_values.specs.Changes.{Changes, ChangesGeneration};
ghost use Rattle.kg_row_changes.specs.Allowed.{is_allowed};
ghost use Rattle.kg_row_values.specs.Rows.{changed, rows_after, rows_from};
ghost use Rattle.kg_row_changes.specs.ValidCommands.{AreAllowed, IsValidCommand};
ghost use Rattle.kg_row_values.specs.Values.{value_of, generation_of};
ghost use Rattle.kg_row_values.specs.declared.command.Command.{Command};

/// The last command of a history changes exactly the keys and generations whose values differ before
/// and after it: a law, for proofs.
pub fn last_command_changes_what_differs()
    ensures keys { (history : List Command) (command : Command) (k : Key) → Changes (history ++ command ∷ []) (length history + 1) k ↔ (value_of (rows_after history) k ≢ value_of (changed command (rows_after history)) k) }
    ensures gens { (history : List Command) (command : Command) (g : GenKey) → ChangesGeneration (history ++ command ∷ []) (length history + 1) g ↔ (generation_of (rows_after history) g ≢ generation_of (changed command (rows_after history)) g) }
{}

/// The rows after valid commands that were allowed one after another are valid, no two of them share
/// what only one may have, and what they name is there; one more such command may follow: a law, for
/// proofs.
pub fn allowed_commands_make_valid_rows()
    ensures valid { (history : List Command) (limit : ℕ) → AreAllowed no_rows history limit → AreValidRows (rows_after history) }
    ensures distinct { (history : List Command) (limit : ℕ) → AreAllowed no_rows history limit → HasDistinctRows (rows_after history) }
    ensures references { (history : List Command) (limit : ℕ) → AreAllowed no_rows history limit → HasReferences (rows_after history) }
    ensures more { (rows : RowLists) (history : List Command) (command : Command) (limit : ℕ) → AreAllowed rows history limit → IsValidCommand command → IsTrue (is_allowed (rows_from rows history) command limit) → AreAllowed rows (history ++ command ∷ []) limit }
{}
