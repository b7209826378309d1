//! Shown rows make the rows again.

ghost use Rattle.kg_schema.specs.ReadBack.{ReadsBackRows};

/// A valid row, as it is shown, breaks no rule of a field, and its body makes the row again, but for what is
/// stored of a password: a law, for proofs.
pub fn shown_rows_are_read_back()
    ensures { ReadsBackRows }
{}
