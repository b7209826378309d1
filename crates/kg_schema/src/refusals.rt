//! Which broken rules a refusal lists.

ghost use Rattle.std.specs.Prelude.{◌≡◌, ◌↔◌, ℕ, Contains, List, Some, map};
ghost use Rattle.std.specs.Cmp.Lexicographic.{slice_cmp};
ghost use Rattle.std.specs.List.Sorted.{IsStrictlySortedBy};
ghost use Rattle.std.specs.Ordering.{nat_cmp};
ghost use Rattle.kg_field_rules.specs.Rules.{BrokenRule, first_by_rank, in_order};
ghost use Rattle.kg_field_rules.specs.declared.rule.Rule.{Rule};
ghost use Rattle.kg_schema.specs.ToldRules.{rules_at};

/// The list of broken rules that a refusal tells has its paths in byte order, each once, and at a path exactly
/// the first by rank of the rules that are broken there: a law, for proofs.
pub fn violations_are_told_in_order()
    ensures order { (violations : List BrokenRule) → IsStrictlySortedBy (slice_cmp nat_cmp) (map (λ told. told.0) (in_order violations)) }
    ensures rules { (violations : List BrokenRule) (path : List ℕ) (rule : Rule) → Contains (in_order violations) (path, rule) ↔ (first_by_rank (rules_at path violations) ≡ Some rule) }
{}
