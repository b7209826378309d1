//! The rules that a body can break.

ghost use Rattle.std.specs.Prelude.{◌≡◌};
ghost use Rattle.kg_field_rules.specs.Rules.{first, rank, rule_text, sooner};

/// A rule that a field can break. Of several at one field the first in the order of this list
/// counts (this project's own).
#[derive(Clone, Copy, Debug, PartialEq, Eq)]
pub enum Rule {
    /// The kind has no such field.
    Unknown,
    /// The field has another value than the only one that is taken.
    Fixed,
    /// The value is of another JSON type.
    WrongType,
    /// A text that needs a byte has none.
    Empty,
    /// A number is outside its range, or a text or list is too long.
    OutOfRange,
    /// The value is none of those that are listed.
    OneOf,
    /// A text isn't spelled as it has to be.
    Syntax,
    /// A member of a list stands there twice.
    Repeated,
    /// The field stands beside one that excludes it.
    Exclusive,
    /// The field has to be set.
    Required,
}

impl Rule {
    /// The text that stands for the rule in a refusal.
    pub fn as_str(self) -> &'static str
        ensures { result.now ≡ rule_text self }
    {
        match self {
            Rule::Unknown => "unknown",
            Rule::Fixed => "fixed",
            Rule::WrongType => "type",
            Rule::Empty => "empty",
            Rule::OutOfRange => "out of range",
            Rule::OneOf => "one of",
            Rule::Syntax => "syntax",
            Rule::Repeated => "repeated",
            Rule::Exclusive => "exclusive",
            Rule::Required => "required",
        }
    }

    fn rank(self) -> u8
        ensures { result ≡ rank self }
    {
        match self {
            Rule::Unknown => 0,
            Rule::Fixed => 1,
            Rule::WrongType => 2,
            Rule::Empty => 3,
            Rule::OutOfRange => 4,
            Rule::OneOf => 5,
            Rule::Syntax => 6,
            Rule::Repeated => 7,
            Rule::Exclusive => 8,
            Rule::Required => 9,
        }
    }
}

/// The one that counts, of two broken rules.
pub fn first(rule: Rule, other: Rule) -> Rule
    ensures { result ≡ first rule other }
{
    if rule.rank() <= other.rank() {
        rule
    } else {
        other
    }
}

/// The one that counts, of two rules that may be broken.
pub fn sooner(rule: Option<Rule>, other: Option<Rule>) -> Option<Rule>
    ensures { result ≡ sooner rule other }
{
    match rule {
        None => other,
        Some(one) => match other {
            None => Some(one),
            Some(another) => Some(first(one, another)),
        },
    }
}
