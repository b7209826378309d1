//! Telling broken rules.

ghost use Rattle.std.specs.Prelude.{◌≡◌, OnOk, fold};
ghost use Rattle.std.specs.Option.{option_copied};
ghost use Rattle.kg_schema.specs.Between.{violation_if, is_missing};
ghost use Rattle.kg_field_rules.specs.Rules.{tell};

use kg_field_rules::rule::Rule;
use kg_field_rules::violations::Violations;
use kg_row_types::id::Id;
use kg_text::{NoMemory, Text};
use std::alloc::Global;

/// Tells the rule at this field, if it is broken.
pub fn tell_if(
    alloc: Global,
    violations: &mut Violations,
    broken: bool,
    field: &str,
    rule: Rule,
) -> Result<(), NoMemory>
    ensures { OnOk result (violations.new ≡ fold tell violations.old (violation_if broken field.now rule)) }
{
    if broken {
        violations.tell(Text::from_str(alloc, field)?, rule)?;
    }
    Ok(())
}

/// Does neither the caller nor the old row name the row that is needed?
pub fn is_missing<R>(link: Option<Id>, old: Option<&R>) -> bool
    ensures { result ≡ is_missing link (option_copied old.entry) }
{
    match old {
        Some(_) => false,
        None => link.is_none(),
    }
}
