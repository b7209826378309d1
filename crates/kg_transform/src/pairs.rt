//! Edits of query pairs.

ghost use Rattle.std.specs.Prelude.{◌≡◌, OnOk};
ghost use Rattle.kg_transform.specs.Edits.{edited_pairs, pairs_after};

use crate::member::{name_of, value_of};
use crate::step::Step;
use kg_context::{add_pair, has_pair, remove_pairs, rename_pairs, replace_pairs};
use kg_text::{List, NoMemory, Pair, Text};
use std::alloc::Global;

/// Runs a step over the pairs: each member of its list, from the first on.
pub fn edit_all(
    alloc: Global,
    step: Step,
    members: &[Text],
    pairs: &mut List<Pair>,
) -> Result<(), NoMemory>
    ensures { OnOk result (pairs.new ≡ pairs_after step members.now pairs.old) }
{
    for member in members {
        edit(alloc, step, name_of(member), value_of(member), pairs)?;
    }
    Ok(())
}

fn edit(
    alloc: Global,
    step: Step,
    name: &str,
    value: &str,
    pairs: &mut List<Pair>,
) -> Result<(), NoMemory>
    ensures { OnOk result (pairs.new ≡ edited_pairs step name.now value.now pairs.old) }
{
    match step {
        Step::Remove => {
            remove_pairs(pairs, name.as_bytes());
            Ok(())
        }
        Step::Rename => rename_pairs(alloc, pairs, name, value),
        Step::Replace => replace_pairs(alloc, pairs, name, value),
        Step::Add => {
            if has_pair(pairs, name.as_bytes()) {
                Ok(())
            } else {
                add_pair(alloc, pairs, name, value)
            }
        }
        Step::Append => add_pair(alloc, pairs, name, value),
    }
}
