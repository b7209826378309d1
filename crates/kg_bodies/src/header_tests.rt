//! The headers that a body sets for a route.

ghost use Rattle.std.specs.Prelude.{◌≡◌, [], IfOk, OnOk, map};
ghost use Rattle.serde_json.specs.View.{members_view, view};
ghost use Rattle.kg_bodies.specs.Settings.{test_of, tests_at, tests_in, with_test};

use crate::judge::headers::header_rule;
use crate::judge::is_set;
use crate::settings::value_at;
use crate::texts::texts_of;
use kg_field_tables::shape::Shape;
use kg_row_types::route::HeaderTest;
use kg_text::{List, Name, NoMemory, Text, is_token};
use serde_json::{Map, Value};
use std::alloc::Global;
use std::collections::BTreeMap;

/// The headers that a body sets, in byte order of their names, each with its values. A name whose
/// list isn't set is left out.
pub fn tests_at(alloc: Global, body: &Value) -> Result<List<HeaderTest>, NoMemory>
    ensures { IfOk result (λ tests. tests ≡ tests_at (view body.now)) }
{
    match value_at(alloc, Shape::Headers, "headers", body)? {
        Some(value) => match value.as_object() {
            Some(members) => in_order(alloc, tests_in(alloc, members)?),
            None => Ok(List::new(alloc)),
        },
        None => Ok(List::new(alloc)),
    }
}

fn in_order(alloc: Global, tests: BTreeMap<Text, HeaderTest>) -> Result<List<HeaderTest>, NoMemory>
    ensures { IfOk result (λ list. list ≡ map (λ entry. entry.1) tests.entries) }
{
    let mut list = List::new(alloc);
    for (_name, test) in tests {
        list.push(test)?;
    }
    Ok(list)
}

fn tests_in(
    alloc: Global,
    members: &Map<String, Value>,
) -> Result<BTreeMap<Text, HeaderTest>, NoMemory>
    ensures { IfOk result (λ tests. tests.entries ≡ tests_in [] (members_view members.now.entries)) }
{
    let mut tests = BTreeMap::new(alloc);
    for (name, value) in members.iter() {
        let test = test_of(alloc, name.as_str(), value)?;
        add_test(alloc, &mut tests, test)?;
    }
    Ok(tests)
}

fn add_test(
    alloc: Global,
    tests: &mut BTreeMap<Text, HeaderTest>,
    test: Option<HeaderTest>,
) -> Result<(), NoMemory>
    ensures { OnOk result (tests.new.entries ≡ with_test tests.old.entries test) }
{
    if let Some(test) = test {
        let name = Text::from_str(alloc, test.name.as_str())?;
        tests.insert(name, test)?;
    }
    Ok(())
}

fn test_of(alloc: Global, name: &str, value: &Value) -> Result<Option<HeaderTest>, NoMemory>
    ensures { IfOk result (λ test. test ≡ test_of name.now (view value.now)) }
{
    if !is_set(value) || !is_token(name.as_bytes()) {
        return Ok(None);
    }
    if header_rule(alloc, name, value)?.is_some() {
        return Ok(None);
    }
    let values = match texts_of(alloc, value)? {
        Some(texts) => texts,
        None => List::new(alloc),
    };
    Ok(Some(HeaderTest {
        name: Name::of_token(alloc, name.as_bytes())?,
        values,
    }))
}
