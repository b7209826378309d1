//! The parts of shown rows, each put under its name. What isn't set is null.

ghost use Rattle.std.specs.Prelude.{◌≡◌, IfOk, OnOk, fold, map};
ghost use Rattle.serde_json.specs.Data.{boolean, no_members, put as with_member, string};
ghost use Rattle.serde_json.specs.View.{view, members_view};
ghost use Rattle.kg_shown_rows.specs.ShownParts.{shown_id, shown_link, shown_number, shown_option, shown_reference, shown_text, shown_texts};
ghost use Rattle.kg_shown_rows.specs.ShownConfigs.{shown_edits, shown_header_edits};
ghost use Rattle.kg_shown_rows.specs.Shown.{protocols_of, shown_headers, with_values};

use kg_row_types::config::Edits;
use kg_row_types::id::Id;
use kg_row_types::route::HeaderTest;
use kg_text::{List, Text};
use serde_json::{Map, Value, json, put};
use std::alloc::{AllocError, Global};

/// A whole number.
pub fn put_number(
    alloc: Global,
    members: &mut Map<String, Value>,
    name: &str,
    number: u64,
) -> Result<(), AllocError>
    ensures { OnOk result (members_view members.new.entries ≡ with_member name.now (shown_number number) (members_view members.old.entries)) }
{
    put(members, alloc, name, Value::from(number))
}

/// A truth value.
pub fn put_flag(
    alloc: Global,
    members: &mut Map<String, Value>,
    name: &str,
    flag: bool,
) -> Result<(), AllocError>
    ensures { OnOk result (members_view members.new.entries ≡ with_member name.now (boolean flag) (members_view members.old.entries)) }
{
    put(members, alloc, name, Value::from(flag))
}

/// A text.
pub fn put_str(
    alloc: Global,
    members: &mut Map<String, Value>,
    name: &str,
    text: &str,
) -> Result<(), AllocError>
    ensures { OnOk result (members_view members.new.entries ≡ with_member name.now (string text.now) (members_view members.old.entries)) }
{
    put(members, alloc, name, Value::try_from_str(alloc, text)?)
}

/// A number that may be unset.
pub fn put_option(
    alloc: Global,
    members: &mut Map<String, Value>,
    name: &str,
    number: Option<u64>,
) -> Result<(), AllocError>
    ensures { OnOk result (members_view members.new.entries ≡ with_member name.now (shown_option number) (members_view members.old.entries)) }
{
    put(members, alloc, name, option_value(number))
}

/// A text that may be unset.
pub fn put_text(
    alloc: Global,
    members: &mut Map<String, Value>,
    name: &str,
    text: &Option<Text>,
) -> Result<(), AllocError>
    ensures { OnOk result (members_view members.new.entries ≡ with_member name.now (shown_text text.now) (members_view members.old.entries)) }
{
    put(members, alloc, name, text_value(alloc, text)?)
}

/// A list of texts.
pub fn put_texts(
    alloc: Global,
    members: &mut Map<String, Value>,
    name: &str,
    texts: &List<Text>,
) -> Result<(), AllocError>
    ensures { OnOk result (members_view members.new.entries ≡ with_member name.now (shown_texts texts.now) (members_view members.old.entries)) }
{
    put(members, alloc, name, list_value(alloc, texts.as_slice())?)
}

/// A row's id.
pub fn put_id(
    alloc: Global,
    members: &mut Map<String, Value>,
    name: &str,
    id: Id,
) -> Result<(), AllocError>
    ensures { OnOk result (members_view members.new.entries ≡ with_member name.now (shown_id id) (members_view members.old.entries)) }
{
    put(members, alloc, name, id_value(alloc, id)?)
}

/// A row that another names.
pub fn put_reference(
    alloc: Global,
    members: &mut Map<String, Value>,
    name: &str,
    id: Id,
) -> Result<(), AllocError>
    ensures { OnOk result (members_view members.new.entries ≡ with_member name.now (shown_reference id) (members_view members.old.entries)) }
{
    put(members, alloc, name, reference_object(alloc, id)?)
}

/// A row that another may name.
pub fn put_link(
    alloc: Global,
    members: &mut Map<String, Value>,
    name: &str,
    id: Option<Id>,
) -> Result<(), AllocError>
    ensures { OnOk result (members_view members.new.entries ≡ with_member name.now (shown_link id) (members_view members.old.entries)) }
{
    put(members, alloc, name, link_value(alloc, id)?)
}

/// The headers that a route asks for.
pub fn put_headers(
    alloc: Global,
    members: &mut Map<String, Value>,
    name: &str,
    tests: &List<HeaderTest>,
) -> Result<(), AllocError>
    ensures { OnOk result (members_view members.new.entries ≡ with_member name.now (shown_headers tests.now) (members_view members.old.entries)) }
{
    put(
        members,
        alloc,
        name,
        headers_value(alloc, tests.as_slice())?,
    )
}

/// The protocols of a route, which takes `https` or not.
pub fn put_protocols(
    alloc: Global,
    members: &mut Map<String, Value>,
    name: &str,
    https: bool,
) -> Result<(), AllocError>
    ensures { OnOk result (members_view members.new.entries ≡ with_member name.now (shown_texts (protocols_of https)) (members_view members.old.entries)) }
{
    put(members, alloc, name, protocols_value(alloc, https)?)
}

/// One step of a request's change.
pub fn put_edits(
    alloc: Global,
    members: &mut Map<String, Value>,
    name: &str,
    edits: &Edits,
) -> Result<(), AllocError>
    ensures { OnOk result (members_view members.new.entries ≡ with_member name.now (shown_edits edits.now) (members_view members.old.entries)) }
{
    put(
        members,
        alloc,
        name,
        edits_value(
            alloc,
            edits.headers.as_slice(),
            edits.querystring.as_slice(),
        )?,
    )
}

/// One step of a reply's change.
pub fn put_header_edits(
    alloc: Global,
    members: &mut Map<String, Value>,
    name: &str,
    headers: &List<Text>,
) -> Result<(), AllocError>
    ensures { OnOk result (members_view members.new.entries ≡ with_member name.now (shown_header_edits headers.now) (members_view members.old.entries)) }
{
    put(
        members,
        alloc,
        name,
        header_edits_value(alloc, headers.as_slice())?,
    )
}

fn option_value(number: Option<u64>) -> Value
    ensures { view result ≡ shown_option number }
{
    match number {
        Some(number) => Value::from(number),
        None => Value::Null,
    }
}

fn text_value(alloc: Global, text: &Option<Text>) -> Result<Value, AllocError>
    ensures { IfOk result (λ v. view v ≡ shown_text text.now) }
{
    match text {
        Some(text) => Value::try_from_str(alloc, text.as_str()),
        None => Ok(Value::Null),
    }
}

fn id_value(alloc: Global, id: Id) -> Result<Value, AllocError>
    ensures { IfOk result (λ v. view v ≡ shown_id id) }
{
    match id.to_text(alloc) {
        Ok(text) => Value::try_from_str(alloc, text.as_str()),
        Err(_) => Err(AllocError),
    }
}

fn reference_object(alloc: Global, id: Id) -> Result<Value, AllocError>
    ensures { IfOk result (λ v. view v ≡ shown_reference id) }
{
    let mut members = Map::new(alloc);
    put(&mut members, alloc, "id", id_value(alloc, id)?)?;
    Ok(Value::from(members))
}

fn link_value(alloc: Global, id: Option<Id>) -> Result<Value, AllocError>
    ensures { IfOk result (λ v. view v ≡ shown_link id) }
{
    match id {
        Some(id) => reference_object(alloc, id),
        None => Ok(Value::Null),
    }
}

fn protocols_value(alloc: Global, https: bool) -> Result<Value, AllocError>
    ensures { IfOk result (λ v. view v ≡ shown_texts (protocols_of https)) }
{
    if https {
        json!(in alloc; ["http", "https"])
    } else {
        json!(in alloc; ["http"])
    }
}

fn list_value(alloc: Global, texts: &[Text]) -> Result<Value, AllocError>
    ensures { IfOk result (λ v. view v ≡ shown_texts texts.now) }
{
    if texts.is_empty() {
        return Ok(Value::Null);
    }
    Ok(Value::from(text_values(alloc, texts)?))
}

fn text_values(alloc: Global, texts: &[Text]) -> Result<Vec<Value>, AllocError>
    ensures { IfOk result (λ values. map view values.items ≡ map string texts.now) }
{
    let mut values = Vec::new(alloc);
    for text in texts {
        values.push(Value::try_from_str(alloc, text.as_str())?)?;
    }
    Ok(values)
}

fn headers_value(alloc: Global, tests: &[HeaderTest]) -> Result<Value, AllocError>
    ensures { IfOk result (λ v. view v ≡ shown_headers tests.now) }
{
    if tests.is_empty() {
        return Ok(Value::Null);
    }
    Ok(Value::from(header_members(alloc, tests)?))
}

fn header_members(alloc: Global, tests: &[HeaderTest]) -> Result<Map<String, Value>, AllocError>
    ensures { IfOk result (λ members. members_view members.entries ≡ fold with_values no_members tests.now) }
{
    let mut members = Map::new(alloc);
    for test in tests {
        let values = list_value(alloc, test.values.as_slice())?;
        put(&mut members, alloc, test.name.as_str(), values)?;
    }
    Ok(members)
}

fn edits_value(alloc: Global, headers: &[Text], querystring: &[Text]) -> Result<Value, AllocError>
    ensures { IfOk result (λ v. view v ≡ shown_edits (record { headers = headers.now; querystring = querystring.now })) }
{
    if headers.is_empty() && querystring.is_empty() {
        return Ok(Value::Null);
    }
    let headers = list_value(alloc, headers)?;
    let querystring = list_value(alloc, querystring)?;
    json!(in alloc; {"headers": headers, "querystring": querystring})
}

fn header_edits_value(alloc: Global, headers: &[Text]) -> Result<Value, AllocError>
    ensures { IfOk result (λ v. view v ≡ shown_header_edits headers.now) }
{
    if headers.is_empty() {
        return Ok(Value::Null);
    }
    let headers = list_value(alloc, headers)?;
    json!(in alloc; {"headers": headers})
}
