//! The values of keys.

ghost use Rattle.std.specs.Prelude.{◌≡◌, ◌==◌, [], ◌↔◌, IsTrue, IfOk, filter, find, fold, map};
ghost use Rattle.std.specs.BTreeSet.{insert_key};
ghost use Rattle.std.specs.Cmp.Lexicographic.{slice_cmp};
ghost use Rattle.std.specs.Ordering.{nat_cmp};
ghost use Rattle.std.specs.Option.{option_copied};
ghost use Rattle.std.specs.List.{list_all, list_any};
ghost use Rattle.std.specs.Str.{bytes_eq};
ghost use Rattle.kg_row_values.specs.ByteOrder.{IsInByteOrder};
ghost use Rattle.kg_row_values.specs.Values.{value_of, groups_of};
ghost use Rattle.kg_row_values.specs.Watching.{IsOrderly};

use kg_entities::{AclRow, BasicCred, Consumer, Id, Key, KeyCred, Kind, Rows, Value, Walk};
use kg_text::{List, NoMemory, Text, TryClone};
use std::alloc::Global;
use std::collections::BTreeSet;

/// The value of a key at these rows.
pub fn value_of(alloc: Global, rows: &Rows, key: &Key) -> Result<Value, NoMemory>
    ensures { IfOk result (λ value. value ≡ value_of rows.now key.now) }
{
    match key {
        Key::Cred(text) => Ok(Value::Cred(copied(alloc, rows.cred_with_key(text))?)),
        Key::Basic(text) => Ok(Value::Basic(copied(alloc, rows.cred_with_username(text))?)),
        Key::Consumer(id) => Ok(Value::Consumer(copied(alloc, rows.consumers().get(*id))?)),
        Key::Named(text) => Ok(Value::Consumer(copied(alloc, rows.consumer_named(text))?)),
        Key::Acls(id) => Ok(Value::Acls(consumer_groups(alloc, rows, *id)?)),
    }
}

fn consumer_with_id(rows: &Rows, id: Id) -> Option<&Consumer>
    ensures { option_copied result ≡ find (λ row. row.id == id) rows.now.consumers }
{
    rows.consumers().get(id)
}

fn copied<T: TryClone>(alloc: Global, found: Option<&T>) -> Result<Option<T>, NoMemory>
    ensures { IfOk result (λ copy. copy ≡ option_copied found.entry) }
{
    match found {
        Some(row) => Ok(Some(row.try_clone(alloc)?)),
        None => Ok(None),
    }
}

// The groups of a consumer, in byte order.
fn consumer_groups(alloc: Global, rows: &Rows, consumer: Id) -> Result<List<Text>, NoMemory>
    ensures { IfOk result (λ groups. groups ≡ groups_of consumer rows.now.acls) }
{
    let groups = group_set(alloc, rows.acls().of(Kind::Consumer, consumer))?;
    listed(alloc, groups)
}

fn group_set(alloc: Global, memberships: Walk<'_, AclRow>) -> Result<BTreeSet<Text>, NoMemory>
    ensures { IfOk result (λ set. set.keys ≡ fold (insert_key (slice_cmp nat_cmp)) [] (map (λ row. row.group) memberships.entry)) }
{
    let mut groups = BTreeSet::new(alloc);
    for row in memberships {
        groups.insert(row.group.try_clone(alloc)?)?;
    }
    Ok(groups)
}

fn listed(alloc: Global, groups: BTreeSet<Text>) -> Result<List<Text>, NoMemory>
    ensures { IfOk result (λ list. list ≡ groups.keys) }
{
    let mut list = List::new(alloc);
    for group in groups {
        list.push(group)?;
    }
    Ok(list)
}

/// Whether the value of a key is this one, whose groups stand in byte order. It takes no memory.
pub fn has_value(rows: &Rows, key: &Key, value: &Value) -> bool
    ensures { IsOrderly value.now → IsTrue result ↔ (value_of rows.now key.now ≡ value.now) }
{
    match key {
        Key::Cred(text) => match value {
            Value::Cred(found) => is_cred(rows.cred_with_key(text), found),
            _ => false,
        },
        Key::Basic(text) => match value {
            Value::Basic(found) => is_basic(rows.cred_with_username(text), found),
            _ => false,
        },
        Key::Consumer(id) => match value {
            Value::Consumer(found) => is_consumer(consumer_with_id(rows, *id), found),
            _ => false,
        },
        Key::Named(text) => match value {
            Value::Consumer(found) => is_consumer(rows.consumer_named(text), found),
            _ => false,
        },
        Key::Acls(id) => match value {
            Value::Acls(groups) => has_groups(rows, *id, groups),
            _ => false,
        },
    }
}

fn is_cred(now: Option<&KeyCred>, before: &Option<KeyCred>) -> bool
    ensures { IsTrue result ↔ (option_copied now.entry ≡ before.now) }
{
    match now {
        Some(row) => match before {
            Some(other) => row == other,
            None => false,
        },
        None => match before {
            Some(_) => false,
            None => true,
        },
    }
}

fn is_basic(now: Option<&BasicCred>, before: &Option<BasicCred>) -> bool
    ensures { IsTrue result ↔ (option_copied now.entry ≡ before.now) }
{
    match now {
        Some(row) => match before {
            Some(other) => row == other,
            None => false,
        },
        None => match before {
            Some(_) => false,
            None => true,
        },
    }
}

fn is_consumer(now: Option<&Consumer>, before: &Option<Consumer>) -> bool
    ensures { IsTrue result ↔ (option_copied now.entry ≡ before.now) }
{
    match now {
        Some(row) => match before {
            Some(other) => row == other,
            None => false,
        },
        None => match before {
            Some(_) => false,
            None => true,
        },
    }
}

// The groups of a consumer are these: each of its groups is among them, and each of them is one of its
// groups.
fn has_groups(rows: &Rows, consumer: Id, groups: &List<Text>) -> bool
    ensures { IsInByteOrder groups.now → IsTrue result ↔ (groups_of consumer rows.now.acls ≡ groups.now) }
{
    are_among(rows, consumer, groups) && has_each(rows, consumer, groups)
}

fn are_among(rows: &Rows, consumer: Id, groups: &List<Text>) -> bool
    ensures { result ≡ list_all (λ row. list_any (bytes_eq row.group) groups.now) (filter (λ row. row.consumer == consumer) rows.now.acls) }
{
    rows.acls()
        .of(Kind::Consumer, consumer)
        .all(|row| is_group(groups, &row.group))
}

fn is_group(groups: &List<Text>, group: &Text) -> bool
    ensures { result ≡ list_any (bytes_eq group.now) groups.now }
{
    groups.as_slice().iter().any(|other| group == other)
}

fn has_each(rows: &Rows, consumer: Id, groups: &List<Text>) -> bool
    ensures { result ≡ list_all (λ group. list_any (λ row. bytes_eq group row.group) (filter (λ row. row.consumer == consumer) rows.now.acls)) groups.now }
{
    groups
        .as_slice()
        .iter()
        .all(|group| is_member(rows, consumer, group))
}

fn is_member(rows: &Rows, consumer: Id, group: &Text) -> bool
    ensures { result ≡ list_any (λ row. bytes_eq group.now row.group) (filter (λ row. row.consumer == consumer) rows.now.acls) }
{
    rows.acls()
        .of(Kind::Consumer, consumer)
        .any(|row| *group == row.group)
}
