//! Keys whose values a command may change.

ghost use Rattle.std.specs.Prelude.{◌≡◌, ◌==◌, ◌++◌, List as Sequence, IfOk, OnOk, filter};
ghost use Rattle.std.specs.List.{flat_map};
ghost use Rattle.kg_row_types.specs.Entities.{kind_of, id_of_row};
ghost use Rattle.kg_row_types.specs.declared.key.Key.{Key as Asked};
ghost use Rattle.kg_row_changes.specs.Candidates.{candidates, keys_of, keys_of_id, keys_below, keys_of_credentials, consumer_keys, cred_keys, basic_keys, acl_keys};

use kg_entities::{
    AclRow, BasicCred, Consumer, Entity, Id, Key, KeyCred, Kind, Row, RowTable, Rows, Walk,
};
use kg_row_values::command::Command;
use kg_text::{NoMemory, TryClone};
use std::alloc::Global;

/// Rows that keys look at.
trait Keyed: Row {
    ghost asked: { Self → Sequence Asked };

    /// Adds the keys that look at the row.
    fn push_keys(&self, alloc: Global, keys: &mut Vec<Key>) -> Result<(), NoMemory>
        ensures { OnOk result (keys.new.items ≡ keys.old.items ++ asked self.now) };
}

impl Keyed for Consumer {
    ghost asked = { consumer_keys };

    fn push_keys(&self, alloc: Global, keys: &mut Vec<Key>) -> Result<(), NoMemory> {
        keys.push(Key::Consumer(self.id))?;
        keys.push(Key::Named(self.id.to_text(alloc)?))?;
        match &self.username {
            Some(name) => {
                keys.push(Key::Named(name.try_clone(alloc)?))?;
                Ok(())
            }
            None => Ok(()),
        }
    }
}

impl Keyed for KeyCred {
    ghost asked = { cred_keys };

    fn push_keys(&self, alloc: Global, keys: &mut Vec<Key>) -> Result<(), NoMemory> {
        keys.push(Key::Cred(self.key.try_clone(alloc)?))?;
        Ok(())
    }
}

impl Keyed for BasicCred {
    ghost asked = { basic_keys };

    fn push_keys(&self, alloc: Global, keys: &mut Vec<Key>) -> Result<(), NoMemory> {
        keys.push(Key::Basic(self.username.try_clone(alloc)?))?;
        Ok(())
    }
}

impl Keyed for AclRow {
    ghost asked = { acl_keys };

    fn push_keys(&self, _: Global, keys: &mut Vec<Key>) -> Result<(), NoMemory> {
        keys.push(Key::Acls(self.consumer))?;
        Ok(())
    }
}

/// The keys whose values the command may change, with repeats.
pub fn candidates(alloc: Global, rows: &Rows, command: &Command) -> Result<Vec<Key>, NoMemory>
    ensures { IfOk result (λ keys. keys.items ≡ candidates command.now rows.now) }
{
    let mut keys = Vec::new(alloc);
    push_candidates(alloc, rows, command, &mut keys)?;
    Ok(keys)
}

fn push_candidates(
    alloc: Global,
    rows: &Rows,
    command: &Command,
    keys: &mut Vec<Key>,
) -> Result<(), NoMemory>
    ensures { OnOk result (keys.new.items ≡ keys.old.items ++ candidates command.now rows.now) }
{
    match command {
        Command::Insert(new) => push_of(alloc, new, keys),
        Command::Update(new) => {
            push_of_id(alloc, rows, new.kind(), new.id(), keys)?;
            push_of(alloc, new, keys)
        }
        Command::Delete { kind, id } => {
            push_of_id(alloc, rows, *kind, *id, keys)?;
            push_below(alloc, rows, *kind, *id, keys)
        }
    }
}

fn push_below(
    alloc: Global,
    rows: &Rows,
    kind: Kind,
    id: Id,
    keys: &mut Vec<Key>,
) -> Result<(), NoMemory>
    ensures { OnOk result (keys.new.items ≡ keys.old.items ++ keys_below kind id rows.now) }
{
    match kind {
        Kind::Consumer => push_of_credentials(alloc, rows, id, keys),
        Kind::Service => Ok(()),
        Kind::Route => Ok(()),
        Kind::KeyCred => Ok(()),
        Kind::BasicCred => Ok(()),
        Kind::Acl => Ok(()),
        Kind::Plugin => Ok(()),
    }
}

fn push_of(alloc: Global, row: &Entity, keys: &mut Vec<Key>) -> Result<(), NoMemory>
    ensures { OnOk result (keys.new.items ≡ keys.old.items ++ keys_of row.now) }
{
    match row {
        Entity::Consumer(row) => row.push_keys(alloc, keys),
        Entity::KeyCred(row) => row.push_keys(alloc, keys),
        Entity::BasicCred(row) => row.push_keys(alloc, keys),
        Entity::Acl(row) => row.push_keys(alloc, keys),
        Entity::Service(_) => Ok(()),
        Entity::Route(_) => Ok(()),
        Entity::Plugin(_) => Ok(()),
    }
}

fn push_of_id(
    alloc: Global,
    rows: &Rows,
    kind: Kind,
    id: Id,
    keys: &mut Vec<Key>,
) -> Result<(), NoMemory>
    ensures { OnOk result (keys.new.items ≡ keys.old.items ++ keys_of_id kind id rows.now) }
{
    match kind {
        Kind::Consumer => push_with_id(alloc, rows.consumers(), id, keys),
        Kind::KeyCred => push_with_id(alloc, rows.key_creds(), id, keys),
        Kind::BasicCred => push_with_id(alloc, rows.basic_creds(), id, keys),
        Kind::Acl => push_with_id(alloc, rows.acls(), id, keys),
        Kind::Service => Ok(()),
        Kind::Route => Ok(()),
        Kind::Plugin => Ok(()),
    }
}

fn push_of_credentials(
    alloc: Global,
    rows: &Rows,
    consumer: Id,
    keys: &mut Vec<Key>,
) -> Result<(), NoMemory>
    ensures { OnOk result (keys.new.items ≡ keys.old.items ++ keys_of_credentials consumer rows.now) }
{
    push_of_key_creds(alloc, rows, consumer, keys)?;
    push_of_basic_creds(alloc, rows, consumer, keys)?;
    keys.push(Key::Acls(consumer))?;
    Ok(())
}

fn push_of_key_creds(
    alloc: Global,
    rows: &Rows,
    consumer: Id,
    keys: &mut Vec<Key>,
) -> Result<(), NoMemory>
    ensures { OnOk result (keys.new.items ≡ keys.old.items ++ flat_map cred_keys (filter (λ row. row.consumer == consumer) rows.now.key_creds)) }
{
    push_of_each(alloc, rows.key_creds().of(Kind::Consumer, consumer), keys)
}

fn push_of_basic_creds(
    alloc: Global,
    rows: &Rows,
    consumer: Id,
    keys: &mut Vec<Key>,
) -> Result<(), NoMemory>
    ensures { OnOk result (keys.new.items ≡ keys.old.items ++ flat_map basic_keys (filter (λ row. row.consumer == consumer) rows.now.basic_creds)) }
{
    push_of_each(alloc, rows.basic_creds().of(Kind::Consumer, consumer), keys)
}

// The keys that look at the row with this id.
fn push_with_id<T: Keyed>(
    alloc: Global,
    rows: &RowTable<T>,
    id: Id,
    keys: &mut Vec<Key>,
) -> Result<(), NoMemory>
    ensures { OnOk result (keys.new.items ≡ keys.old.items ++ flat_map T.asked (filter (λ row. T.number row == id) rows.now)) }
{
    match rows.get(id) {
        Some(row) => row.push_keys(alloc, keys),
        None => Ok(()),
    }
}

// The keys that look at the rows.
fn push_of_each<T: Keyed>(
    alloc: Global,
    rows: Walk<'_, T>,
    keys: &mut Vec<Key>,
) -> Result<(), NoMemory>
    ensures { OnOk result (keys.new.items ≡ keys.old.items ++ flat_map T.asked rows.entry) }
{
    for row in rows {
        row.push_keys(alloc, keys)?;
    }
    Ok(())
}
