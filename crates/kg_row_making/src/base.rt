//! What a body is finished over: a row that isn't there yet, or an old one.

ghost use Rattle.std.specs.Prelude.{◌≡◌, ◌/◌, [], Some, IfOk, unwrap_or};
ghost use Rattle.std.specs.Option.{option_copied};
ghost use Rattle.serde_json.specs.View.{view};
ghost use Rattle.kg_row_making.specs.Bases.{acl_of, acl_owner, base_of, basic_of, basic_owner, consumer_of, fixed_id, given_word, key_of, key_owner, made_at, old_as, old_plugin, plugin_row_of, route_of, service_of, stamps_of};
ghost use Rattle.kg_bodies.specs.Settings.{id_at};

use kg_bodies::settings::id_at;
use kg_row_types::consumer::{AclRow, BasicCred, Consumer, KeyCred};
use kg_row_types::entity::Entity;
use kg_row_types::id::Id;
use kg_row_types::plugin::{PluginName, PluginRow};
use kg_row_types::route::Route;
use kg_row_types::service::Service;
use kg_text::{NoMemory, Text, TryClone};
use serde_json::Value;
use std::alloc::Global;

/// What a body is finished over. `now` is the clock in milliseconds, a row's own times are in
/// seconds.
#[derive(Clone, Copy)]
pub enum Base<'a> {
    /// A row that isn't there yet. It has this id, where the body names no other.
    New { id: Id, now: u64 },
    /// A row that is made by its id, or made again.
    Again { id: Id, created_at: u64, now: u64 },
    /// A row that isn't there yet and is made by its name, username, key or group. It has this id,
    /// where the body names no other.
    Word { id: Id, word: &'a Text, now: u64 },
    /// A row that is changed.
    Old { row: &'a Entity, now: u64 },
}

/// The rows that a row names, by their ids: those of its body, or of the parent under which it
/// stands.
#[derive(Clone, Copy)]
pub struct Links {
    pub service: Option<Id>,
    pub route: Option<Id>,
    pub consumer: Option<Id>,
}

/// A field that names a parent.
#[derive(Clone, Copy)]
pub enum ParentField {
    Service,
    Route,
    Consumer,
}

/// The id and the times of a row; the times are in seconds.
#[derive(Clone, Copy)]
pub struct Stamps {
    pub id: Id,
    pub created_at: u64,
    pub updated_at: u64,
}

impl Base<'_> {
    /// The word by which the row is made.
    pub fn given_word(&self) -> Option<&Text>
        ensures { option_copied result ≡ given_word (base_of self.now) }
    {
        match self {
            Base::New { .. } => None,
            Base::Again { .. } => None,
            Base::Word { word, .. } => Some(*word),
            Base::Old { .. } => None,
        }
    }

    /// A copy of that word.
    pub fn given_text(&self, alloc: Global) -> Result<Option<Text>, NoMemory>
        ensures { IfOk result (λ word. word ≡ given_word (base_of self.now)) }
    {
        match self.given_word() {
            Some(word) => Ok(Some(word.try_clone(alloc)?)),
            None => Ok(None),
        }
    }

    /// That word, or no bytes.
    pub fn given_or_empty(&self, alloc: Global) -> Result<Text, NoMemory>
        ensures { IfOk result (λ word. word ≡ unwrap_or (given_word (base_of self.now)) []) }
    {
        match self.given_word() {
            Some(word) => word.try_clone(alloc),
            None => Ok(Text::new(alloc)),
        }
    }

    /// The id that the row has whatever the body says.
    pub fn fixed_id(&self) -> Option<Id>
        ensures { result ≡ fixed_id (base_of self.now) }
    {
        match self {
            Base::New { .. } => None,
            Base::Again { id, .. } => Some(*id),
            Base::Word { .. } => None,
            Base::Old { row, .. } => Some(row.id()),
        }
    }

    /// The id and the times of the finished row.
    pub fn stamps(&self, body: &Value) -> Stamps
        ensures { result ≡ stamps_of (base_of self.now) (view body.now) }
    {
        match self {
            Base::New { id, now } => new_stamps(*id, *now, body),
            Base::Again {
                id,
                created_at,
                now,
            } => Stamps {
                id: *id,
                created_at: *created_at,
                updated_at: *now / 1000,
            },
            Base::Word { id, now, .. } => new_stamps(*id, *now, body),
            Base::Old { row, now } => Stamps {
                id: row.id(),
                created_at: made_at(row),
                updated_at: *now / 1000,
            },
        }
    }

    fn old(&self) -> Option<&Entity>
        ensures { option_copied result ≡ old_as (λ row. Some row) (base_of self.now) }
    {
        match self {
            Base::New { .. } => None,
            Base::Again { .. } => None,
            Base::Word { .. } => None,
            Base::Old { row, .. } => Some(*row),
        }
    }

    pub fn service(&self) -> Option<&Service>
        ensures { option_copied result ≡ old_as service_of (base_of self.now) }
    {
        match self.old() {
            Some(Entity::Service(old)) => Some(old),
            _ => None,
        }
    }

    pub fn route(&self) -> Option<&Route>
        ensures { option_copied result ≡ old_as route_of (base_of self.now) }
    {
        match self.old() {
            Some(Entity::Route(old)) => Some(old),
            _ => None,
        }
    }

    pub fn consumer(&self) -> Option<&Consumer>
        ensures { option_copied result ≡ old_as consumer_of (base_of self.now) }
    {
        match self.old() {
            Some(Entity::Consumer(old)) => Some(old),
            _ => None,
        }
    }

    pub fn key(&self) -> Option<&KeyCred>
        ensures { option_copied result ≡ old_as key_of (base_of self.now) }
    {
        match self.old() {
            Some(Entity::KeyCred(old)) => Some(old),
            _ => None,
        }
    }

    pub fn basic(&self) -> Option<&BasicCred>
        ensures { option_copied result ≡ old_as basic_of (base_of self.now) }
    {
        match self.old() {
            Some(Entity::BasicCred(old)) => Some(old),
            _ => None,
        }
    }

    pub fn acl(&self) -> Option<&AclRow>
        ensures { option_copied result ≡ old_as acl_of (base_of self.now) }
    {
        match self.old() {
            Some(Entity::Acl(old)) => Some(old),
            _ => None,
        }
    }

    pub fn plugin(&self) -> Option<&PluginRow>
        ensures { option_copied result ≡ old_as plugin_row_of (base_of self.now) }
    {
        match self.old() {
            Some(Entity::Plugin(old)) => Some(old),
            _ => None,
        }
    }

    /// The consumer of the old credential with a key.
    pub fn key_owner(&self) -> Option<Id>
        ensures { result ≡ key_owner (base_of self.now) }
    {
        match self.key() {
            Some(old) => Some(old.consumer),
            None => None,
        }
    }

    /// The consumer of the old credential with a password.
    pub fn basic_owner(&self) -> Option<Id>
        ensures { result ≡ basic_owner (base_of self.now) }
    {
        match self.basic() {
            Some(old) => Some(old.consumer),
            None => None,
        }
    }

    /// The consumer of the old membership.
    pub fn acl_owner(&self) -> Option<Id>
        ensures { result ≡ acl_owner (base_of self.now) }
    {
        match self.acl() {
            Some(old) => Some(old.consumer),
            None => None,
        }
    }

    /// The plugin of the old row.
    pub fn old_plugin(&self) -> Option<PluginName>
        ensures { result ≡ old_plugin (base_of self.now) }
    {
        match self.plugin() {
            Some(old) => Some(old.config.name()),
            None => None,
        }
    }
}

// Where a row is new, the body may name its id.
fn new_stamps(id: Id, now: u64, body: &Value) -> Stamps
    ensures { result ≡ record { id = unwrap_or (id_at (view body.now)) id; created_at = now / 1000; updated_at = now / 1000 } }
{
    Stamps {
        id: id_at(body).unwrap_or(id),
        created_at: now / 1000,
        updated_at: now / 1000,
    }
}

/// The time at which a row was made, in seconds.
pub fn made_at(row: &Entity) -> u64
    ensures { result ≡ made_at row.now }
{
    match row {
        Entity::Service(row) => row.created_at,
        Entity::Route(row) => row.created_at,
        Entity::Consumer(row) => row.created_at,
        Entity::KeyCred(row) => row.created_at,
        Entity::BasicCred(row) => row.created_at,
        Entity::Acl(row) => row.created_at,
        Entity::Plugin(row) => row.created_at,
    }
}
