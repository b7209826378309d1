//! Rows of every kind.

ghost use Rattle.std.specs.Prelude.{◌≡◌};
ghost use Rattle.kg_row_types.specs.Entities.{kind_of, id_of_row};

use crate::consumer::{AclRow, BasicCred, Consumer, KeyCred};
use crate::id::Id;
use crate::plugin::PluginRow;
use crate::route::Route;
use crate::service::Service;
use kg_text::{NoMemory, TryClone};
use std::alloc::Global;

/// The kinds of rows.
#[derive(Clone, Copy, Debug, PartialEq, Eq)]
pub enum Kind {
    Service,
    Route,
    Consumer,
    KeyCred,
    BasicCred,
    Acl,
    Plugin,
}

/// A row of some kind.
#[derive(Drop)]
pub enum Entity {
    Service(Service),
    Route(Route),
    Consumer(Consumer),
    KeyCred(KeyCred),
    BasicCred(BasicCred),
    Acl(AclRow),
    Plugin(PluginRow),
}

impl Entity {
    /// The kind of the row.
    pub fn kind(&self) -> Kind
        ensures { result ≡ kind_of self.now }
    {
        match self {
            Entity::Service(_) => Kind::Service,
            Entity::Route(_) => Kind::Route,
            Entity::Consumer(_) => Kind::Consumer,
            Entity::KeyCred(_) => Kind::KeyCred,
            Entity::BasicCred(_) => Kind::BasicCred,
            Entity::Acl(_) => Kind::Acl,
            Entity::Plugin(_) => Kind::Plugin,
        }
    }

    /// The id of the row.
    pub fn id(&self) -> Id
        ensures { result ≡ id_of_row self.now }
    {
        match self {
            Entity::Service(row) => row.id,
            Entity::Route(row) => row.id,
            Entity::Consumer(row) => row.id,
            Entity::KeyCred(row) => row.id,
            Entity::BasicCred(row) => row.id,
            Entity::Acl(row) => row.id,
            Entity::Plugin(row) => row.id,
        }
    }
}

impl TryClone for Entity {
    fn try_clone(&self, alloc: Global) -> Result<Entity, NoMemory> {
        match self {
            Entity::Service(row) => Ok(Entity::Service(row.try_clone(alloc)?)),
            Entity::Route(row) => Ok(Entity::Route(row.try_clone(alloc)?)),
            Entity::Consumer(row) => Ok(Entity::Consumer(row.try_clone(alloc)?)),
            Entity::KeyCred(row) => Ok(Entity::KeyCred(row.try_clone(alloc)?)),
            Entity::BasicCred(row) => Ok(Entity::BasicCred(row.try_clone(alloc)?)),
            Entity::Acl(row) => Ok(Entity::Acl(row.try_clone(alloc)?)),
            Entity::Plugin(row) => Ok(Entity::Plugin(row.try_clone(alloc)?)),
        }
    }
}
