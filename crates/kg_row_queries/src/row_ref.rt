//! Rows of every kind, where they stand.

ghost use Rattle.std.specs.Prelude.{◌≡◌, IfOk};
ghost use Rattle.kg_row_types.specs.Entities.{id_of_row};
ghost use Rattle.kg_row_types.specs.declared.entity.Entity.TheVariants as of_row;
ghost use Rattle.kg_row_queries.specs.RowRefs.{row_at};

use kg_entities::{AclRow, BasicCred, Consumer, Entity, Id, KeyCred, PluginRow, Route, Service};
use kg_text::{NoMemory, TryClone};
use std::alloc::Global;

/// A row of some kind, where it stands.
#[derive(Clone, Copy)]
pub enum RowRef<'r> {
    Service(&'r Service),
    Route(&'r Route),
    Consumer(&'r Consumer),
    KeyCred(&'r KeyCred),
    BasicCred(&'r BasicCred),
    Acl(&'r AclRow),
    Plugin(&'r PluginRow),
}

impl RowRef<'_> {
    /// The id of the row.
    pub fn id(&self) -> Id
        ensures { result ≡ id_of_row (row_at self.now) }
    {
        match self {
            RowRef::Service(row) => row.id,
            RowRef::Route(row) => row.id,
            RowRef::Consumer(row) => row.id,
            RowRef::KeyCred(row) => row.id,
            RowRef::BasicCred(row) => row.id,
            RowRef::Acl(row) => row.id,
            RowRef::Plugin(row) => row.id,
        }
    }

    /// A copy of the row.
    pub fn copy(&self, alloc: Global) -> Result<Entity, NoMemory>
        ensures { IfOk result (λ row. row ≡ row_at self.now) }
    {
        match self {
            RowRef::Service(row) => service_copy(alloc, row),
            RowRef::Route(row) => route_copy(alloc, row),
            RowRef::Consumer(row) => consumer_copy(alloc, row),
            RowRef::KeyCred(row) => key_cred_copy(alloc, row),
            RowRef::BasicCred(row) => basic_cred_copy(alloc, row),
            RowRef::Acl(row) => acl_copy(alloc, row),
            RowRef::Plugin(row) => plugin_copy(alloc, row),
        }
    }
}

// A function for each kind, since a `?` beside a copied row takes the prover long.
fn service_copy(alloc: Global, row: &Service) -> Result<Entity, NoMemory>
    ensures { IfOk result (λ copy. copy ≡ of_row.Service row.now) }
{
    Ok(Entity::Service(row.try_clone(alloc)?))
}

fn route_copy(alloc: Global, row: &Route) -> Result<Entity, NoMemory>
    ensures { IfOk result (λ copy. copy ≡ of_row.Route row.now) }
{
    Ok(Entity::Route(row.try_clone(alloc)?))
}

fn consumer_copy(alloc: Global, row: &Consumer) -> Result<Entity, NoMemory>
    ensures { IfOk result (λ copy. copy ≡ of_row.Consumer row.now) }
{
    Ok(Entity::Consumer(row.try_clone(alloc)?))
}

fn key_cred_copy(alloc: Global, row: &KeyCred) -> Result<Entity, NoMemory>
    ensures { IfOk result (λ copy. copy ≡ of_row.KeyCred row.now) }
{
    Ok(Entity::KeyCred(row.try_clone(alloc)?))
}

fn basic_cred_copy(alloc: Global, row: &BasicCred) -> Result<Entity, NoMemory>
    ensures { IfOk result (λ copy. copy ≡ of_row.BasicCred row.now) }
{
    Ok(Entity::BasicCred(row.try_clone(alloc)?))
}

fn acl_copy(alloc: Global, row: &AclRow) -> Result<Entity, NoMemory>
    ensures { IfOk result (λ copy. copy ≡ of_row.Acl row.now) }
{
    Ok(Entity::Acl(row.try_clone(alloc)?))
}

fn plugin_copy(alloc: Global, row: &PluginRow) -> Result<Entity, NoMemory>
    ensures { IfOk result (λ copy. copy ≡ of_row.Plugin row.now) }
{
    Ok(Entity::Plugin(row.try_clone(alloc)?))
}
