//! Which generations a command changes.

ghost use Rattle.std.specs.Prelude.{◌≡◌, ◌==◌, ◌↔◌, [], ◌∷◌, ◌++◌, IsTrue, IfOk, if◌then◌else◌};
ghost use Rattle.kg_row_types.specs.RowChanges.{names_row};
ghost use Rattle.kg_row_types.specs.Tables.{replaced};
ghost use Rattle.kg_row_types.specs.declared.key.GenKey.TheVariants.{Router as OfRouter, Plugins as OfPlugins};
ghost use Rattle.kg_row_values.specs.Changes.{NamesChangedGenerations};
ghost use Rattle.kg_row_values.specs.Rows.{changed, deleted};
ghost use Rattle.kg_row_values.specs.Values.{generation_of};
ghost use Rattle.std.specs.List.{list_any};

use crate::command::Command;
use crate::same::{is_same_plugin, is_same_route, is_same_service};
use kg_entities::{Entity, GenKey, Id, Kind, PluginRow, Route, Rows, Service};
use kg_text::{List, NoMemory};
use std::alloc::Global;

/// The generations that the command changes, each once.
pub fn changed_generations(
    alloc: Global,
    rows: &Rows,
    command: &Command,
) -> Result<List<GenKey>, NoMemory>
    ensures { IfOk result (λ gens. NamesChangedGenerations rows.now (changed command.now rows.now) gens) }
{
    let router = keeps_router(rows, command);
    let plugins = keeps_plugins(rows, command);
    changed_of(alloc, router, plugins)
}

// The generations that don't stay as they are.
fn changed_of(alloc: Global, router: bool, plugins: bool) -> Result<List<GenKey>, NoMemory>
    ensures { IfOk result (λ gens. gens ≡ (if router then [] else OfRouter ∷ []) ++ (if plugins then [] else OfPlugins ∷ [])) }
{
    let mut gens = List::new(alloc);
    if !router {
        gens.push(GenKey::Router)?;
    }
    if !plugins {
        gens.push(GenKey::Plugins)?;
    }
    Ok(gens)
}

fn keeps_router(rows: &Rows, command: &Command) -> bool
    ensures { IsTrue result ↔ (generation_of rows.now OfRouter ≡ generation_of (changed command.now rows.now) OfRouter) }
{
    match command {
        Command::Insert(new) => match new {
            Entity::Service(_) => false,
            Entity::Route(_) => false,
            Entity::Consumer(_) => true,
            Entity::KeyCred(_) => true,
            Entity::BasicCred(_) => true,
            Entity::Acl(_) => true,
            Entity::Plugin(_) => true,
        },
        Command::Update(new) => match new {
            Entity::Service(new) => keeps_service(rows, new),
            Entity::Route(new) => keeps_route(rows, new),
            Entity::Consumer(_) => true,
            Entity::KeyCred(_) => true,
            Entity::BasicCred(_) => true,
            Entity::Acl(_) => true,
            Entity::Plugin(_) => true,
        },
        Command::Delete { kind, id } => match kind {
            Kind::Service => !rows.contains(Kind::Service, *id),
            Kind::Route => !rows.contains(Kind::Route, *id),
            Kind::Consumer => true,
            Kind::KeyCred => true,
            Kind::BasicCred => true,
            Kind::Acl => true,
            Kind::Plugin => true,
        },
    }
}

fn keeps_plugins(rows: &Rows, command: &Command) -> bool
    ensures { IsTrue result ↔ (generation_of rows.now OfPlugins ≡ generation_of (changed command.now rows.now) OfPlugins) }
{
    match command {
        Command::Insert(new) => match new {
            Entity::Service(_) => true,
            Entity::Route(_) => true,
            Entity::Consumer(_) => true,
            Entity::KeyCred(_) => true,
            Entity::BasicCred(_) => true,
            Entity::Acl(_) => true,
            Entity::Plugin(_) => false,
        },
        Command::Update(new) => match new {
            Entity::Service(_) => true,
            Entity::Route(_) => true,
            Entity::Consumer(_) => true,
            Entity::KeyCred(_) => true,
            Entity::BasicCred(_) => true,
            Entity::Acl(_) => true,
            Entity::Plugin(new) => keeps_plugin(rows, new),
        },
        Command::Delete { kind, id } => match kind {
            Kind::Service => !names_one(rows, Kind::Service, *id),
            Kind::Route => !names_one(rows, Kind::Route, *id),
            Kind::Consumer => !names_one(rows, Kind::Consumer, *id),
            Kind::KeyCred => true,
            Kind::BasicCred => true,
            Kind::Acl => true,
            Kind::Plugin => !rows.contains(Kind::Plugin, *id),
        },
    }
}

// A plugin's scope names the row of this kind and id.
fn names_one(rows: &Rows, kind: Kind, id: Id) -> bool
    ensures { result ≡ list_any (names_row kind id) rows.now.plugins }
{
    match rows.plugins().first_of(kind, id) {
        Some(_) => true,
        None => false,
    }
}

// No row of its id differs from the row that would replace it.
fn keeps_service(rows: &Rows, new: &Service) -> bool
    ensures { IsTrue result ↔ (rows.now.services ≡ replaced (λ row. row.id == new.now.id) new.now rows.now.services) }
{
    match rows.services().get(new.id) {
        Some(old) => is_same_service(old, new),
        None => true,
    }
}

fn keeps_route(rows: &Rows, new: &Route) -> bool
    ensures { IsTrue result ↔ (rows.now.routes ≡ replaced (λ row. row.id == new.now.id) new.now rows.now.routes) }
{
    match rows.routes().get(new.id) {
        Some(old) => is_same_route(old, new),
        None => true,
    }
}

fn keeps_plugin(rows: &Rows, new: &PluginRow) -> bool
    ensures { IsTrue result ↔ (rows.now.plugins ≡ replaced (λ row. row.id == new.now.id) new.now rows.now.plugins) }
{
    match rows.plugins().get(new.id) {
        Some(old) => is_same_plugin(old, new),
        None => true,
    }
}
